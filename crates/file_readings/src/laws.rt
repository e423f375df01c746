// Laws of what files read as.
ghost use Rattle.file_readings.specs.FileReadings.{EachReads, ReadsOnce};

/// Each file reads as something, and as nothing else.
pub fn each_file()
    ensures reads { EachReads }
    ensures once { ReadsOnce }
{}
