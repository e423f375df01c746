// A law of the files of a project.
ghost use Rattle.project_reading.specs.Project.{LeastIsRefused};

/// Where the stubs of a project are refused, or its sources, it is for the one with the least path that is, by its bytes.
pub fn least_path_is_refused()
    ensures { LeastIsRefused }
{}
