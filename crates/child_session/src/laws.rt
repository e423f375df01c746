// What holds of every round.
ghost use Rattle.child_session.specs.FilingLaws.{FilesAreMade};
ghost use Rattle.child_session.specs.FreeLaws.{FreeActs};

/// A round is the free one, in which each creation whose elements are there is accepted, where each file of that one is
/// accepted, and where no file was refused.
pub fn free_acts_hold()
    ensures { FreeActs }
{}

/// The files that were accepted in a round stand behind those that the filer had before.
pub fn files_are_made()
    ensures { FilesAreMade }
{}
