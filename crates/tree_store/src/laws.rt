// A law of the files of a project.
ghost use Rattle.tree_store.specs.Sources.{FilesAscend};

/// The sources of a project, and its stubs, ascend by their paths, which are ordered by their bytes.
pub fn files_ascend()
    ensures { FilesAscend }
{}
