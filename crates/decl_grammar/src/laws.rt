// Laws of the grammar.
ghost use Rattle.decl_grammar.specs.Grammar.{ordinary, package_info};
ghost use Rattle.decl_grammar.specs.File.{HasOneReading, FrontsBegin, FrontsOfBegun};

/// A compilation unit has at most one reading, ordinary or of a file `package-info.java`.
pub fn one_reading()
    ensures types { HasOneReading ordinary }
    ensures info { HasOneReading package_info }
{}

/// Each front of a compilation unit begins one, and so does each front of what begins one.
pub fn fronts_begin()
    ensures types { FrontsBegin ordinary }
    ensures types_begun { FrontsOfBegun ordinary }
    ensures info { FrontsBegin package_info }
    ensures info_begun { FrontsOfBegun package_info }
{}
