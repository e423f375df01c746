// Laws of names, types, present annotations and values over closed cuts.
ghost use Rattle.closed_cuts.specs.FieldLaws.{AllFieldsStay, AllFieldsAgree};
ghost use Rattle.closed_cuts.specs.NameLaws.{AllNamesStay, AllNamesAgree};
ghost use Rattle.closed_cuts.specs.NodeTexts.{AllIsWritten};
ghost use Rattle.closed_cuts.specs.PresenceLaws.{AllPresenceStays, AllPresenceAgrees};
ghost use Rattle.closed_cuts.specs.QuestionLaws.{AllQuestionsStay, AllQuestionsAgree};
ghost use Rattle.closed_cuts.specs.RootedLaws.{ReachesAreRooted, UnionsAreRooted, SharedReachesAreOne, AbsentStays};
ghost use Rattle.closed_cuts.specs.TypeLaws.{AllTypesStay, AllTypesAgree};
ghost use Rattle.closed_cuts.specs.ValueLaws.{AllValuesStay, AllValuesAgree};

/// Each name chain of the type texts, the annotations and the values that are written at an element of a
/// unit is one of the unit.
pub fn elements_are_written()
    ensures { AllIsWritten }
{}

/// What the names, type texts and annotation names that are written in a unit of the cut or of the stubs
/// mean, what its imports name and what the implied names are is the same over the cut, and lies in the cut
/// or in the stubs.
pub fn names_stay()
    ensures { AllNamesStay }
{}

/// The same of two tables that have one cut.
pub fn names_agree()
    ensures { AllNamesAgree }
{}

/// The fields and enum constants that a type of the cut or of the stubs has, inherited ones too, and what
/// each name chain that is written there means as the name of one are the same over the cut, and lie in the
/// cut or in the stubs.
pub fn fields_stay()
    ensures { AllFieldsStay }
{}

/// The same of two tables that have one cut.
pub fn fields_agree()
    ensures { AllFieldsAgree }
{}

/// What stands at an element of the cut or of the stubs, the headers of types and the bounds of type
/// parameters, and each answer on types that name such elements alone is the same over the cut, also where
/// it is open, and names such elements alone.
pub fn types_stay()
    ensures { AllTypesStay }
{}

/// The same of two tables that have one cut.
pub fn types_agree()
    ensures { AllTypesAgree }
{}

/// Each question on types and elements of the cut and of the stubs comes to the same over the cut, its
/// fault or its answer, also where it names something that is nowhere.
pub fn questions_stay()
    ensures { AllQuestionsStay }
{}

/// The same of two tables that have one cut.
pub fn questions_agree()
    ensures { AllQuestionsAgree }
{}

/// The annotations that are written on an element of the cut or of the stubs and those that are present on
/// it, inherited ones too, with the annotation interfaces that their names mean, are the same over the cut,
/// and lie in the cut or in the stubs. So are the names that are present in a round with such units as its
/// roots, and the elements that carry each of them.
pub fn presence_stays()
    ensures { AllPresenceStays }
{}

/// The same of two tables that have one cut.
pub fn presence_agrees()
    ensures { AllPresenceAgrees }
{}

/// The annotations of an element of the cut or of the stubs as mirrors, written and inherited ones, their
/// values with the defaults of their interfaces, and the default and the constant of the element are the same
/// over the cut, and name elements of the cut and of the stubs alone.
pub fn values_stay()
    ensures { AllValuesStay }
{}

/// The same of two tables that have one cut.
pub fn values_agree()
    ensures { AllValuesAgree }
{}

/// The reach of a source unit is a set that the laws are of.
pub fn reaches_are_rooted()
    ensures { ReachesAreRooted }
{}

/// All names of two sets that the laws are of are one.
pub fn unions_are_rooted()
    ensures { UnionsAreRooted }
{}

/// Two tables with the same stubs that share the reach of a source unit have one cut to it.
pub fn shared_reaches_are_one()
    ensures { SharedReachesAreOne }
{}

/// A name that has no unit has none in a cut.
pub fn absent_stays()
    ensures { AbsentStays }
{}
