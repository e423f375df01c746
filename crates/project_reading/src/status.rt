// How a call of `run` ends.
ghost use Rattle.std.specs.Prelude.{◌≡◌, IfOk, None, false};
ghost use Rattle.project_units.specs.Faults.{stop_of};
ghost use Rattle.project_units.specs.Refusals.{past};
ghost use Rattle.project_reading.specs.declared.status.Status.TheVariants as code;
ghost use Rattle.project_reading.specs.Verdicts.{verdict, stopped, code_of, number_of_breach, named_in, Refused};
ghost use Rattle.project_reading.specs.Endings.{of_store, EndsEarly};

use apt_base::{Name, NoMemory, What};
use frame_breaches::Breach;
use project_units::{Refusal, limit_of};
use tree_store::StoreFault;

/// Where a file of the configuration is off its form.
#[derive(Drop)]
pub enum Place {
    /// `apt.json` is no JSON object.
    Json,
    /// An item of `apt.json` is, at this place, as `/level` or `/processors/NAME/command`.
    Item(Name),
    /// A line of one of the other files is, of this number, from 1.
    Line(u32),
}

impl Place {
    /// An equal place.
    pub fn copy(&self) -> Result<Place, NoMemory>
        ensures { IfOk result (λ place. place ≡ self.now) }
    {
        match self {
            Place::Json => Ok(Place::Json),
            Place::Item(item) => Ok(Place::Item(item.copy()?)),
            Place::Line(line) => Ok(Place::Line(*line)),
        }
    }
}

/// How a call of `run` ends. A fault of the tree, the sink, the source or the children comes only where its count rose
/// in the call.
#[derive(Drop)]
pub enum Status {
    /// The build is published.
    Done,
    /// A processor printed errors, and nothing is published.
    Errors {
        /// How many.
        count: u64,
    },
    /// The words are none of the table's.
    BadWords {
        /// The position, from 0, of the first word that no line of the table has there, or the number of
        /// words where one is missing.
        at: u64,
    },
    /// A file of the configuration is not of its form: `apt.json`, or one of the two below `res/META-INF`.
    BadConfig {
        /// The path of the file, the first of the three that is off its form.
        path: Name,
        /// The first place in it that is.
        place: Place,
    },
    /// `apt.json` has no row for a processor that is named, by its `order` or by the file of services.
    UnknownProcessor {
        /// The first such name, in the order of discovery.
        name: Name,
    },
    /// A stub has no reading.
    BadStub {
        /// The least path of such a stub.
        path: Name,
        /// The offset of its first fault, in bytes.
        place: u32,
    },
    /// A source has no reading.
    BadSource {
        /// The least path of such a source.
        path: Name,
        /// The offset of its first fault, in bytes.
        place: u32,
    },
    /// Two places of the project give one name: two of its sources and stubs, or one of them twice.
    DuplicateType {
        /// The canonical name of the type, or that of the unit of its package, which ends in `package-info`.
        name: Name,
        /// The path of the file that gave it first: the stubs come before the sources, and each in the order of their paths.
        first: Name,
        /// The path of the one that gave it again.
        second: Name,
    },
    /// What a run may come to: a fault of a child or of what it said or made, or a limit that was passed (JSR 269, `Processor` and
    /// `Filer`). Reading a project too may pass a limit: the bytes of a file of the configuration, the sources or the stubs, the bytes of
    /// one of them or of all sources or all stubs, the processors, what is nested in a Java file, the children of an element, the bytes of
    /// a canonical name, or the types of the table.
    Refused(Refusal),
    /// A call of the tree failed.
    TreeFault,
    /// A call of the sink failed.
    SinkFault,
    /// A call of the source failed, from which `serve` alone reads.
    SourceFault,
    /// The host to which `serve` is a child left the protocol.
    HostBreach {
        /// How its bytes do, at the first place: they end before the first frame or within one, one of them is bad, or
        /// a whole frame may not come where it stands.
        breach: Breach,
    },
    /// Out of memory.
    Memory,
}

impl From<Refusal> for Status {
    ghost from_gives = { λ refusal e. verdict e ≡ stopped (stop_of refusal) };

    fn from(refusal: Refusal) -> Status {
        match refusal {
            Refusal::Memory => Status::Memory,
            refusal => Status::Refused(refusal),
        }
    }
}

/// The end of a call that passes a limit.
pub(crate) fn past_limit(what: What) -> Status
    ensures is { verdict result ≡ Refused (past what) }
    ensures early { EndsEarly (λ _. false) (verdict result) }
    ensures unnamed { named_in (verdict result) ≡ None }
{
    Status::Refused(Refusal::TooLarge {
        what,
        limit: limit_of(what),
    })
}

impl From<StoreFault> for Status {
    ghost from_gives = { λ fault e. e ≡ of_store fault };

    fn from(fault: StoreFault) -> Status {
        match fault {
            StoreFault::Failed => Status::TreeFault,
            StoreFault::Memory => Status::Memory,
        }
    }
}

impl From<NoMemory> for Status {
    ghost from_gives = { λ _ e. e ≡ code.Memory };

    fn from(_: NoMemory) -> Status {
        Status::Memory
    }
}

impl Status {
    /// An equal status.
    pub fn copy(&self) -> Result<Status, NoMemory>
        ensures { IfOk result (λ status. status ≡ self.now) }
    {
        match self {
            Status::Done => Ok(Status::Done),
            Status::Errors { count } => Ok(Status::Errors { count: *count }),
            Status::BadWords { at } => Ok(Status::BadWords { at: *at }),
            Status::BadConfig { path, place } => Ok(Status::BadConfig {
                path: path.copy()?,
                place: place.copy()?,
            }),
            Status::UnknownProcessor { name } => Ok(Status::UnknownProcessor {
                name: name.copy()?,
            }),
            Status::BadStub { path, place } => Ok(Status::BadStub {
                path: path.copy()?,
                place: *place,
            }),
            Status::BadSource { path, place } => Ok(Status::BadSource {
                path: path.copy()?,
                place: *place,
            }),
            Status::DuplicateType {
                name,
                first,
                second,
            } => Ok(Status::DuplicateType {
                name: name.copy()?,
                first: first.copy()?,
                second: second.copy()?,
            }),
            Status::Refused(refusal) => Ok(Status::Refused(refusal.copy()?)),
            Status::TreeFault => Ok(Status::TreeFault),
            Status::SinkFault => Ok(Status::SinkFault),
            Status::SourceFault => Ok(Status::SourceFault),
            Status::HostBreach { breach } => Ok(Status::HostBreach { breach: *breach }),
            Status::Memory => Ok(Status::Memory),
        }
    }

    /// The exit status of a program that ends so.
    pub fn code(&self) -> u8
        ensures { result ≡ code_of (verdict self.now) }
    {
        match self {
            Status::Done => 0,
            Status::Errors { .. } => 1,
            Status::BadWords { .. } => 2,
            Status::Memory => 3,
            Status::TreeFault => 4,
            Status::SinkFault => 5,
            Status::SourceFault => 6,
            Status::HostBreach { breach } => code_of_breach(24, *breach),
            Status::BadConfig { .. } => 13,
            Status::BadStub { .. } => 14,
            Status::BadSource { .. } => 15,
            Status::DuplicateType { .. } => 16,
            Status::UnknownProcessor { .. } => 17,
            Status::Refused(refusal) => code_of_run(refusal),
        }
    }
}

// The exit status of a program whose peer left the protocol, given that of one whose bytes end too early.
fn code_of_breach(ended: u8, breach: Breach) -> u8
    ensures { result ≡ number_of_breach ended breach }
{
    match breach {
        Breach::Ended { .. } => ended,
        Breach::Bad { .. } => 9,
        Breach::Wrong { .. } => 10,
    }
}

// The exit status of a program whose run came to this.
fn code_of_run(refusal: &Refusal) -> u8
    ensures { result ≡ code_of (stopped (stop_of refusal.now)) }
{
    match refusal {
        Refusal::Memory => 3,
        Refusal::ChildFault { .. } => 7,
        Refusal::Breach { breach, .. } => code_of_breach(8, *breach),
        Refusal::TooManyQuestions { .. } => 11,
        Refusal::ClaimBroken { .. } => 12,
        Refusal::BadGenerated { .. } => 18,
        Refusal::GeneratedDuplicate { .. } => 19,
        Refusal::TooManyRounds => 20,
        Refusal::TooLarge { .. } => 21,
    }
}
