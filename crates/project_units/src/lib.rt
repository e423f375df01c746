//! A project with the units of its type table, and what enters the table while processors run over it.
//!
//! `specs/Plans` says what a run over a project gets, and the first frame to each processor. `specs/Units` says
//! how units, and those of created sources, enter the type table. `specs/Creations` has the files, and the
//! sources among them, that were created. `specs/Refusals` has each refusal of a build once, and `specs/Limits`
//! the limits that a refusal names.
//!
//! Not promised: that memory is there, and nothing of time.
#![tactic(auto)]

mod entering;
mod files;
mod frames;
mod limits;
mod project;
mod refusal;
mod sources;
mod unit_fault;
mod units;

pub use entering::{enter_all, enter_units};
pub use files::Files;
pub use frames::{init_bytes, inits_fit};
pub use limits::limit_of;
pub use project::Project;
pub use refusal::Refusal;
pub use sources::{creates_source, files_among, unread_among};
pub use unit_fault::UnitFault;
pub use units::unit_names;
