//! A project as a build reads it: its configuration, its sources and its stubs; and how a call over it ends.
//!
//! `specs/Configuration` says what the three files of the configuration mean together with the options of the words. `specs/Project`
//! says which plan the run of a project gets and which types the project has, or the first refusal in the order of the steps.
//! `specs/Verdicts` has each end of a call, `specs/Endings` what a part of a build ends in, and `specs/Entering` what came of a part
//! of the reading.
#![tactic(auto)]

mod configuration;
mod laws;
mod project;
mod sources;
mod status;

pub use laws::least_path_is_refused;
pub use project::read_project;
pub use status::{Place, Status};
