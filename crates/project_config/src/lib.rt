//! The configuration of a project: the file `apt.json` with the options of the words over its own, and the processors that it comes to with the file of services and the file of kinds.
//!
//! `specs/Items` says what each item of `apt.json` is, and `specs/Reading` in which order they are read and which place is told of the first that is off its form, over the value that `serde_json` reads. `specs/Discovery` says which processors there are and which fault comes first, and `specs/Options` which options hold. `specs/Answers` has the meaning of a result.
//!
//! Reading is linear in the bytes of the files. Of each processor, of which there are at most 64, the row and the kind are found by going through those of the files.
//!
//! Not promised: that memory is there.
#![tactic(auto)]

mod config;
mod discovery;
mod fault;
mod items;
mod lookup;
mod options;
mod processor;
mod reading;
mod rows;
mod settings;
mod texts;

pub use config::{Config, ProcessorRow};
pub use discovery::discover;
pub use fault::ConfigFault;
pub use options::{option_in, override_options};
pub use processor::Processor;
pub use reading::{has_order, parse_config};
pub use settings::{Settings, read_settings};
