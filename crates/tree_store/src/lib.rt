//! The files of a project in its tree: the configuration and the sources that a build reads, the store of what was made, and the record that publishes it.
#![tactic(auto)]

mod config;
mod fault;
mod laws;
mod record;
mod sources;
mod store;

pub use config::{ConfigFile, RawLists, read_config, read_lists};
pub use fault::{ConfigReadFault, SourceReadFault, StoreFault};
pub use laws::files_ascend;
pub use record::{StoredFile, encode_record};
pub use sources::{RawSource, RawSources, read_sources};
pub use store::{commit, put_files, taken_numbers};
