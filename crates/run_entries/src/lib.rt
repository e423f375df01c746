//! What a run of processors remembers of itself: the entries and the notes of its record.
//!
//! `Processed` is what one processor did in one round. `specs/Entries` says which entries come of it: of an isolating
//! processor one for each root to which something was offered, with what comes of that root alone, and one more
//! without an origin exactly where something is left; of any other processor one for the round. `specs/Notes` says
//! which notes stand against keeping what a processor did, and `specs/Kinds` which kind a processor has once it named
//! its options.
//!
//! Files and messages go to their entries by a look-up of their origin, so that entries take time in proportion to
//! what was given, but for the look-ups and for the order of the files by their paths.
//!
//! Not promised: that memory is there, or that names and roots ascend: what is given in order comes out in order.
#![tactic(auto)]

mod annotated;
mod kinds;
mod laws;
mod parts;
mod places;
mod processed;
mod recorded_entries;
mod recorded_notes;
mod stores;

pub use annotated::annotated_roots;
pub use kinds::{AGGREGATING_OPTION, ISOLATING_OPTION, settled_kind};
pub use laws::entries_stand;
pub use processed::{GeneratedFile, Processed, copy_messages};
pub use recorded_entries::entries;
pub use recorded_notes::notes;
pub use stores::StoreNumbers;
