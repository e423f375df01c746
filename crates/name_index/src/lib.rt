//! An index of sets of names by a name.
//!
//! `specs/Index` has it, over the sets of names of `apt_base`. Contracts see it as a finite map in the order of the bytes of names. `proofs/TextMaps` ties maps in memory whose keys are texts to such maps, for other crates too.
//!
//! Looking a name up, adding one and taking one away take logarithmic time.
//!
//! Not promised: that memory is there.
#![tactic(auto)]

mod index;

pub use index::NameIndex;
