//! The types of one call by numbers, each different type once: a type that doubles at each step costs one number a step, and equal types are equal numbers. Type variables are replaced by types with numbers, which looks at each different type once.
//!
//! `Types` is seen as the list of its types in the order of their numbers. `specs/Numbers` says what a number stands for and that the list only gets longer, `specs/Nodes` which layer a node shows, `specs/Keys` by which key a type is found, and `specs/Held` how the list is held. `specs/Remembered` says that what is remembered at numbers is right. `specs/Replaced` says what comes of a number and of a node where variables are replaced, over the definition of `type_mirror`. `proofs/NumberLaws` has for the crates above that what a number stands for stays when types are added, `proofs/KeyLaws` that no two elements have one key, `proofs/RememberedValues` what stays right of what is remembered, and `proofs/ReplacedLayers` that variables are replaced layer by layer.
//!
//! Not promised: that an element that a type names is there. Beyond 1,048,576 types, layers that are nested 4,096 deep, and 16,777,216 layers in a type that is given back, a call ends when memory runs out.
#![tactic(auto)]

mod adding;
mod building;
mod entry;
mod key;
mod node;
mod substitution;
mod types;

pub use key::element_key;
pub use node::Node;
pub use substitution::substitute;
pub use types::Types;
