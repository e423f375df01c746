//! Readers of modifiers, of the headings of types, and of what stands behind the name of a member (JLS 8.3, 8.4, 8.8).
//!
//! The contract of each function names its form (`Gives` of `decl_grammar`). The function returns the value and the
//! symbols after it; or the symbols from the first fault on; or those from the first symbol on at which the nesting is
//! too deep; or it is out of memory. `room` is how many nested types, lists of type arguments and values may still be
//! opened.
//!
//! The bodies of methods are passed over. Types and initialisers are read by `decl_values`.
#![tactic(auto)]

mod headings;
mod modifiers;
mod params;
mod signatures;
mod starting;

pub use headings::{classes_of, optional_params_of, package_of, type_param_of, type_params_of};
pub use modifiers::{
    none, optional_modifiers_of, param_modifiers_of, plain_modifiers_of, starts_modifier,
    starts_plain_modifier, static_word_of, type_modifiers_of,
};
pub use params::{first_param_of, first_step_of, next_param_of, param_step_of, starts_params};
pub use signatures::{constructor_signature_of, member_rest_of, method_signature_of};
pub use starting::{starts_member, starts_type_word, starts_unmodified};
