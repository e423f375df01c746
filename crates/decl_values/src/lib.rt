//! Readers of types (JLS 4), annotations with their values (JLS 9.7) and initialisers of fields (JLS 8.3). Those of names, imports (JLS 7.5) and doc comments stand below, and
//! are handed on.
//!
//! The contract of each function names its form (`Gives` of `decl_grammar`). The function returns the value and the symbols after it; or the symbols from the
//! first fault on; or those from the first symbol on at which the nesting is too deep; or it is out of memory. `room` is how many lists of type arguments and
//! values may still be opened. Values hold types and types hold annotations with values, so their readers are one cycle.
//!
//! Annotations on the use of a type are read and passed over (JLS 9.7.4). An annotation's value that is no constant form is kept as the texts of its
//! tokens, and an initialiser that is none is passed over. In an expression a `<` after a name is first read as the beginning of type arguments that end
//! at a `::`. Where that fails, it is read as the operator; where both fail, the later of the two faults counts. The first reading holds only types. So
//! each symbol is read once for each list of type arguments that may be open around it, at most 200 times.
#![tactic(auto)]

mod annotations;
mod around;
mod constant_forms;
mod creations;
mod fields;
mod pieces;
mod reached;
mod rows;
mod type_arguments;
mod types;
mod values;

pub use annotations::{annotation_of, annotations_of};
pub use decl_constants::primitive_type_of;
pub use decl_names::{
    begin, doc_before, imports_of, is_at, is_name_sort, is_next, is_primitive, one, read_chain,
    read_name, read_name_at, read_over, shut, starts_annotation, starts_name, starts_primitive,
};
pub use fields::fields_of;
pub use pieces::piece_of;
pub use type_arguments::{optional_arguments_of, type_arguments_of};
pub use types::{
    annotated_class_of, base_type_of, dim_of, dims_of, modifier_annotation_of, more_dims_of,
    more_parts_of, starts_dim,
};
pub use values::default_of;
