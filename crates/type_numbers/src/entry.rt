// A type as it is held: its node, and how large it is as a tree.
use crate::node::Node;

/// How large a type is as a tree.
#[derive(Clone, Copy)]
pub(crate) struct Sizes {
    /// How many layers it has, each counted where it stands; at most 4,294,967,295.
    pub layers: u32,
    /// How deep they are nested.
    pub depth: u32,
}

/// The outermost layer of a type, and how large the type is.
#[derive(Drop)]
pub(crate) struct Entry {
    pub node: Node,
    pub sizes: Sizes,
}
