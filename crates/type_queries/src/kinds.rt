// Which kinds of types a question wants.
ghost use Rattle.std.specs.Prelude.{◌≡◌};
ghost use Rattle.type_layers.specs.Layers.{layer};
ghost use Rattle.type_numbers.specs.Nodes.{layer_of};
ghost use Rattle.type_numbers.specs.Numbers.{IsKnown, at};
ghost use Rattle.type_queries.specs.Questions as questions;

use type_mirror::{Around, BaseMirror, Mirror};
use type_numbers::{Node, Types};

/// Whether it is the types of a method or a constructor. It takes no memory.
#[tactic(auto, unfolding(type_layers::specs::Layers::layer))]
pub fn is_executable(of: &Mirror) -> bool
    ensures { result ≡ questions.is_executable (layer of.now) }
{
    match of.around.as_slice() {
        [Around::Array, ..] => false,
        [Around::Extends, ..] => false,
        [Around::Super, ..] => false,
        [] => matches!(&of.base, BaseMirror::Executable(_)),
    }
}

/// Whether it stands for a package. It takes no memory.
#[tactic(auto, unfolding(type_layers::specs::Layers::layer))]
pub fn is_package(of: &Mirror) -> bool
    ensures { result ≡ questions.is_package (layer of.now) }
{
    match of.around.as_slice() {
        [Around::Array, ..] => false,
        [Around::Extends, ..] => false,
        [Around::Super, ..] => false,
        [] => matches!(&of.base, BaseMirror::Package(_)),
    }
}

/// Whether it is neither the types of a method or a constructor nor a package. It takes no memory.
pub fn is_type(of: &Mirror) -> bool
    ensures { result ≡ questions.is_type of.now }
{
    !is_executable(of) && !is_package(of)
}

// The same by a node.
fn is_type_node(node: &Node) -> bool
    ensures { result ≡ questions.is_type_layer (layer_of node.now) }
{
    !matches!(node, Node::Executable(_, _, _, _) | Node::Package(_))
}

/// Whether the type with this number is neither of these. It takes no memory.
#[tactic(auto, using(crate::proofs::NodeKinds::kinds))]
pub(crate) fn is_type_at(types: &Types, number: usize) -> bool
    requires { IsKnown types.now number }
    ensures { result ≡ questions.is_type (at types.now number) }
{
    is_type_node(types.node(number))
}
