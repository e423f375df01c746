// The lengths of child lists.
ghost use Rattle.std.specs.Prelude.{◌≡◌, ◌+◌, ◌≤◌, length};
ghost use Rattle.apt_base.specs.Limits.{max_children};
ghost use Rattle.decl_tree.specs.Legal as legal;
ghost use Rattle.decl_tree.specs.declared.declaration.Member.{out-Member};
ghost use Rattle.decl_elements.specs.Nodes.{children, member_children};
ghost use Rattle.decl_elements.specs.Shown.{node_of};

use crate::Place;
use crate::place::has_default_constructor;
use decl_tree::{Member, TypeDecl, TypeKind};

fn default_constructors(declaration: &TypeDecl) -> usize
    ensures { result ≡ legal.default_constructors declaration.now.kind declaration.now.members }
{
    if has_default_constructor(declaration.kind, declaration.members.as_slice()) {
        1
    } else {
        0
    }
}

fn added_methods(kind: TypeKind) -> usize
    ensures { result ≡ legal.enum_methods kind }
{
    match kind {
        TypeKind::Enum => 2,
        TypeKind::Class | TypeKind::AnnotationType | TypeKind::Interface => 0,
    }
}

fn of_type(declaration: &TypeDecl) -> usize
    requires { legal.children declaration.now ≤ max_children }
    ensures { result ≡ legal.children declaration.now }
{
    let written = declaration.parameters.len() + declaration.members.len();
    let constructors = default_constructors(declaration);
    written + constructors + added_methods(declaration.kind)
}

fn of_member(kind: TypeKind, member: &Member) -> usize
    requires { length (member_children kind (out-Member member.now)) ≤ max_children }
    ensures { result ≡ length (member_children kind (out-Member member.now)) }
{
    match member {
        Member::Field(_) | Member::Constant(_) => 0,
        Member::Method(method) => method.parameters.len() + method.arguments.len(),
        Member::Constructor(constructor) => {
            constructor.parameters.len() + constructor.arguments.len()
        }
        Member::Nested(declaration) => of_type(declaration),
    }
}

impl<'a> Place<'a> {
    /// The number of children, which are at most 65,535, as a condition: those of a place that `place_at` gives are. It takes no memory.
    #[tactic(auto, unfolding(crate::specs::Nodes::children))]
    pub fn children(self) -> u16
        requires { length (children (node_of self)) ≤ max_children }
        ensures { result ≡ length (children (node_of self.entry)) }
    {
        let count = match self {
            Place::Top(declaration) => of_type(declaration),
            Place::Inside(kind, member) => of_member(kind, member),
            Place::ValueOf => 1,
            _ => 0,
        };
        count as u16
    }
}
