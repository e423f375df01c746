// Places in a unit, and the way down to them.
ghost use Rattle.std.specs.Prelude.{◌≡◌, ◌≤◌, true, length, map, slice_get, option_map, IfSome};
ghost use Rattle.std.specs.List.{list_any};
ghost use Rattle.apt_base.specs.Limits.{max_children};
ghost use Rattle.decl_tree.specs.Legal.{constructs, is_legal};
ghost use Rattle.decl_tree.specs.declared.declaration.Member.{out-Member};
ghost use Rattle.decl_elements.specs.Nodes.{OfTypeParam, OfParam, Inside, has_default_constructor, added, added_methods, type_children, executable_children, member_children, children, down, root};
ghost use Rattle.decl_elements.specs.Shown.{element_of, shown_element, node_of, type_element, member_element};

use crate::Element;
use apt_base::List;
use decl_tree::{Body, Member, Param, TypeDecl, TypeKind, TypeParam, Unit};

/// What stands at a place of a unit, with what its children and its modifiers depend on.
#[derive(Clone, Copy)]
pub enum Place<'a> {
    /// A package, with its unit `package-info` where there is one.
    Package(Option<&'a Unit>),
    /// A type that stands in no other.
    Top(&'a TypeDecl),
    /// A member of a type of this kind, a member type included.
    Inside(TypeKind, &'a Member),
    TypeParameter(&'a TypeParam),
    /// A parameter of a method or a constructor.
    Parameter(&'a Param),
    /// The constructor of a type that writes none (JLS 8.8.9, 8.9.2). The kind is that of the type around this type, if it stands in one.
    DefaultConstructor(Option<TypeKind>, &'a TypeDecl),
    /// The method `values` of an enum (JLS 8.9.3).
    Values,
    /// The method `valueOf` of an enum (JLS 8.9.3).
    ValueOf,
    /// The parameter `name` of `valueOf`.
    ValueOfName,
}

fn writes_constructor(members: &[Member]) -> bool
    ensures { result ≡ list_any (λ m. constructs (out-Member m)) members.now }
{
    for member in members {
        if let Member::Constructor(_) = member {
            return true;
        }
    }
    false
}

/// Whether a type with these members has a constructor that no source has.
pub(crate) fn has_default_constructor(kind: TypeKind, members: &[Member]) -> bool
    ensures { result ≡ has_default_constructor kind members.now }
{
    match kind {
        TypeKind::Enum | TypeKind::Class => !writes_constructor(members),
        TypeKind::AnnotationType | TypeKind::Interface => false,
    }
}

fn added_method_at<'a>(kind: TypeKind, at: usize) -> Option<Place<'a>>
    ensures { option_map node_of result ≡ slice_get (added_methods kind) at }
{
    match kind {
        TypeKind::Enum if at == 0 => Some(Place::Values),
        TypeKind::Enum if at == 1 => Some(Place::ValueOf),
        _ => None,
    }
}

fn added_at<'a>(around: Option<TypeKind>, declaration: &'a TypeDecl, at: usize) -> Option<Place<'a>>
    ensures { option_map node_of result ≡ slice_get (added around declaration.now) at }
{
    if !has_default_constructor(declaration.kind, declaration.members.as_slice()) {
        return added_method_at(declaration.kind, at);
    }
    if at == 0 {
        return Some(Place::DefaultConstructor(around, declaration));
    }
    added_method_at(declaration.kind, at - 1)
}

fn type_param_at<'a>(parameters: &'a List<TypeParam>, at: usize) -> Option<Place<'a>>
    ensures { option_map node_of result ≡ slice_get (map OfTypeParam parameters.now) at }
{
    Some(Place::TypeParameter(parameters.get(at)?))
}

fn param_at<'a>(parameters: &'a List<Param>, at: usize) -> Option<Place<'a>>
    ensures { option_map node_of result ≡ slice_get (map OfParam parameters.now) at }
{
    Some(Place::Parameter(parameters.get(at)?))
}

fn member_at<'a>(kind: TypeKind, members: &'a List<Member>, at: usize) -> Option<Place<'a>>
    ensures { option_map node_of result ≡ slice_get (map (Inside kind) members.now) at }
{
    Some(Place::Inside(kind, members.get(at)?))
}

fn type_child<'a>(
    around: Option<TypeKind>,
    declaration: &'a TypeDecl,
    at: usize,
) -> Option<Place<'a>>
    ensures { option_map node_of result ≡ slice_get (type_children around declaration.now) at }
{
    let parameters = declaration.parameters.len();
    if at < parameters {
        return type_param_at(&declaration.parameters, at);
    }
    let behind = at - parameters;
    let members = declaration.members.len();
    if behind < members {
        return member_at(declaration.kind, &declaration.members, behind);
    }
    added_at(around, declaration, behind - members)
}

fn executable_child<'a>(
    parameters: &'a List<TypeParam>,
    arguments: &'a List<Param>,
    at: usize,
) -> Option<Place<'a>>
    ensures { option_map node_of result ≡ slice_get (executable_children parameters.now arguments.now) at }
{
    let before = parameters.len();
    if at < before {
        return type_param_at(parameters, at);
    }
    param_at(arguments, at - before)
}

fn member_child<'a>(kind: TypeKind, member: &'a Member, at: usize) -> Option<Place<'a>>
    ensures { option_map node_of result ≡ slice_get (member_children kind (out-Member member.now)) at }
{
    match member {
        Member::Field(_) | Member::Constant(_) => None,
        Member::Method(method) => executable_child(&method.parameters, &method.arguments, at),
        Member::Constructor(constructor) => {
            executable_child(&constructor.parameters, &constructor.arguments, at)
        }
        Member::Nested(declaration) => type_child(Some(kind), declaration, at),
    }
}

fn type_element<'a>(declaration: &'a TypeDecl) -> Element<'a>
    ensures { shown_element result ≡ type_element declaration.now.kind declaration.now }
{
    match declaration.kind {
        TypeKind::Enum => Element::Enum(declaration),
        TypeKind::Class => Element::Class(declaration),
        TypeKind::AnnotationType => Element::AnnotationType(declaration),
        TypeKind::Interface => Element::Interface(declaration),
    }
}

fn member_element<'a>(member: &'a Member) -> Element<'a>
    ensures { shown_element result ≡ member_element member.now (out-Member member.now) }
{
    match member {
        Member::Field(_) => Element::Field(Some(member)),
        Member::Method(_) => Element::Method(Some(member)),
        Member::Constructor(_) => Element::Constructor(Some(member)),
        Member::Constant(_) => Element::EnumConstant(member),
        Member::Nested(declaration) => type_element(declaration),
    }
}

impl<'a> Place<'a> {
    /// What stands at the empty path of a unit: its type, or its package. It takes no memory.
    #[tactic(auto, unfolding(crate::specs::Nodes::root))]
    pub fn root(unit: &'a Unit) -> Place<'a>
        ensures value { node_of result ≡ root unit.now }
        ensures legal { is_legal unit.now ≡ true }
    {
        match &unit.text().body {
            Body::Declared(declaration) => Place::Top(declaration),
            Body::Info(_, _) => Place::Package(Some(unit)),
        }
    }

    /// The child with that number, counted from 0, or `None` past the last. It takes no memory.
    #[tactic(auto, unfolding(crate::specs::Nodes::children))]
    pub fn child(self, at: u16) -> Option<Place<'a>>
        ensures { option_map node_of result ≡ slice_get (children (node_of self.entry)) at }
    {
        let at = usize::from(at);
        match self {
            Place::Top(declaration) => type_child(None, declaration, at),
            Place::Inside(kind, member) => member_child(kind, member, at),
            Place::ValueOf if at == 0 => Some(Place::ValueOfName),
            _ => None,
        }
    }

    /// The element that stands here. It takes no memory.
    #[tactic(auto, unfolding(crate::specs::Shown::element_of))]
    pub fn element(self) -> Element<'a>
        ensures { shown_element result ≡ element_of (node_of self.entry) }
    {
        match self {
            Place::Package(info) => Element::Package(info),
            Place::Top(declaration) => type_element(declaration),
            Place::Inside(_, member) => member_element(member),
            Place::TypeParameter(parameter) => Element::TypeParameter(parameter),
            Place::Parameter(parameter) => Element::Parameter(Some(parameter)),
            Place::DefaultConstructor(_, _) => Element::Constructor(None),
            Place::Values | Place::ValueOf => Element::Method(None),
            Place::ValueOfName => Element::Parameter(None),
        }
    }
}

/// What stands at the end of a path in a unit, each number of the path a position in a child list, or `None` where nothing does. It has at most 65,535 children. It takes no memory.
pub fn place_at<'a>(unit: &'a Unit, path: &[u16]) -> Option<Place<'a>>
    ensures value { option_map node_of result ≡ down path.now (root unit.now) }
    ensures few { IfSome result (λ place. length (children (node_of place)) ≤ max_children) }
{
    let mut place = Place::root(unit);
    for at in path {
        place = place.child(*at)?;
    }
    Some(place)
}
