// What an element goes by as a member of a type.
ghost use Rattle.std.specs.Prelude.{◌≡◌};
ghost use Rattle.decl_tree.specs.declared.declaration.Member.{out-Member};
ghost use Rattle.decl_elements.specs.Shown.{node_of};
ghost use Rattle.type_elements.specs.MemberElements as elements;
ghost use Rattle.type_elements.specs.ShownNames.{shown_name};

use apt_base::ElementRef;
use decl_elements::Place;
use decl_tree::Member;
use element_table::Table;
use type_relations::place_of;

/// What an element goes by as a member of a type. A field, a member type and a method may have one name, and are told apart (JLS 6.5).
#[derive(Clone, Copy)]
pub enum MemberName<'a> {
    /// A field, or an enum constant (JLS 8.9.3).
    Field(&'a str),
    /// A member type.
    Nested(&'a str),
    /// A method, also `values` and `valueOf` of an enum (JLS 8.9.3).
    Method(&'a str),
    /// A constructor, also the default one (JLS 8.8.9).
    Constructor,
    /// What is no member of a type: a top-level type, a package, a type parameter or a parameter, and where nothing stands.
    Nothing,
}

fn written_name<'a>(member: &'a Member) -> MemberName<'a>
    ensures { shown_name result ≡ elements.written_name (out-Member member.now) }
{
    match member {
        Member::Field(field) => MemberName::Field(field.name.as_str()),
        Member::Method(method) => MemberName::Method(method.name.as_str()),
        Member::Constructor(_) => MemberName::Constructor,
        Member::Constant(constant) => MemberName::Field(constant.name.as_str()),
        Member::Nested(declaration) => MemberName::Nested(declaration.name.as_str()),
    }
}

fn node_name<'a>(place: Place<'a>) -> MemberName<'a>
    ensures { shown_name result ≡ elements.node_name (node_of place.entry) }
{
    match place {
        Place::Package(_) => MemberName::Nothing,
        Place::Top(_) => MemberName::Nothing,
        Place::Inside(_, member) => written_name(member),
        Place::TypeParameter(_) => MemberName::Nothing,
        Place::Parameter(_) => MemberName::Nothing,
        Place::DefaultConstructor(_, _) => MemberName::Constructor,
        Place::Values => MemberName::Method("values"),
        Place::ValueOf => MemberName::Method("valueOf"),
        Place::ValueOfName => MemberName::Nothing,
    }
}

/// What an element goes by as a member of a type.
#[tactic(auto, unfolding(crate::specs::MemberElements::member_name))]
pub fn member_name<'a>(table: &'a Table, at: &ElementRef) -> MemberName<'a>
    ensures { shown_name result ≡ elements.member_name table.now at.now }
{
    match place_of(table, at) {
        None => MemberName::Nothing,
        Some(place) => node_name(place),
    }
}

fn is_method_name(name: MemberName<'_>) -> bool
    ensures { result ≡ elements.is_method_name (shown_name name.entry) }
{
    match name {
        MemberName::Field(_) => false,
        MemberName::Nested(_) => false,
        MemberName::Method(_) => true,
        MemberName::Constructor => false,
        MemberName::Nothing => false,
    }
}

/// Whether it is a method, also one that no source has.
pub fn is_method(table: &Table, at: &ElementRef) -> bool
    ensures { result ≡ elements.is_method table.now at.now }
{
    is_method_name(member_name(table, at))
}

fn is_constructor_name(name: MemberName<'_>) -> bool
    ensures { result ≡ elements.is_constructor_name (shown_name name.entry) }
{
    match name {
        MemberName::Field(_) => false,
        MemberName::Nested(_) => false,
        MemberName::Method(_) => false,
        MemberName::Constructor => true,
        MemberName::Nothing => false,
    }
}

/// Whether it is a constructor, also the default one.
pub fn is_constructor(table: &Table, at: &ElementRef) -> bool
    ensures { result ≡ elements.is_constructor table.now at.now }
{
    is_constructor_name(member_name(table, at))
}

fn same_method_name(one: MemberName<'_>, other: MemberName<'_>) -> bool
    ensures { result ≡ elements.same_method_name (shown_name one.entry) (shown_name other.entry) }
{
    match one {
        MemberName::Method(name) => match other {
            MemberName::Method(beside) => name == beside,
            _ => false,
        },
        _ => false,
    }
}

/// Whether they are two different methods of one name.
pub fn are_namesakes(table: &Table, one: &ElementRef, other: &ElementRef) -> bool
    ensures { result ≡ elements.are_namesakes table.now one.now other.now }
{
    !one.is_equal(other) && same_method_name(member_name(table, one), member_name(table, other))
}
