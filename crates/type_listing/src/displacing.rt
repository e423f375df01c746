// Which members are inherited, and which a member hides or overrides.
ghost use Rattle.std.specs.Prelude.{◌≡◌, IfOk};
ghost use Rattle.type_elements.specs.ShownNames.{shown_name};
ghost use Rattle.type_listing.specs.Displacing.{displaces_in, hides_by_name_in, hides_method_in};
ghost use Rattle.type_listing.specs.Members as members;

use apt_base::{ElementRef, NoMemory};
use call_effort::Effort;
use element_table::Table;
use type_elements::{
    MemberName, are_namesakes, is_constructor, is_private, is_static, member_name, package_allows,
};
use type_levels::Answer;
use type_overriding::Methods;

/// Whether a type inherits an element from a supertype that has it as a member, unless another member displaces it. It takes no memory.
pub(crate) fn is_inherited(table: &Table, by: &ElementRef, at: &ElementRef) -> bool
    ensures { result ≡ members.is_inherited table.now by.now at.now }
{
    !is_constructor(table, at) && !is_private(table, at) && package_allows(table, by, at)
}

// Two fields, or two types, of one name.
fn hides_by_name(one: MemberName<'_>, other: MemberName<'_>) -> bool
    ensures { result ≡ members.hides_by_name (shown_name one.entry) (shown_name other.entry) }
{
    match one {
        MemberName::Field(name) => match other {
            MemberName::Field(beside) => name == beside,
            _ => false,
        },
        MemberName::Nested(name) => match other {
            MemberName::Nested(beside) => name == beside,
            _ => false,
        },
        _ => false,
    }
}

// The same of two members.
fn has_same_name(table: &Table, one: &ElementRef, other: &ElementRef) -> bool
    ensures { result ≡ hides_by_name_in table.now one.now other.now }
{
    hides_by_name(member_name(table, one), member_name(table, other))
}

// A static method hides those of which it has a subsignature in a type.
#[tactic(auto, using(crate::proofs::DisplacingMethods::displacing))]
fn hides_method(
    table: &Table,
    methods: &mut Methods<'_, '_>,
    one: &ElementRef,
    other: &ElementRef,
    effort: &mut Effort,
) -> Result<Answer, NoMemory>
    requires { methods.old.table ≡ table.now }
    ensures answer { IfOk result (λ r. r ≡ hides_method_in table.now methods.old one.now other.now) }
    ensures kept { methods.new ≡ methods.old }
{
    if !is_static(table, one) || !are_namesakes(table, one, other) {
        return Ok(Answer::No);
    }
    let answer = methods.has_subsignature(one, other, effort)?;
    Ok(answer)
}

/// Whether the first member hides or overrides the second one in the type of these methods.
#[tactic(auto, using(crate::proofs::DisplacingMethods::displacing))]
pub(crate) fn displaces(
    table: &Table,
    methods: &mut Methods<'_, '_>,
    one: &ElementRef,
    other: &ElementRef,
    effort: &mut Effort,
) -> Result<Answer, NoMemory>
    requires { methods.old.table ≡ table.now }
    ensures answer { IfOk result (λ r. r ≡ displaces_in table.now methods.old one.now other.now) }
    ensures kept { methods.new ≡ methods.old }
{
    if has_same_name(table, one, other) {
        return Ok(Answer::Yes);
    }
    let hidden = hides_method(table, methods, one, other, effort)?;
    let overridden = methods.overrides(one, other, effort)?;
    Ok(hidden.or(overridden))
}
