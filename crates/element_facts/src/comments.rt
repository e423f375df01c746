// Doc comments. None of these calls takes memory.
ghost use Rattle.std.specs.Prelude.{◌≡◌};
ghost use Rattle.std.specs.Option.{option_copied};
ghost use Rattle.decl_tree.specs.declared.declaration.Member.{out-Member};
ghost use Rattle.decl_elements.specs.Shown.{node_of};
ghost use Rattle.element_facts.specs.ElementFacts as facts;

use apt_base::{ElementRef, Name};
use decl_elements::Place;
use decl_tree::{Body, Member};
use element_table::Table;
use type_relations::place_of;

fn member_doc(member: &Member) -> Option<&Name>
    ensures { option_copied result ≡ facts.member_doc (out-Member member.now) }
{
    match member {
        Member::Field(field) => field.doc.as_ref(),
        Member::Method(method) => method.doc.as_ref(),
        Member::Constructor(constructor) => constructor.doc.as_ref(),
        Member::Constant(constant) => constant.doc.as_ref(),
        Member::Nested(declaration) => declaration.doc.as_ref(),
    }
}

fn body_doc(body: &Body) -> Option<&Name>
    ensures { option_copied result ≡ facts.body_doc body.now }
{
    match body {
        Body::Declared(_) => None,
        Body::Info(_, doc) => doc.as_ref(),
    }
}

fn doc<'a>(place: Place<'a>) -> Option<&'a Name>
    ensures { option_copied result ≡ facts.doc (node_of place.entry) }
{
    match place {
        Place::Package(Some(unit)) => body_doc(&unit.text().body),
        Place::Top(declaration) => declaration.doc.as_ref(),
        Place::Inside(_, member) => member_doc(member),
        _ => None,
    }
}

/// The text of the doc comment of the element, as the declaration has it, with the blanks behind `/**` and
/// without the markers of its lines. `None` where it has none, as parameters, type parameters and what the
/// language adds, and where nothing stands there. It takes no memory.
#[tactic(auto, unfolding(crate::specs::ElementFacts::doc_at))]
pub fn doc_comment<'a>(table: &'a Table, at: &ElementRef) -> Option<&'a Name>
    ensures { option_copied result ≡ facts.doc_at table.now at.now }
{
    doc(place_of(table, at)?)
}
