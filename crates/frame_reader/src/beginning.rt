// What has to follow the first byte of a node.
ghost use Rattle.std.specs.Prelude.{◌≡◌, Option, None, Some, option_map, slice_get, map, List};
ghost use Rattle.frame_forms.specs.QuestionTable.{question_at};
ghost use Rattle.frame_reader.specs.Steps.{argument_nodes, tagged_choice, mirror_choices, value_choices, bound_choices, item_left, node_left, passes_if, part_left, maybe_left, gathers, chooses, IsLeft, IsChosen, AreChosen};
ghost use Rattle.frame_forms.specs.Forms.{bool_at};
ghost use Rattle.frame_reader.specs.Nodes.{chosen_by};
ghost use Rattle.frame_reader.specs.declared.task.Then.TheVariants as thens;
ghost use Rattle.frame_reader.specs.declared.node.Node.{Node};

use crate::node::{BOUNDS, Item, MIRRORS, Node, TAGS, VALUES};
use crate::task::{Begun, TextRule, Then};
use frame_forms::QuestionRow;

/// How many bytes of a length, a count or another number of four bytes come behind the second one.
pub(crate) const BEHIND_SECOND_OF_FOUR: u32 = 2;

/// How many bytes of a number of eight bytes come behind the second one.
const BEHIND_SECOND_OF_EIGHT: u32 = 6;

// The byte is the first one of some that belong together.
fn gathers(more: u32, then: Then, behind: Option<Node>) -> Option<Begun>
    ensures { IsLeft result (gathers more then behind) }
{
    Some(Begun {
        gather: Some((more, then)),
        inner: &[],
        room: 0,
        behind,
    })
}

// The byte has chosen fields, where it is the number of any.
fn chooses(room: u16, behind: Option<Node>, fields: Option<&'static [Node]>) -> Option<Begun>
    ensures { IsChosen fields.entry (chooses room behind) result }
{
    let inner = fields?;
    Some(Begun {
        gather: None,
        inner,
        room,
        behind,
    })
}

// The byte stands for itself.
fn passes_if(passed: bool) -> Option<Begun>
    ensures { IsLeft result (passes_if passed) }
{
    if passed {
        Some(Begun {
            gather: None,
            inner: &[],
            room: 0,
            behind: None,
        })
    } else {
        None
    }
}

// The fields of the first row with this number.
#[tactic(auto, unfolding(crate::specs::Nodes::chosen_by))]
fn fields_with(rows: &[(u8, &'static [Node])], number: u8) -> Option<&'static [Node]>
    ensures { AreChosen result (chosen_by (map (λ row. (row.0, row.1.now)) rows.now) number) }
{
    for row in rows {
        if row.0 == number {
            return Some(row.1);
        }
    }
    None
}

// The fields of the row at this number.
fn fields_at(rows: &[&'static [Node]], byte: u8) -> Option<&'static [Node]>
    ensures { AreChosen result (slice_get (map (λ fields. fields.now) rows.now) byte) }
{
    rows.get(byte as usize).copied()
}

// The arguments of a question, by its row.
fn arguments_of(row: QuestionRow) -> &'static [Node]
    ensures { result.now ≡ argument_nodes row }
{
    match row {
        QuestionRow::Name(_) => &[Node::One(Item::Text)],
        QuestionRow::Element(_) => &[Node::One(Item::Element)],
        QuestionRow::Mirror(_) => &[Node::One(Item::Mirror)],
        QuestionRow::Mirrors(_) => &[Node::One(Item::Mirror), Node::One(Item::Mirror)],
        QuestionRow::ValuesWithDefaults => &[Node::One(Item::Element), Node::One(Item::Number)],
        QuestionRow::Overrides => &[
            Node::One(Item::Element),
            Node::One(Item::Element),
            Node::One(Item::Element),
        ],
        QuestionRow::MemberType => &[Node::One(Item::Mirror), Node::One(Item::Element)],
        QuestionRow::DeclaredType => &[Node::One(Item::Element), Node::Many(Item::Mirror)],
        QuestionRow::Roots => &[],
    }
}

// The arguments of the question with this tag.
fn question_fields(tag: u8) -> Option<&'static [Node]>
    ensures { AreChosen result (option_map argument_nodes (question_at tag)) }
{
    match QuestionRow::at(tag) {
        None => None,
        Some(row) => Some(arguments_of(row)),
    }
}

// The fields of a tag.
fn tagged_fields(tag: u8) -> Option<&'static [Node]>
    ensures { AreChosen result (tagged_choice tag) }
{
    match fields_with(&TAGS, tag) {
        Some(fields) => Some(fields),
        None => question_fields(tag),
    }
}

// The byte is the first one of a length.
fn begins_length(rule: TextRule, behind: Option<Node>) -> Option<Begun>
    ensures { IsLeft result (gathers 2 (thens.Length rule) behind) }
{
    gathers(BEHIND_SECOND_OF_FOUR, Then::Length(rule), behind)
}

// A mirror or a value begins, where there is room for one.
fn part_begun(room: u16, behind: Option<Node>, rows: &[&'static [Node]], byte: u8) -> Option<Begun>
    ensures { IsLeft result (part_left room behind (map (λ fields. fields.now) rows.now) byte) }
{
    let inner = room.checked_sub(1)?;
    chooses(inner, behind, fields_at(rows, byte))
}

fn item_begun(item: Item, room: u16, byte: u8) -> Option<Begun>
    ensures { IsLeft result (item_left room item byte) }
{
    match item {
        Item::Text => begins_length(TextRule::Plain, None),
        Item::Number => gathers(0, Then::Skip, None),
        Item::Element => begins_length(TextRule::Plain, Some(Node::Many(Item::Number))),
        Item::Mirror => part_begun(room, None, &MIRRORS, byte),
        Item::Value => part_begun(room, None, &VALUES, byte),
        Item::NamedValue | Item::TextAndValue => {
            begins_length(TextRule::Plain, Some(Node::One(Item::Value)))
        }
        Item::Annotation => part_begun(room, Some(Node::Many(Item::NamedValue)), &MIRRORS, byte),
    }
}

fn maybe_begun(item: Item, byte: u8) -> Option<Begun>
    ensures { IsLeft result (maybe_left item (bool_at byte)) }
{
    match byte {
        0 => passes_if(true),
        1 => Some(Begun {
            gather: None,
            inner: &[],
            room: 0,
            behind: Some(Node::One(item)),
        }),
        _ => None,
    }
}

/// What has to follow this first byte of a node, where at most `room` mirrors and values may still be nested. `None` where the byte is bad.
#[tactic(auto, unfolding(crate::specs::Steps::node_left))]
pub(crate) fn node_begun(node: Node, room: u16, byte: u8) -> Option<Begun>
    ensures { IsLeft result (node_left room node byte) }
{
    match node {
        Node::Below(bound) => passes_if(byte < bound),
        Node::Exactly(only) => passes_if(byte == only),
        Node::Truth => passes_if(byte < 2),
        Node::Claim => passes_if(byte < 3),
        Node::PrimitiveKind => passes_if(byte < 8),
        Node::WholeKind => passes_if(byte == 3 || byte == 4),
        Node::Four => gathers(BEHIND_SECOND_OF_FOUR, Then::Skip, None),
        Node::Eight => gathers(BEHIND_SECOND_OF_EIGHT, Then::Skip, None),
        Node::Octets => begins_length(TextRule::Octets, None),
        Node::One(item) => item_begun(item, room, byte),
        Node::Maybe(item) => maybe_begun(item, byte),
        Node::Many(item) => gathers(BEHIND_SECOND_OF_FOUR, Then::Count(item, room), None),
        Node::Texts(rule) => gathers(BEHIND_SECOND_OF_FOUR, Then::ListCount(rule), None),
        Node::Bound => chooses(room, None, fields_at(&BOUNDS, byte)),
        Node::Tagged => chooses(room, None, tagged_fields(byte)),
    }
}
