// Reads the fields of a frame byte by byte.
ghost use Rattle.std.specs.Prelude.{◌≡◌, ◌-◌, ◌<◌, ◌≤◌, ◌++◌, ◌∷◌, [], List, ℕ, None, Some, true, false, length, IfOk, OnOk, OnErr, IfErr, IfSome, IfNone, slice_get, option_to_list};
ghost use Rattle.std.specs.Int.{w32, from_be_bytes};
ghost use Rattle.std.specs.FinMap as fin;
ghost use Rattle.apt_base.specs.Fields.{is_text};
ghost use Rattle.frame_reader.specs.Rests.{Reading, plain_fault, texts_left, behind_text};
ghost use Rattle.frame_reader.specs.Steps.{first_kind, items_task, head_node, head_room, left_behind, behind_task, gather_at};
ghost use Rattle.frame_reader.specs.Stands.{Begins, IsGathering, kept_fault, is_above};
ghost use Rattle.frame_reader.specs.Follows.{Means, Follows, Finishes, EndsText, EndsPlain, EndsLength, BeginsTask, Starts, text_rule, list_behind_begin, KeepsText, GoesBehind, IsAtTag, TellsEnd, fault_in, EndsAsPlain, with_items, with_texts, with_text, ahead_of, skipped};
ghost use Rattle.frame_reader.specs.declared.task.Then.TheVariants as thens;

use crate::beginning::{BEHIND_SECOND_OF_FOUR, node_begun};
use crate::node::{Item, ListRule, Node};
use crate::stack::Stack;
use crate::task::{Gather, Taken, Task, TextList, TextRule, Then};
use apt_base::{Name, Names, NoMemory, is_pattern};
use frame_forms::{BadKind, MOST_NESTED};
use std::alloc::Global;

/// Reads the fields of a frame byte by byte: what is still to come, and the texts that the next one of a list is compared with.
#[derive(Drop)]
pub(crate) struct FieldsReader {
    alloc: Global,
    gather: Option<Gather>,
    list: Option<TextList>,
    stack: Stack,
    earlier: Names,
    last: Option<Name>,
}

// The bytes as a text, where they are one.
fn text_of(bytes: &[u8]) -> Option<&str>
    ensures some { IfSome result (λ text. (is_text bytes.now ≡ true) × (text.now ≡ bytes.now)) }
    ensures none { IfNone result (is_text bytes.now ≡ false) }
{
    match std::str::from_utf8(bytes) {
        Ok(text) => Some(text),
        Err(_) => None,
    }
}

/// The number that four bytes spell, the big end first.
pub(crate) fn number_of(bytes: &[u8]) -> u32
    requires { length bytes.now ≡ 4 }
    ensures { result ≡ from_be_bytes w32 bytes.now }
{
    u32::from_be_bytes([bytes[0], bytes[1], bytes[2], bytes[3]])
}

// This many texts of a list, where there are any.
fn texts_left(rule: ListRule, count: u32) -> Option<TextList>
    ensures { result ≡ texts_left rule count }
{
    if count == 0 {
        return None;
    }
    Some(TextList {
        rule,
        value_next: false,
        more: count - 1,
    })
}

// What is left of a list behind a text.
fn behind_text(rule: ListRule, more: u32) -> Option<TextList>
    ensures { result ≡ behind_text rule more }
{
    match rule {
        ListRule::AscendingOptions => Some(TextList {
            rule,
            value_next: true,
            more,
        }),
        ListRule::DistinctTexts | ListRule::DistinctPatterns | ListRule::AscendingTexts => {
            texts_left(rule, more)
        }
    }
}

fn head_node(task: Task) -> Node
    ensures { result ≡ head_node task }
{
    match task {
        Task::Field(node, _) => node,
        Task::Items(item, _, _) => Node::One(item),
    }
}

fn head_room(task: Task) -> u16
    ensures { result ≡ head_room task }
{
    match task {
        Task::Field(_, room) | Task::Items(_, room, _) => room,
    }
}

// What is left of a task behind its first node.
fn left_behind(task: Task) -> Option<Task>
    ensures { option_to_list result ≡ left_behind task }
{
    match task {
        Task::Field(_, _) => None,
        Task::Items(item, room, more) => {
            if more == 0 {
                return None;
            }
            Some(Task::Items(item, room, more - 1))
        }
    }
}

fn behind_task(room: u16, behind: Option<Node>) -> Option<Task>
    ensures { option_to_list result ≡ behind_task room behind }
{
    match behind {
        None => None,
        Some(node) => Some(Task::Field(node, room)),
    }
}

fn gather_at(place: usize, gather: Option<(u32, Then)>) -> Option<Gather>
    ensures { result ≡ gather_at place gather }
{
    match gather {
        None => None,
        Some((more, then)) => Some(Gather {
            from: place,
            more,
            then,
        }),
    }
}

// What is wrong with a bad first byte.
fn first_kind(node: Node) -> BadKind
    ensures { result ≡ first_kind node }
{
    match node {
        Node::Tagged => BadKind::Tag,
        _ => BadKind::Field,
    }
}

fn is_above(last: &Option<Name>, text: &str) -> bool
    ensures { result ≡ is_above last.now text.now }
{
    match last {
        None => true,
        Some(last) => last.as_str() < text,
    }
}

impl FieldsReader {
    /// A reader of nothing.
    pub(crate) fn new(alloc: Global) -> FieldsReader
        ensures { (result.gather ≡ None) × (result.list ≡ None) × (result.stack ≡ []) }
    {
        FieldsReader {
            alloc,
            gather: None,
            list: None,
            stack: Stack::new(alloc),
            earlier: Names::new(alloc),
            last: None,
        }
    }

    // The text, where the list lets it stand behind those before it.
    fn judged<'a>(&self, rule: ListRule, bytes: &'a [u8]) -> Result<&'a str, BadKind>
        ensures ok { IfOk result (λ text. text.now ≡ bytes.now) }
        ensures passes { OnOk result (fault_in self.now rule bytes.now ≡ None) }
        ensures fails { IfErr result (λ kind. fault_in self.now rule bytes.now ≡ Some kind) }
    {
        let Some(text) = text_of(bytes) else {
            return Err(BadKind::Field);
        };
        match rule {
            ListRule::DistinctTexts => {
                if self.earlier.contains(text) {
                    return Err(BadKind::Field);
                }
            }
            ListRule::DistinctPatterns => {
                if self.earlier.contains(text) {
                    return Err(BadKind::Field);
                }
                if !is_pattern(text) {
                    return Err(BadKind::Pattern);
                }
            }
            ListRule::AscendingTexts | ListRule::AscendingOptions => {
                if !is_above(&self.last, text) {
                    return Err(BadKind::Field);
                }
            }
        }
        Ok(text)
    }

    fn put_last(&mut self, last: Name)
        ensures { self.new ≡ record self.old { last = Some last } }
    {
        self.last = Some(last);
    }

    // Keeps a text for the next ones of its list. Without memory nothing changes.
    fn keep(&mut self, rule: ListRule, text: &str) -> Result<(), NoMemory>
        ensures ok { OnOk result (KeepsText rule text.now self.old self.new) }
        ensures err { OnErr result (self.new ≡ self.old) }
    {
        match rule {
            ListRule::DistinctTexts => {
                self.earlier.insert(text)?;
                Ok(())
            }
            ListRule::DistinctPatterns => {
                self.earlier.insert(text)?;
                Ok(())
            }
            ListRule::AscendingTexts | ListRule::AscendingOptions => {
                let name = Name::new(self.alloc, text)?;
                self.put_last(name);
                Ok(())
            }
        }
    }

    // Goes on behind a text of a list. Without memory nothing changes.
    fn goes_behind(&mut self, list: TextList, text: &str) -> Result<(), NoMemory>
        ensures ok { OnOk result (GoesBehind list text.now self.old self.new) }
        ensures err { OnErr result (self.new ≡ self.old) }
    {
        self.keep(list.rule, text)?;
        self.gather = None;
        self.list = behind_text(list.rule, list.more);
        Ok(())
    }

    // A text that is no text of a list ends.
    fn end_plain(&mut self, text: &[u8]) -> Taken
        ensures { EndsAsPlain self.old self.new text.now result }
    {
        if text_of(text).is_none() {
            return Taken::Bad(BadKind::Field);
        }
        self.gather = None;
        Taken::On
    }

    // A text ends.
    fn end_text(&mut self, rule: TextRule, text: &[u8]) -> Result<Taken, NoMemory>
        ensures ok { IfOk result (λ taken. EndsText rule self.old self.new text.now taken) }
        ensures err { OnErr result (self.new ≡ self.old) }
    {
        match rule {
            TextRule::Octets => {
                self.gather = None;
                Ok(Taken::On)
            }
            TextRule::Plain => Ok(self.end_plain(text)),
            TextRule::Listed => match self.list {
                None => Ok(self.end_plain(text)),
                Some(list) => match self.judged(list.rule, text) {
                    Err(kind) => Ok(Taken::Bad(kind)),
                    Ok(text) => {
                        self.goes_behind(list, text)?;
                        Ok(Taken::On)
                    }
                },
            },
        }
    }

    // A list of things begins. Without memory nothing changes.
    fn begin_items(&mut self, item: Item, room: u16, count: u32) -> Result<(), NoMemory>
        ensures ok { OnOk result (self.new ≡ with_items self.old item room count) }
        ensures err { OnErr result (self.new ≡ self.old) }
    {
        if count > 0 {
            self.stack.push(Task::Items(item, room, count - 1))?;
        }
        self.gather = None;
        Ok(())
    }

    /// Lets the texts of a list go.
    pub(crate) fn forget_texts(&mut self)
        ensures { self.new ≡ record self.old { earlier = fin.empty; last = None } }
    {
        self.earlier = Names::new(self.alloc);
        self.last = None;
    }

    // A list of texts begins.
    fn begin_texts(&mut self, rule: ListRule, count: u32)
        ensures { self.new ≡ with_texts self.old rule count }
    {
        self.forget_texts();
        self.gather = None;
        self.list = texts_left(rule, count);
    }

    // A length ends.
    fn end_length(&mut self, rule: TextRule, count: u32, place: usize) -> Result<Taken, NoMemory>
        ensures ok { IfOk result (λ taken. EndsLength rule count place self.old self.new taken) }
        ensures err { OnErr result (self.new ≡ self.old) }
    {
        if count == 0 {
            return self.end_text(rule, &[]);
        }
        self.gather = Some(Gather {
            from: place,
            more: count - 1,
            then: Then::Text(rule),
        });
        Ok(Taken::On)
    }

    // The last one of gathered bytes is there.
    fn finish(&mut self, gather: Gather, bytes: &[u8], byte: u8) -> Result<Taken, NoMemory>
        requires last { gather.more ≡ 0 }
        requires some { 0 < length bytes.now }
        requires begins { Begins gather self.old.list (length bytes.now - 1) }
        ensures ok { IfOk result (λ taken. Finishes gather self.old self.new bytes.now byte taken) }
        ensures err { OnErr result (self.new ≡ self.old) }
    {
        let gathered = &bytes[gather.from..];
        match gather.then {
            Then::Skip => {
                self.gather = None;
                Ok(Taken::On)
            }
            Then::Length(rule) => self.end_length(rule, number_of(gathered), bytes.len()),
            Then::Text(rule) => self.end_text(rule, gathered),
            Then::Count(item, room) => {
                self.begin_items(item, room, number_of(gathered))?;
                Ok(Taken::On)
            }
            Then::ListCount(rule) => {
                self.begin_texts(rule, number_of(gathered));
                Ok(Taken::On)
            }
        }
    }

    // A text of a list begins, or the value of the last one.
    fn begin_text(&mut self, list: TextList, place: usize)
        ensures { self.new ≡ with_text self.old list place }
    {
        if list.value_next {
            self.gather = Some(Gather {
                from: place,
                more: BEHIND_SECOND_OF_FOUR,
                then: Then::Length(TextRule::Plain),
            });
            self.list = texts_left(list.rule, list.more);
        } else {
            self.gather = Some(Gather {
                from: place,
                more: BEHIND_SECOND_OF_FOUR,
                then: Then::Length(TextRule::Listed),
            });
            self.list = Some(list);
        }
    }

    // The next task begins.
    fn begin_task(&mut self, task: Task, place: usize, byte: u8) -> Result<Taken, NoMemory>
        requires { slice_get self.old.stack (length self.old.stack - 1) ≡ Some task }
        ensures ok { IfOk result (λ taken. BeginsTask task place byte self.old self.new taken) }
        ensures err { OnErr result (self.new ≡ self.old) }
    {
        let node = head_node(task);
        let room = head_room(task);
        let Some(begun) = node_begun(node, room, byte) else {
            return Ok(Taken::Bad(first_kind(node)));
        };
        self.stack.replace_last(
            left_behind(task),
            behind_task(room, begun.behind),
            begun.inner,
            begun.room,
        )?;
        self.gather = gather_at(place, begun.gather);
        Ok(Taken::On)
    }

    // A byte comes that belongs to none before it.
    fn begin(&mut self, place: usize, byte: u8) -> Result<Taken, NoMemory>
        requires { self.old.gather ≡ None }
        ensures ok { IfOk result (λ taken. Starts place byte self.old self.new taken) }
        ensures err { OnErr result (self.new ≡ self.old) }
    {
        match self.list {
            Some(list) => {
                self.begin_text(list, place);
                Ok(Taken::On)
            }
            None => match self.stack.last() {
                None => Ok(Taken::Behind),
                Some(task) => self.begin_task(task, place, byte),
            },
        }
    }

    /// Takes a byte, which is the last one of these. Without memory nothing changes.
    pub(crate) fn take(&mut self, bytes: &[u8], byte: u8) -> Result<Taken, NoMemory>
        requires some { 0 < length bytes.now }
        requires gathering { IsGathering self.old.gather self.old.list (length bytes.now - 1) }
        ensures ok { IfOk result (λ taken. Follows self.old self.new bytes.now byte taken) }
        ensures err { OnErr result (self.new ≡ self.old) }
    {
        match self.gather {
            None => self.begin(bytes.len() - 1, byte),
            Some(gather) => {
                if gather.more == 0 {
                    return self.finish(gather, bytes, byte);
                }
                self.gather = Some(Gather {
                    from: gather.from,
                    more: gather.more - 1,
                    then: gather.then,
                });
                Ok(Taken::On)
            }
        }
    }

    /// Begins a frame: a tag and its fields come next.
    pub(crate) fn start(&mut self) -> Result<(), NoMemory>
        ensures { OnOk result (IsAtTag self.new) }
    {
        self.gather = None;
        self.list = None;
        self.stack.clear();
        self.stack.push(Task::Field(Node::Tagged, MOST_NESTED))?;
        Ok(())
    }

    /// Whether nothing is to come.
    pub(crate) fn is_done(&self) -> bool
        ensures { TellsEnd self.now result }
    {
        match self.gather {
            Some(_) => false,
            None => match self.list {
                Some(_) => false,
                None => match self.stack.last() {
                    Some(_) => false,
                    None => true,
                },
            },
        }
    }

    /// How many bytes may be taken at once: those that are gathered, without the last one.
    pub(crate) fn ahead(&self) -> u32
        ensures { result ≡ ahead_of self.now.gather }
    {
        match self.gather {
            None => 0,
            Some(gather) => gather.more,
        }
    }

    /// This many bytes that are gathered are there, of which nothing is asked before the last one.
    pub(crate) fn skip(&mut self, count: u32)
        requires { count ≤ ahead_of self.old.gather }
        ensures { self.new ≡ record self.old { gather = skipped count self.old.gather } }
    {
        if let Some(gather) = self.gather {
            self.gather = Some(Gather {
                from: gather.from,
                more: gather.more - count,
                then: gather.then,
            });
        }
    }
}
