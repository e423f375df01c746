// Subtypes by numbers: what a question about two types asks next.
ghost use Rattle.std.specs.Prelude.{◌≡◌, IfOk, length};
ghost use Rattle.std.specs.Option.{option_to_list};
ghost use Rattle.type_layers.specs.Layers.{parts_of};
ghost use Rattle.type_layers.specs.Same as sameness;
ghost use Rattle.type_levels.specs.Numbered.{IsKnownQuestion};
ghost use Rattle.type_levels.specs.Shown.{argument_of};
ghost use Rattle.type_numbers.specs.Nodes.{layer_of};
ghost use Rattle.type_numbers.specs.Numbers.{at, IsKnown, AreKnown};
ghost use Rattle.type_subtypes.specs.Numbers.{AsksArguments, AsksContained, AsksEach, BothKnown, NodesDecide, TypesDecide, same_enclosing_at, with_subtypes};
ghost use Rattle.type_subtypes.specs.Subtypes.{argument_in, has_null};

use apt_base::{ElementRef, NoMemory};
use element_table::Table;
use std::alloc::Global;
use std::marker::Model;
use type_levels::{Answer, Argument, Next, Pair, Question, Relation, contains};
use type_mirror::Mirror;
use type_numbers::{Node, Types};
use type_steps::direct_of;

/// Subtypes over one table, as a relation of types by their numbers. Contracts see the table.
#[derive(Drop)]
pub struct Subtypes<'a> {
    /// What gives memory to the search.
    pub alloc: Global,
    pub table: &'a Table,
}

impl<'a> Model for Subtypes<'a> {
    ghost use Rattle.element_table.specs.TypeTable.{TypeTable};
    ghost use Rattle.element_table.specs.Held.{table_code};

    ghost Value = { TypeTable };

    ghost coded = { table_code };

    ghost view = { λ a. a.table.now };
}

// ---- the same types

fn is_wildcard(node: &Node) -> bool
    ensures { result ≡ sameness.is_wildcard (layer_of node.now) }
{
    matches!(node, Node::Unbounded | Node::Extends(_) | Node::Super(_))
}

/// Whether two numbers stand for the same type.
pub(crate) fn is_same(types: &Types, one: usize, other: usize) -> bool
    requires { IsKnown types.now one × IsKnown types.now other }
    ensures { result ≡ sameness.same (at types.now one) (at types.now other) }
{
    if is_wildcard(types.node(one)) {
        return false;
    }
    types.is_equal(one, other)
}

fn same_enclosing(types: &Types, one: &Option<usize>, other: &Option<usize>) -> bool
    requires one { AreKnown types.now (option_to_list one.now) }
    requires other { AreKnown types.now (option_to_list other.now) }
    ensures { result ≡ same_enclosing_at types.now one.now other.now }
{
    match one {
        None => other.is_none(),
        Some(one) => match other {
            None => false,
            Some(other) => is_same(types, *one, *other),
        },
    }
}

// ---- type arguments

fn argument(node: &Node) -> Argument
    ensures { argument_of result ≡ argument_in (layer_of node.now) }
{
    match node {
        Node::Unbounded => Argument::Unbounded,
        Node::Extends(bound) => Argument::Extends(*bound),
        Node::Super(bound) => Argument::Super(*bound),
        _ => Argument::Exact,
    }
}

fn has_null(node: &Node) -> bool
    ensures { result ≡ has_null (layer_of node.now) }
{
    match node {
        Node::Declared(_, _, _) => true,
        Node::Variable(_) => true,
        Node::Array(_) => true,
        _ => false,
    }
}

impl<'a> Subtypes<'a> {
    /// Whether a type argument contains another one.
    pub fn contains(&self, types: &Types, one: usize, other: usize) -> Question
        requires { IsKnown types.now one × IsKnown types.now other }
        ensures exact { AsksContained self.now types.now one other result }
        ensures known { IsKnownQuestion (with_subtypes self.now types.now) result }
    {
        let outer = argument(types.node(one));
        let inner = argument(types.node(other));
        contains(is_same(types, one, other), outer, other, inner)
    }

    // The arguments of the second list contain those of the first one, of which there are as many.
    fn each_contained(
        &self,
        types: &Types,
        ones: &[usize],
        others: &[usize],
    ) -> Result<Next, NoMemory>
        requires ones { AreKnown types.now ones.now }
        requires others { AreKnown types.now others.now }
        requires as_many { length ones.now ≡ length others.now }
        ensures { IfOk result (λ next. AsksEach self.now types.now ones.now others.now next) }
    {
        let mut questions = Vec::new(self.alloc);
        for at in 0..ones.len() {
            let question = self.contains(types, others[at], ones[at]);
            questions.push(question)?;
        }
        Ok(Next::Arguments(questions))
    }

    #[tactic(auto, using(crate::proofs::ArgumentsByNumbers::compared))]
    fn by_arguments(
        &self,
        types: &Types,
        ones: &[usize],
        others: &[usize],
    ) -> Result<Next, NoMemory>
        requires ones { AreKnown types.now ones.now }
        requires others { AreKnown types.now others.now }
        ensures { IfOk result (λ next. AsksArguments self.now types.now ones.now others.now next) }
    {
        if others.is_empty() {
            return Ok(Next::Decided(Answer::Yes));
        }
        if ones.len() != others.len() {
            return Ok(Next::Decided(Answer::No));
        }
        let next = self.each_contained(types, ones, others)?;
        Ok(next)
    }

    // What two types decide whose outermost layers these are.
    #[tactic(auto, using(crate::proofs::DecidedNodes::deciding))]
    fn by_nodes(&self, types: &Types, one: &Node, other: &Node) -> Result<Option<Next>, NoMemory>
        requires one { AreKnown types.now (parts_of (layer_of one.now)) }
        requires other { AreKnown types.now (parts_of (layer_of other.now)) }
        ensures { IfOk result (λ next. NodesDecide self.now types.now one.now other.now next) }
    {
        match one {
            Node::Declared(at, enclosing, arguments) => match other {
                Node::Declared(element, around, bounds) => {
                    if !at.is_equal(element) {
                        return Ok(None);
                    }
                    if !same_enclosing(types, enclosing, around) {
                        return Ok(None);
                    }
                    let next = self.by_arguments(types, arguments.as_slice(), bounds.as_slice())?;
                    Ok(Some(next))
                }
                _ => Ok(None),
            },
            Node::Null => {
                if has_null(other) {
                    return Ok(Some(Next::Decided(Answer::Yes)));
                }
                Ok(None)
            }
            _ => Ok(None),
        }
    }

    /// What two types decide by themselves, before the supertypes of the first one are asked.
    pub fn decided(&self, types: &Types, pair: Pair) -> Result<Option<Next>, NoMemory>
        requires { BothKnown types.now pair }
        ensures { IfOk result (λ next. TypesDecide self.now types.now pair next) }
    {
        if is_same(types, pair.sub, pair.sup) {
            return Ok(Some(Next::Decided(Answer::Yes)));
        }
        let next = self.by_nodes(types, types.node(pair.sub), types.node(pair.sup))?;
        Ok(next)
    }
}

impl<'a> Relation<Types> for Subtypes<'a> {
    type Type = Mirror;

    ghost seen = { λ table types. with_subtypes table types };

    fn next(&self, types: &mut Types, pair: Pair) -> Result<Next, NoMemory> {
        if let Some(next) = self.decided(types, pair)? {
            return Ok(next);
        }
        match direct_of(self.alloc, self.table, types, pair.sub)? {
            None => Ok(Next::Decided(Answer::Open)),
            Some(supertypes) => Ok(Next::Supertypes(supertypes.into_vec())),
        }
    }
}
