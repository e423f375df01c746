// The types of one call: each once, by a number.
ghost use Rattle.std.specs.Prelude.{◌≡◌, ◌↔◌, ◌<◌, [], IsTrue, IfOk, IfSome, IfNone, length};
ghost use Rattle.std.specs.List.{AllByRecursion};
ghost use Rattle.type_layers.specs.Layers.{layer, parts_of};
ghost use Rattle.type_numbers.specs.Numbers.{at, IsKnown, AreKnown, Stands, Grows, HasNo, with_types};
ghost use Rattle.type_numbers.specs.Keys.{layer_key};
ghost use Rattle.type_numbers.specs.Nodes.{layer_of, type_of};

use crate::entry::{Entry, Sizes};
use crate::key::key_of;
use crate::node::Node;
use apt_base::NoMemory;
use std::alloc::Global;
use std::collections::BTreeMap;
use std::marker::Model;

// How many types one call has at most.
const MOST_TYPES: usize = 1_048_576;

// How deep the layers of a type are nested at most.
const MOST_DEEP: u32 = 4_096;

// How many layers a type has at most that is given back as a tree.
const MOST_LAYERS: u32 = 16_777_216;

/// The types of one call, each different one once and by a number. Contracts see the mirrors in the order of their numbers, and no two of them are equal.
#[derive(Drop)]
pub struct Types {
    alloc: Global,
    entries: Vec<Entry>,
    numbers: BTreeMap<Vec<usize>, usize>,
}

impl Model for Types {
    ghost use Rattle.std.specs.Prelude.{List};
    ghost use Rattle.std.specs.Coded.{coded_list};
    ghost use Rattle.type_mirror.specs.declared.mirror.Mirror.{Mirror};
    ghost use Rattle.type_mirror.specs.contracts.mirror.Mirror as mirror;
    ghost use Rattle.type_numbers.specs.Held.{types_of, AreHeld};

    ghost Value = { List Mirror };

    ghost coded = { coded_list mirror.the_row.coded };

    ghost view = { λ a. types_of a.entries.items };

    ghost invariant = { λ a. AreHeld a.entries.items a.numbers.entries };
}

impl Types {
    /// No types yet. It takes no memory.
    pub fn new(alloc: Global) -> Types
        ensures { result ≡ [] }
    {
        Types {
            alloc,
            entries: Vec::new(alloc),
            numbers: BTreeMap::new(alloc),
        }
    }

    /// What gives memory to the types.
    pub(crate) fn alloc(&self) -> Global {
        self.alloc
    }

    /// How many types there are; the numbers are those below.
    pub fn len(&self) -> usize
        ensures { result ≡ length self.now }
    {
        self.entries.len()
    }

    /// The outermost layer of the type with this number, with the numbers of what it holds.
    pub fn node(&self, number: usize) -> &Node
        requires { IsKnown self.now number }
        ensures exact { with_types self.now (layer_of result.now) ≡ layer (at self.now number) }
        ensures below { AllByRecursion (λ part. part < number) (parts_of (layer_of result.now)) }
    {
        &self.entries[number].node
    }

    /// Whether two numbers stand for equal types, wildcards included. It takes no memory, and one step.
    pub fn is_equal(&self, one: usize, other: usize) -> bool
        requires { IsKnown self.now one × IsKnown self.now other }
        ensures { IsTrue result ↔ at self.now one ≡ at self.now other }
    {
        let _ = &self.alloc;
        one == other
    }

    // The number of the type with this layer, where it has one.
    fn find(&self, key: &Vec<usize>, node: &Node) -> Option<usize>
        requires known { AreKnown self.now (parts_of (layer_of node.now)) }
        requires key { key.now.items ≡ layer_key (layer_of node.now) }
        ensures there { IfSome result (λ number. Stands self.now number (type_of self.now node.now)) }
        ensures absent { IfNone result (HasNo self.now (type_of self.now node.now)) }
    {
        match self.numbers.get(key.as_slice()) {
            Some(number) => Some(*number),
            None => None,
        }
    }

    // What these types are as trees, counted to what is known so far: how many layers, and how deep.
    fn with_sizes(&self, parts: &[usize], sizes: Sizes) -> Sizes
        requires { AreKnown self.now parts.now }
    {
        let mut all = sizes;
        for part in parts {
            let entry = &self.entries[*part];
            all = Sizes {
                layers: all.layers.saturating_add(entry.sizes.layers),
                depth: all.depth.max(entry.sizes.depth),
            };
        }
        all
    }

    // What the type with this layer is as a tree.
    fn sizes_of(&self, node: &Node) -> Sizes
        requires { AreKnown self.now (parts_of (layer_of node.now)) }
    {
        let none = Sizes {
            layers: 1,
            depth: 0,
        };
        let parts = match node {
            Node::Declared(_, None, arguments) => self.with_sizes(arguments.as_slice(), none),
            Node::Declared(_, Some(enclosing), arguments) => {
                let outer = self.with_sizes(&[*enclosing], none);
                self.with_sizes(arguments.as_slice(), outer)
            }
            Node::Array(item) => self.with_sizes(&[*item], none),
            Node::Extends(bound) => self.with_sizes(&[*bound], none),
            Node::Super(bound) => self.with_sizes(&[*bound], none),
            Node::Executable(_, parameters, outcome, thrown) => {
                let first = self.with_sizes(parameters.as_slice(), none);
                let second = self.with_sizes(&[*outcome], first);
                self.with_sizes(thrown.as_slice(), second)
            }
            _ => none,
        };
        Sizes {
            layers: parts.layers,
            depth: parts.depth.saturating_add(1),
        }
    }

    // Adds the type with this layer, which has no number yet.
    fn put(&mut self, key: Vec<usize>, node: Node, sizes: Sizes) -> Result<usize, NoMemory>
        requires parts { AreKnown self.old (parts_of (layer_of node)) }
        requires key { key.items ≡ layer_key (layer_of node) }
        requires absent { HasNo self.old (type_of self.old node) }
        ensures stands { IfOk result (λ number. Stands self.new number (type_of self.old node)) }
        ensures grows { Grows self.old self.new }
    {
        let number = self.entries.len();
        self.entries.push(Entry { node, sizes })?;
        match self.numbers.insert(key, number) {
            Ok(_) => return Ok(number),
            Err(_) => {
                self.entries.pop();
                return Err(NoMemory);
            }
        }
    }

    /// The number of the type with this layer, whose parts have numbers. The type is added where it is not there, and each number that was given before still has the same type.
    ///
    /// It is out of memory too where there would be more than 1,048,576 types, or layers nested more than 4,096 deep.
    pub fn intern(&mut self, node: Node) -> Result<usize, NoMemory>
        requires { AreKnown self.old (parts_of (layer_of node)) }
        ensures stands { IfOk result (λ number. Stands self.new number (type_of self.old node)) }
        ensures grows { Grows self.old self.new }
    {
        let key = key_of(self.alloc, &node)?;
        if let Some(number) = self.find(&key, &node) {
            return Ok(number);
        }
        let sizes = self.sizes_of(&node);
        if self.entries.len() >= MOST_TYPES || sizes.depth > MOST_DEEP {
            return Err(NoMemory);
        }
        self.put(key, node, sizes)
    }

    /// How many layers the type with this number has as a tree, each counted where it stands; at most 4,294,967,295. It takes one step.
    pub fn layers(&self, number: usize) -> u32
        requires { IsKnown self.now number }
    {
        self.entries[number].sizes.layers
    }

    // Whether the type is small enough as a tree to be given back as one.
    pub(crate) fn is_small(&self, number: usize) -> bool
        requires { IsKnown self.now number }
    {
        self.entries[number].sizes.layers <= MOST_LAYERS
    }
}
