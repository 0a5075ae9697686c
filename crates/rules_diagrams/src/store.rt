//! The store of nodes.

ghost use Rattle.std.specs.Prelude.{◌≡◌, ◌≤◌, ◌<◌, ◌==◌, [], length, IfOk, IfSome, IsTrue};
ghost use Rattle.std.specs.List.{All};
ghost use Rattle.rules_diagrams.specs.inner.Values.{top_of, IsWithin, Keeps};
ghost use Rattle.rules_diagrams.specs.inner.Asking.{IsAnswer};
ghost use Rattle.rules_diagrams.specs.inner.Store.{IsNode, HasNode, DecidesByBit, above};
ghost use Rattle.rules_diagrams.specs.inner.Steps.{AreSides};

use crate::diagram::{Diagram, Node, Sides};
use crate::fault::{Drawn, Undecided};
use crate::step::{Asked, Step};
use std::alloc::Global;
use std::marker::Model;

/// The largest number of nodes.
pub const MOST_NODES: usize = 4_194_304;

/// The number of places of each table.
pub(crate) const TABLE: usize = 65536;

/// The bit of a diagram that asks for none: the number of bits of a cell.
pub(crate) const NO_BIT: u16 = 416;

/// The nodes of diagrams. A node is never changed or taken away, so a diagram keeps its meaning.
///
/// Contracts see the list of the nodes, the newest first.
#[derive(Drop)]
pub(crate) struct Diagrams {
    /// The nodes, the oldest first.
    nodes: Vec<Node>,
    /// A hash table of nodes: at the place of a node, the number of the last node that was made there, or 0. Another node may have that
    /// number, so the node is compared.
    places: Vec<u32>,
    /// Choices that were made. Each place has the last one that belongs there.
    steps: Vec<Step>,
}

impl Model for Diagrams {
    ghost use Rattle.std.specs.Prelude.{List, reverse};
    ghost use Rattle.rules_diagrams.specs.declared.diagram.Node.{Node};
    ghost use Rattle.rules_diagrams.specs.inner.Store.{IsStore};

    ghost Value = { List Node };

    ghost view = { λ d. reverse d.nodes.items };

    ghost invariant = { λ d. IsStore (reverse d.nodes.items) d.places.items d.steps.items };
}

/// A number that diagrams mostly don't share.
pub(crate) fn code_of(diagram: Diagram) -> u32 {
    match diagram {
        Diagram::Leaf(value) => value.wrapping_mul(2),
        Diagram::Inner(number) => number.wrapping_mul(2).wrapping_add(1),
    }
}

/// The place that three numbers have in a hash table of [`TABLE`] places. Nodes, choices and pairs of diagrams share this hash.
pub(crate) fn place_of(first: u32, second: u32, third: u32) -> usize
    ensures { result < 65536 }
{
    let mixed = first
        .wrapping_mul(0x9e37_79b1)
        .wrapping_add(second.wrapping_mul(0x85eb_ca77))
        .wrapping_add(third.wrapping_mul(0xc2b2_ae3d));
    let place = (mixed ^ mixed >> 15) as usize;
    place % TABLE
}

/// The place in the table of a node.
fn place_of_node(node: Node) -> usize
    ensures { result < 65536 }
{
    place_of(u32::from(node.bit), code_of(node.low), code_of(node.high))
}

/// The place in the table of a choice.
fn place_of_choice(asked: Asked) -> usize
    ensures { result < 65536 }
{
    place_of(
        code_of(asked.test),
        code_of(asked.one),
        code_of(asked.other),
    )
}

/// Whether two nodes are equal.
fn is_same_node(one: Node, other: Node) -> bool
    ensures { IsTrue result → one ≡ other }
{
    one == other
}

/// Whether two choices are the same.
fn is_same_choice(one: Asked, other: Asked) -> bool
    ensures { IsTrue result → one ≡ other }
{
    one == other
}

/// A table of places.
fn places(alloc: Global, size: usize) -> Result<Vec<u32>, Undecided>
    ensures { IfOk result (λ places. length places.items ≡ size) }
{
    Ok(vec![in alloc; 0; size]?)
}

/// A table of choices, each with this one.
fn steps(alloc: Global, step: Step, size: usize) -> Result<Vec<Step>, Undecided>
    ensures length { IfOk result (λ steps. length steps.items ≡ size) }
    ensures same { IfOk result (λ steps. All (λ s. s ≡ step) steps.items) }
{
    Ok(vec![in alloc; step; size]?)
}

/// What each place of the table of choices has at first: the choice between 0 and 0 by 0, which is 0. It is true, so no place is empty.
fn first_step() -> Step
    ensures { IsAnswer [] result.asked result.answer }
{
    let zero = Diagram::Leaf(0);
    Step {
        asked: Asked {
            test: zero,
            one: zero,
            other: zero,
        },
        answer: zero,
    }
}

impl Diagrams {
    /// Makes a store without nodes.
    ///
    /// # Errors
    ///
    /// `NoMemory` if an allocation failed.
    pub(crate) fn new(alloc: Global) -> Result<Diagrams, Undecided>
        ensures { IfOk result (λ diagrams. diagrams ≡ []) }
    {
        Ok(Diagrams {
            nodes: Vec::new(alloc),
            places: places(alloc, TABLE)?,
            steps: steps(alloc, first_step(), TABLE)?,
        })
    }

    /// The node of a number.
    fn node(&self, number: u32) -> Node
        requires { number < length self.now }
        ensures { HasNode self.now number result }
    {
        self.nodes[number as usize]
    }

    /// How many nodes there are.
    pub(crate) fn count(&self) -> usize
        ensures { result ≡ length self.now }
    {
        self.nodes.len()
    }

    /// The first bit that a diagram asks for, 416 if it asks for none.
    pub(crate) fn top(&self, diagram: Diagram) -> u16
        requires { IsWithin self.now diagram }
        ensures top { result ≡ top_of self.now diagram }
        ensures bound { result < above diagram }
    {
        match diagram {
            Diagram::Leaf(_) => NO_BIT,
            Diagram::Inner(number) => self.node(number).bit,
        }
    }

    /// The diagrams of the cells in which a bit isn't set and in which it is.
    pub(crate) fn sides(&self, diagram: Diagram, bit: u16) -> Sides
        requires within { IsWithin self.now diagram }
        requires bit { bit < 416 }
        requires before { bit ≤ top_of self.now diagram }
        ensures { AreSides self.now diagram bit result.low result.high }
    {
        match diagram {
            Diagram::Leaf(_) => Sides {
                low: diagram,
                high: diagram,
            },
            Diagram::Inner(number) => {
                let node = self.node(number);
                if node.bit == bit {
                    Sides {
                        low: node.low,
                        high: node.high,
                    }
                } else {
                    Sides {
                        low: diagram,
                        high: diagram,
                    }
                }
            }
        }
    }

    /// The node that the table of nodes has at the place of a node, if it is the same.
    fn found(&self, node: Node) -> Option<Diagram>
        ensures { IfSome result (DecidesByBit self.now node.bit node.low node.high) }
    {
        let number = self.places[place_of_node(node)];
        if (number as usize) < self.nodes.len() && is_same_node(self.node(number), node) {
            Some(Diagram::Inner(number))
        } else {
            None
        }
    }

    /// Adds a node.
    fn push(&mut self, node: Node) -> Drawn
        requires { IsNode self.old node }
        ensures keeps { Keeps self.old self.new }
        ensures made { IfOk result (DecidesByBit self.new node.bit node.low node.high) }
    {
        let count = self.nodes.len();
        if count >= MOST_NODES {
            return Err(Undecided::TooLarge);
        }
        let number = count as u32;
        self.nodes.push(node)?;
        self.places[place_of_node(node)] = number;
        Ok(Diagram::Inner(number))
    }

    /// The diagram that decides by a bit between two others, which ask only for later bits.
    pub(crate) fn make(&mut self, bit: u16, low: Diagram, high: Diagram) -> Drawn
        requires bit { bit < 416 }
        requires low { IsWithin self.old low }
        requires high { IsWithin self.old high }
        requires low_later { bit < top_of self.old low }
        requires high_later { bit < top_of self.old high }
        ensures keeps { Keeps self.old self.new }
        ensures made { IfOk result (DecidesByBit self.new bit low high) }
    {
        if is_same(low, high) {
            return Ok(low);
        }
        let node = Node { bit, low, high };
        match self.found(node) {
            Some(made) => Ok(made),
            None => self.push(node),
        }
    }

    /// The choice that the table has, if it is the one that is asked for.
    pub(crate) fn known(&self, asked: Asked) -> Option<Diagram>
        ensures { IfSome result (IsAnswer self.now asked) }
    {
        let step = self.steps[place_of_choice(asked)];
        if is_same_choice(step.asked, asked) {
            Some(step.answer)
        } else {
            None
        }
    }

    /// Keeps a choice that was made.
    pub(crate) fn remember(&mut self, asked: Asked, answer: Diagram)
        requires { IsAnswer self.old asked answer }
        ensures { self.new ≡ self.old }
    {
        self.steps[place_of_choice(asked)] = Step { asked, answer };
    }
}

/// Whether two diagrams are the same.
pub(crate) fn is_same(one: Diagram, other: Diagram) -> bool
    ensures { IsTrue result → one ≡ other }
{
    one == other
}
