//! Choices between two diagrams by a third: if, then, else.

ghost use Rattle.std.specs.Prelude.{◌≡◌, ◌≤◌, ◌<◌, List, IfOk, IfSome, None};
ghost use Rattle.rules_diagrams.specs.inner.Values.{IsWithin, Keeps};
ghost use Rattle.rules_diagrams.specs.inner.Choices.{IsChoice};
ghost use Rattle.rules_diagrams.specs.inner.Asking.{AreWithin, IsAnswer, asked_top};
ghost use Rattle.rules_diagrams.specs.inner.Steps.{AreChoiceParts};
ghost use Rattle.rules_diagrams.specs.inner.Store.{above};
ghost use Rattle.rules_diagrams.specs.declared.diagram.Node.{Node};

use crate::diagram::Diagram;
use crate::fault::Drawn;
use crate::step::{Asked, Parts};
use crate::store::{Diagrams, is_same};

/// The choice, if no node has to be looked at for it.
fn settled(asked: Asked) -> Option<Diagram>
    ensures answer { IfSome result (λ answer. (nodes : List Node) → AreWithin nodes asked → IsAnswer nodes asked answer) }
    ensures open { result ≡ None → above asked.test ≡ 416 }
{
    match asked.test {
        Diagram::Leaf(0) => Some(asked.other),
        Diagram::Leaf(_) => Some(asked.one),
        Diagram::Inner(_) => {
            if is_same(asked.one, asked.other) {
                Some(asked.one)
            } else {
                None
            }
        }
    }
}

impl Diagrams {
    /// The first bit that one of the three diagrams asks for.
    fn first_bit(&self, asked: Asked) -> u16
        requires within { AreWithin self.now asked }
        requires open { above asked.test ≡ 416 }
        ensures first { result ≡ asked_top self.now asked }
        ensures bit { result < 416 }
    {
        let later = self.top(asked.one).min(self.top(asked.other));
        self.top(asked.test).min(later)
    }

    /// Splits a choice at a bit. None of the three diagrams asks for an earlier bit.
    fn parts(&self, asked: Asked, bit: u16) -> Parts
        requires within { AreWithin self.now asked }
        requires bit { bit < 416 }
        requires before { bit ≤ asked_top self.now asked }
        ensures { AreChoiceParts self.now asked bit result.low result.high }
    {
        let test = self.sides(asked.test, bit);
        let one = self.sides(asked.one, bit);
        let other = self.sides(asked.other, bit);
        Parts {
            low: Asked {
                test: test.low,
                one: one.low,
                other: other.low,
            },
            high: Asked {
                test: test.high,
                one: one.high,
                other: other.high,
            },
        }
    }

    /// The choice that is asked for.
    #[tactic(auto, using(crate::proofs::Nodes::keeps_both, crate::proofs::Nodes::keeps_itself))]
    fn choose_asked(&mut self, asked: Asked) -> Drawn
        requires { AreWithin self.old asked }
        ensures keeps { Keeps self.old self.new }
        ensures answer { IfOk result (IsAnswer self.new asked) }
    {
        if let Some(answer) = settled(asked) {
            return Ok(answer);
        }
        if let Some(answer) = self.known(asked) {
            return Ok(answer);
        }
        let bit = self.first_bit(asked);
        let parts = self.parts(asked, bit);
        let low = self.choose_asked(parts.low)?;
        let high = self.choose_asked(parts.high)?;
        let answer = self.make(bit, low, high)?;
        self.remember(asked, answer);
        Ok(answer)
    }

    /// The diagram that gives the cells to which `test` gives 0 the number of `other`, and all others the number of `one`. The
    /// three keep their meaning.
    ///
    /// # Errors
    ///
    /// `TooLarge` if the store had to have more than [`MOST_NODES`](crate::MOST_NODES) nodes; `NoMemory` if an allocation
    /// failed. The nodes made so far stay.
    pub(crate) fn choose(&mut self, test: Diagram, one: Diagram, other: Diagram) -> Drawn
        requires test { IsWithin self.old test }
        requires one { IsWithin self.old one }
        requires other { IsWithin self.old other }
        ensures keeps { Keeps self.old self.new }
        ensures chosen { IfOk result (IsChoice self.new test one other) }
    {
        self.choose_asked(Asked { test, one, other })
    }
}
