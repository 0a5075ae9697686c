//! A code that is made from its end to its front.

ghost use Rattle.std.specs.Prelude.{◌≡◌, ◌==◌, if◌then◌else◌, ◌-◌, ◌≤◌, ◌<◌, ◌^◌, [], ◌∷◌, length, IfOk, OnOk};
ghost use Rattle.bpf_code.specs.declared.instr.Instr.TheVariants.{Jump};
ghost use Rattle.rules_code.specs.Labels.{near_code, near_label, branched};
ghost use Rattle.rules_code.specs.inner.Making.{IsMade};

use bpf_code::{By, Instr, Test};
use std::alloc::{AllocError, Global};
use std::marker::Model;

/// The most instructions that a draft has room for, so that `ja` can name every label.
const ROOM: usize = 0xffff_ffff;

/// The largest distance of a label that a branch names, in instructions. Offsets of a branch have 8 bits; the rest up to 255 is room for
/// the `ja`s that come between.
const FAR: usize = 250;

/// A code that is made from its end to its front. Contracts see the list of its instructions.
#[derive(Drop)]
pub(crate) struct Draft {
    /// The instructions, the last first.
    reversed: Vec<Instr>,
}

impl Model for Draft {
    ghost use Rattle.std.specs.Prelude.{◌<◌, ◌^◌, List, length, reverse};
    ghost use Rattle.bpf_code.specs.declared.instr.Instr.{Instr};

    ghost Value = { List Instr };

    ghost view = { λ d. reverse d.reversed.items };

    ghost invariant = { λ d. length d.reversed.items < 2 ^ 32 };
}

/// The labels of a test: where it begins, and where its two sides lead. It is public because definitions name it.
#[derive(Clone, Copy)]
pub struct Ways {
    /// Where the test begins.
    pub entry: usize,
    /// Where a packet goes that meets the test.
    pub met: usize,
    /// Where a packet goes that doesn't.
    pub unmet: usize,
}

/// The label of one side of two tests. The later test begins at `entry` and has the label `label` for the side. If they are equal, the
/// later test has no code, and the label is that of the first test.
pub(crate) fn side_label(entry: usize, label: usize, first: usize) -> usize
    ensures { result ≡ if entry == label then first else label }
{
    if entry == label { first } else { label }
}

impl Draft {
    /// Returns the code without instructions.
    pub(crate) fn new(alloc: Global) -> Draft
        ensures { result ≡ [] }
    {
        Draft {
            reversed: Vec::new(alloc),
        }
    }

    /// Where memory comes from.
    pub(crate) fn alloc(&self) -> Global {
        *self.reversed.allocator()
    }

    /// The number of instructions, which is the label of the first.
    pub(crate) fn len(&self) -> usize
        ensures count { result ≡ length self.now }
        ensures within { result < 2 ^ 32 }
    {
        self.reversed.len()
    }

    /// Puts an instruction in front.
    pub(crate) fn put(&mut self, instr: Instr) -> Result<(), AllocError>
        ensures { OnOk result (self.new ≡ instr ∷ self.old) }
    {
        if self.reversed.len() >= ROOM {
            return Err(AllocError);
        }
        self.reversed.push(instr)?;
        Ok(())
    }

    /// Returns a label that a branch can name and that leads to this one. If it is too far, puts `ja` in front.
    fn near(&mut self, label: usize) -> Result<usize, AllocError>
        ensures code { OnOk result (self.new ≡ near_code self.old label) }
        ensures label { IfOk result (λ nearer. nearer ≡ near_label self.old label) }
        ensures close { IfOk result (λ nearer. length self.new - nearer ≤ 250) }
    {
        let away = self.len().saturating_sub(label);
        if away <= FAR {
            return Ok(label);
        }
        self.put(Instr::Jump(away as u32))?;
        Ok(self.len())
    }

    /// Puts a branch in front, to the label for a test that is met and the label for one that isn't.
    pub(crate) fn branch(
        &mut self,
        test: Test,
        k: u32,
        met: usize,
        unmet: usize,
    ) -> Result<Ways, AllocError>
        ensures { IfOk result (IsMade (branched test k self.old met unmet) self.new) }
    {
        let met = self.near(met)?;
        let unmet = self.near(unmet)?;
        let jt = self.len().saturating_sub(met) as u8;
        let jf = self.len().saturating_sub(unmet) as u8;
        self.put(Instr::Branch {
            test,
            by: By::Imm(k),
            jt,
            jf,
        })?;
        Ok(Ways {
            entry: self.len(),
            met,
            unmet,
        })
    }

    /// The instructions, the first first.
    pub(crate) fn into_code(self) -> Vec<Instr>
        ensures { result.items ≡ self }
    {
        let mut code = self.reversed;
        code.reverse();
        code
    }
}
