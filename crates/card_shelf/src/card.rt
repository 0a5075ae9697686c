//! One card of a shelf.

ghost use Rattle.std.specs.Prelude.{◌≡◌, ◌<◌, ◌≤◌, All, None, OnErr, OnOk, length, vec_capacity};
ghost use Rattle.card_core.specs.Inspection.{load_fault_of, IsRetireFault};
ghost use Rattle.card_shelf.specs.Own.{ServesAll};
ghost use Rattle.card_shelf.specs.Programs.{LoadsOn, RetiresOn};
ghost use Rattle.card_shelf.specs.inner.Cards.{IsReady};
ghost use Rattle.card_shelf.specs.inner.Places.{picked};
ghost use Rattle.card_shelf.specs.inner.Rest.{IsAtRest};

use crate::arrival::{Arrival, Decision};
use crate::gate::Gate;
use bpf_verify::Program;
use card_core::Core;
use gen_arena::Id;
use std::alloc::AllocError;

/// A card of a shelf, with a list for the answers to its arrivals. It refers to nothing else on the shelf, so a thread may
/// have it for itself.
#[derive(Drop)]
pub(crate) struct Card {
    pub(crate) core: Core,
    pub(crate) decisions: Vec<Decision>,
}

impl Card {
    /// Drops its earlier answers, and reserves room for this number of answers.
    pub(crate) fn make_room(&mut self, many: usize) -> Result<(), AllocError>
        ensures core { self.new.core ≡ self.old.core }
        ensures ready { OnOk result (IsReady self.new many) }
        ensures grown { vec_capacity self.old.decisions ≤ vec_capacity self.new.decisions }
        ensures full { OnErr result (vec_capacity self.old.decisions < many) }
    {
        self.decisions.clear();
        self.decisions.reserve(many)
    }

    /// Polices the arrivals at these places, one after another, and adds the answer to each. Before the first is the gate.
    pub(crate) fn police<G: Gate>(&mut self, gate: &G, arrivals: &[Arrival], places: &[usize])
        requires within { All (λ place. place < length arrivals.now) places.now }
        requires ready { IsReady self.old (length places.now) }
        requires rest { IsAtRest self.old.core }
        ensures served { ServesAll self.old.core (picked arrivals.now places.now) self.new.decisions.items self.new.core }
        ensures rest { IsAtRest self.new.core }
        ensures capacity { vec_capacity self.new.decisions ≡ vec_capacity self.old.decisions }
    {
        gate.before_arrivals();
        for place in places {
            let arrival = &arrivals[*place];
            let Some(decision) = self.core.arrive(0, &arrival.cell, arrival.moment) else {
                unreachable!()
            };
            self.decisions.push_reserved(decision);
        }
    }

    /// Loads a program that the card has no reason to refuse.
    pub(crate) fn load(&mut self, program: Program) -> Id
        requires free { load_fault_of self.old.core ≡ None }
        ensures loaded { LoadsOn program result self.old.core self.new.core }
    {
        match self.core.load(program) {
            Ok(id) => id,
            Err(_) => unreachable!(),
        }
    }

    /// Retires the program of this id, which the card has no reason to keep.
    pub(crate) fn retire(&mut self, id: Id)
        requires free { IsRetireFault self.old.core id None }
        ensures retired { RetiresOn id self.old.core self.new.core }
    {
        match self.core.retire(id) {
            Ok(_) => {}
            Err(_) => unreachable!(),
        }
    }
}
