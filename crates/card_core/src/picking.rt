//! The look-up of a cell's connection, and the run of its program, which names a contract.

use bpf_interp::run;
use bpf_verify::Program;
use gen_arena::{Arena, Id};
use line_record::{Directory, Seating};
use std::marker::Model;
use upc_cell::{Cell, Vc};

/// The programs of a card, by id.
pub type Store = Arena<Program>;

/// A cell, a program, and the value that the program gave for the cell: the number of a contract, counted from 1, or any other number,
/// which names none. Only [`name`] makes one, so no cell is judged by a number that no program gave.
#[derive(Clone, Copy, Debug)]
pub struct Named {
    program: Id,
    cell: Cell,
    value: u32,
}

impl Model for Named {
    ghost use Rattle.card_core.specs.Sections.{NamedView};

    ghost Value = { NamedView };

    ghost view = { λ n. record { program = n.program; cell = n.cell; value = n.value } };

    ghost inverse = { λ n. record { program = n.program; cell = n.cell; value = n.value } };
}

impl Named {
    ghost use Rattle.std.specs.Prelude.{◌≡◌};

    /// Returns the program that gave the value.
    #[inline]
    pub fn program(&self) -> Id
        ensures { result ≡ self.now.program }
    {
        self.program
    }

    /// Returns the cell as it arrived.
    #[inline]
    pub fn cell(&self) -> Cell
        ensures { result ≡ self.now.cell }
    {
        self.cell
    }

    /// Returns the value that the program gave: the number of a contract, counted from 1, or any other number, which names none.
    #[inline]
    pub fn value(&self) -> u32
        ensures { result ≡ self.now.value }
    {
        self.value
    }
}

ghost use Rattle.std.specs.Prelude.{◌≡◌, ◌↔◌, List, Some, IsSome, IfSome};
ghost use Rattle.bpf_code.specs.declared.instr.Instr.{Instr};
ghost use Rattle.bpf_verify.specs.Accepted.{IsAccepted};
ghost use Rattle.gen_arena.specs.Live.{live_value, IsLive};
ghost use Rattle.line_record.specs.Directory.{seating_at, IsDirectory};
ghost use Rattle.card_core.specs.Sections.{IsNaming};

/// Returns the seating of the connection, if there is one. Doesn't allocate.
#[inline]
pub fn pick(directory: &Directory, vc: Vc) -> Option<Seating>
    ensures seating { result ≡ seating_at directory.now vc }
    ensures directory { IsDirectory directory.now }
{
    directory.find(vc)
}

/// Runs the program of this id on the cell, and returns both with the program's value. None if and only if the id isn't live.
/// Doesn't allocate.
#[inline]
pub fn name(store: &Store, program: Id, cell: &Cell) -> Option<Named>
    ensures live { IsSome result ↔ IsLive store.now program }
    ensures named { IfSome result (λ named. IsNaming store.now program cell.now named) }
    ensures accepted { (code : List Instr) → live_value store.now program ≡ Some code → IsAccepted code }
{
    let outcome = run(store.get(program)?, cell);
    Some(Named {
        program,
        cell: *cell,
        value: outcome.value,
    })
}
