//! The directory of a running card.

ghost use Rattle.std.specs.Prelude.{◌≡◌};

use crate::ledgers::Ledgers;
use bpf_verify::Program;
use card_core::{Ask, DeskFault, Named, Store, admit, name, pick, reload, retire};
use gen_arena::Id;
use line_record::{Directory, Seating};
use std::alloc::Global;
use std::marker::PhantomData;
use upc_cell::{Cell, Vc};

/// The data behind the directory's lock: the directory of the card's lines.
#[derive(Drop)]
pub(crate) struct Seatings<S: Ledgers> {
    pub(crate) directory: Directory,
    of: PhantomData<S>,
    ghost all_lines: { directory.lines ≡ S.names.lines },
}

/// A connection that was looked up for a cell, and the programs, whose read lock was taken before.
///
/// Only [`Seatings::look_up`] makes one, and it borrows the programs. So their read lock is held from before the look-up until
/// the cell is answered, and no program is retired in between. That the connection's program is among them is only tested.
#[derive(Clone, Copy)]
pub(crate) struct Found<'s> {
    seating: Seating,
    programs: &'s Store,
}

impl Found<'_> {
    ghost use Rattle.std.specs.Prelude.{◌≡◌, ◌↔◌, List, Some, IsSome, IfSome};
    ghost use Rattle.bpf_code.specs.declared.instr.Instr.{Instr};
    ghost use Rattle.bpf_verify.specs.Accepted.{IsAccepted};
    ghost use Rattle.gen_arena.specs.Live.{live_value, IsLive};
    ghost use Rattle.card_core.specs.Sections.{IsNaming};

    /// Returns the line, the incarnation and the program of the connection. A connection has a seating; a port has a seat.
    #[inline]
    pub(crate) fn seating(&self) -> &Seating
        ensures { result.now ≡ self.now.seating }
    {
        &self.seating
    }

    /// Runs the connection's program on the cell, and returns both with the program's value. None if and only if the program
    /// isn't live.
    #[inline]
    pub(crate) fn name(&self, cell: &Cell) -> Option<Named>
        // As `name` of `card_core`, on the programs that were read.
        ensures live { IsSome result ↔ IsLive self.now.programs.now self.now.seating.program }
        ensures named { IfSome result (λ named.
            IsNaming self.now.programs.now self.now.seating.program cell.now named) }
        ensures accepted { (code : List Instr)
            → live_value self.now.programs.now self.now.seating.program ≡ Some code → IsAccepted code }
    {
        name(self.programs, self.seating.program, cell)
    }
}

impl<S: Ledgers> Seatings<S> {
    ghost use Rattle.std.specs.Prelude.{◌≡◌, ◌<◌, ◌≤◌, ◌↔◌, None, Some, MatchResult, IfSome, IfOk, IfErr, IsErrOf, OnErr, option_map};
    ghost use Rattle.bpf_verify.specs.Accepted.{IsAccepted};
    ghost use Rattle.gen_arena.specs.Live.{live_value, IsLive};
    ghost use Rattle.gen_arena.specs.Remove.{Removes};
    ghost use Rattle.line_record.specs.Directory.{seating_at, IsDirectory, IsNamed, Sits};
    ghost use Rattle.line_record.specs.declared.directory.Seating.{Seating as TheSeating};
    ghost use Rattle.card_core.specs.Sections.{Admits, IsUnfit};
    ghost use Rattle.port_card.specs.Answers.{IsOfSetup, IsOfRetirement, IsOfReload};

    /// The directory of a card without connections. Returns none if an allocation fails.
    pub(crate) fn new(alloc: Global, lines: u16) -> Option<Self>
        requires lines { lines ≡ S.names.lines }
        requires some { 0 < lines }
    {
        let directory = Directory::new(alloc, lines, 1).ok()?;
        Some(Seatings {
            directory,
            of: PhantomData,
        })
    }

    /// Returns the seating of the connection, if there is one, as [`pick`] of `card_core` does.
    #[inline]
    pub(crate) fn find(&self, vc: Vc) -> Option<Seating>
        ensures seating { result ≡ seating_at self.now.directory vc }
        ensures within { IfSome result (λ seating. seating.line < S.names.lines) }
        ensures directory { IsDirectory self.now.directory }
    {
        pick(&self.directory, vc)
    }

    /// Looks up the connection of a cell, while the caller holds the read lock of these programs. None if there is no
    /// such connection.
    #[inline]
    pub(crate) fn look_up<'s>(&self, programs: &'s Store, vc: Vc) -> Option<Found<'s>>
        ensures seating { option_map (λ found. found.seating) result ≡ seating_at self.now.directory vc }
        ensures within { IfSome result (λ found. found.seating.line < S.names.lines) }
        ensures programs { IfSome result (λ found. found.programs.now ≡ programs.now) }
    {
        match self.find(vc) {
            Some(seating) => Some(Found { seating, programs }),
            None => None,
        }
    }

    /// Retires a program that no connection names.
    pub(crate) fn retire(&self, store: &mut Store, id: Id) -> Result<Program, DeskFault>
        // As the locked section of `card_core`, on this store.
        ensures retired { IfOk result (λ program. Removes store.old store.new id program) }
        ensures no_program { IsErrOf result DeskFault.NoProgram ↔ (live_value store.old id ≡ None) }
        ensures in_use { IsErrOf result DeskFault.InUse
            ↔ (IsLive store.old id × IsNamed self.now.directory id) }
        ensures unchanged { OnErr result (store.new ≡ store.old) }

        ensures accepted { IfOk result (λ program. IsAccepted program) }
        ensures refused { IfErr result IsOfRetirement }
    {
        let retired = retire(store, &self.directory, id);
        if let Ok(program) = &retired {
            // Changes nothing: its contract says that the program is accepted.
            let _ = program.code();
        }
        retired
    }

    /// Returns the number of a free line for the requested setup.
    pub(crate) fn admit(&self, store: &Store, ask: &Ask) -> Result<u16, DeskFault>
        ensures admitted { MatchResult result
            (λ line. Admits store.now self.now.directory ask.now line)
            (λ fault. IsUnfit store.now self.now.directory ask.now fault) }
        ensures within { IfOk result (λ line. line < S.names.lines) }
        ensures refused { IfErr result IsOfSetup }
    {
        admit(store, &self.directory, ask)
    }

    /// Gives a connection another program and returns the earlier one.
    pub(crate) fn reload(&mut self, store: &Store, vc: Vc, program: Id) -> Result<Id, DeskFault>
        // As the locked section of `card_core`, on this directory.
        ensures no_program { IsErrOf result DeskFault.NoProgram
            ↔ (live_value store.now program ≡ None) }
        ensures no_connection { IsErrOf result DeskFault.NoConnection
            ↔ (IsLive store.now program × (seating_at self.old.directory vc ≡ None)) }
        ensures reloaded { IfOk result (λ before. (seating : TheSeating) → seating_at self.old.directory vc ≡ Some seating
            → (before ≡ seating.program)
            × Sits self.old.directory vc (Some (record seating { program = program })) self.new.directory) }
        ensures unchanged { OnErr result (self.new.directory ≡ self.old.directory) }

        ensures refused { IfErr result IsOfReload }
    {
        reload(store, &mut self.directory, vc, program)
    }
}
