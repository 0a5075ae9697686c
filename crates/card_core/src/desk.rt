//! The commands of the desk, which loads programs and sets up connections. Each function changes only the parts of a card that its
//! caller passes.

ghost use Rattle.std.specs.Prelude.{◌≡◌, ◌≢◌, ◌+◌, ◌<◌, ◌^◌, ◌↔◌, length, IsOk, IsErr, IsErrOf, IsSome, IfOk, IfErr, OnOk, OnErr, MatchResult, Some, None, false, []};
ghost use Rattle.bpf_verify.specs.Accepted.{IsAccepted};
ghost use Rattle.gen_arena.specs.Free.{free_slots, NoneIsFree};
ghost use Rattle.gen_arena.specs.Insert.{Inserts};
ghost use Rattle.gen_arena.specs.Live.{live_value, IsLive};
ghost use Rattle.gen_arena.specs.Past.{KeepsPast};
ghost use Rattle.gen_arena.specs.Remove.{Removes};
ghost use Rattle.line_record.specs.Directory.{seating_at, IsNamed, IsOpenLine, Sits};
ghost use Rattle.line_record.specs.Line.{OpensLine, free_line};
ghost use Rattle.line_record.specs.Piece.{IsJournalOf, IsPiece};
ghost use Rattle.line_record.specs.StateAfter.{IsStateAfter};
ghost use Rattle.line_record.specs.declared.directory.Seating.{Seating};
ghost use Rattle.card_core.specs.Sections.{holder, Admits, IsUnfit, IsUnready, MayBecomeReady, IsUncut};

use crate::ask::Ask;
use crate::fault::DeskFault;
use crate::judging::serves;
use crate::picking::Store;
use bpf_verify::Program;
use gen_arena::Id;
use line_record::{Directory, Line, Owner, Piece, Seating};
use upc_cell::Vc;

/// Loads a program into a free slot, under an id that was never given before. No clause says which free slot. Doesn't
/// allocate.
///
/// # Errors
///
/// `ProgramsFull` with the program if and only if no slot is free.
pub fn load(store: &mut Store, program: Program) -> Result<Id, (DeskFault, Program)>
    ensures loaded { IfOk result (λ id. Inserts store.old store.new id program) }
    ensures live { IfOk result (λ id. live_value store.new id ≡ Some program) }
    ensures accepted { IsAccepted program }
    ensures full { IsErr result ↔ (free_slots store.old ≡ 0) }
    ensures none_is_free { OnErr result (NoneIsFree store.old) }
    ensures fault { IfErr result (λ refused. refused.0 ≡ DeskFault.ProgramsFull) }
    ensures returned { IfErr result (λ refused. refused.1 ≡ program) }
    ensures unchanged { OnErr result (store.new ≡ store.old) }
    ensures past { KeepsPast store.old store.new }
{
    // This call gives the fact that the code is accepted, which the contract states.
    let _ = program.code();
    match store.insert(program) {
        Ok(id) => Ok(id),
        Err(program) => Err((DeskFault::ProgramsFull, program)),
    }
}

/// Retires a program that no connection names. Its id is never live again. Doesn't allocate.
///
/// # Errors
///
/// `NoProgram` if the id isn't live; otherwise `InUse` if some connection names it.
pub fn retire(store: &mut Store, directory: &Directory, id: Id) -> Result<Program, DeskFault>
    ensures retired { IfOk result (λ program. Removes store.old store.new id program) }
    ensures no_program { IsErrOf result DeskFault.NoProgram ↔ (live_value store.old id ≡ None) }
    ensures in_use { IsErrOf result DeskFault.InUse
        ↔ (IsLive store.old id × IsNamed directory.now id) }
    ensures ok { IsOk result ↔ (IsLive store.old id × (¬ IsNamed directory.now id)) }
    ensures unchanged { OnErr result (store.new ≡ store.old) }
    ensures past { KeepsPast store.old store.new }
{
    if !store.holds(id) {
        return Err(DeskFault::NoProgram);
    }
    if directory.names(id) {
        return Err(DeskFault::InUse);
    }
    store.remove(id).ok_or(DeskFault::NoProgram)
}

/// Returns the number of a free line, on which this connection may be set up. No clause says which free line. Doesn't
/// allocate.
///
/// # Errors
///
/// The first that holds: `NoProgram` if the program isn't live, `Taken` if the virtual connection is
/// set up already, `BadContracts` if there is no contract, `NoLine` if no line is free, `Exhausted` if
/// the last incarnation was given.
pub fn admit(store: &Store, directory: &Directory, ask: &Ask) -> Result<u16, DeskFault>
    ensures { MatchResult result
        (λ line. Admits store.now directory.now ask.now line)
        (λ fault. IsUnfit store.now directory.now ask.now fault) }
{
    if !store.holds(ask.program) {
        return Err(DeskFault::NoProgram);
    }
    if directory.find(ask.vc).is_some() {
        return Err(DeskFault::Taken);
    }
    if ask.contracts.is_empty() {
        return Err(DeskFault::BadContracts);
    }
    let Some(line) = directory.free_line() else {
        return Err(DeskFault::NoLine);
    };
    if directory.worn() {
        return Err(DeskFault::Exhausted);
    }
    Ok(line)
}

/// Sets up a connection on this line. [`admit`] returns the number of a line that meets the preconditions. All
/// allocations come before any other change.
///
/// # Errors
///
/// Each error returns the request. `Stale` if the line isn't free; nothing changes. Otherwise `NoMemory` if an
/// allocation fails. Then only the line may have changed: it may have space reserved for its next journal. Space that was
/// reserved before stays.
pub fn setup(
    directory: &mut Directory,
    line: &mut Line,
    number: u16,
    ask: Ask,
) -> Result<Owner, (DeskFault, Ask)>
    requires absent { seating_at directory.old ask.vc ≡ None }
    requires within { number < directory.old.lines }
    requires open { IsOpenLine directory.old number }
    requires some { 0 < length ask.contracts.items }
    requires unworn { directory.old.used < 2 ^ 62 }

    // After success the connection has its seating and its line, and no cell yet.
    ensures owner { IfOk result (λ owner.
        owner ≡ record { vc = ask.vc; incarnation = directory.old.used + 1 }) }
    ensures free { OnOk result (line.old.owner ≡ None) }
    ensures seating { OnOk result (Sits directory.old ask.vc
        (Some (record { line = number; incarnation = directory.old.used + 1; program = ask.program }))
        directory.new) }
    ensures used { OnOk result (directory.new.used ≡ directory.old.used + 1) }
    ensures opened { IfOk result (λ owner. OpensLine line.old owner ask.contracts.items line.new) }
    ensures history { OnOk result (IsStateAfter ask.contracts.items [] line.new.state) }

    // There are two errors. After Stale nothing changed. After NoMemory the line may be ready now, and
    // nothing else changed.
    ensures refused { IfErr result (λ refused. IsUnready line.old refused.0) }
    ensures returned { IfErr result (λ refused. refused.1 ≡ ask) }
    ensures directory_unchanged { OnErr result (directory.new ≡ directory.old) }
    ensures line_stale { IfErr result (λ refused. refused.0 ≡ DeskFault.Stale → line.new ≡ line.old) }
    ensures line_unchanged { OnErr result (MayBecomeReady line.old line.new) }

    ensures lines { directory.new.lines ≡ directory.old.lines }
    ensures counts { line.new.state.counts ≡ line.old.state.counts }
{
    if !line.is_free() {
        return Err((DeskFault::Stale, ask));
    }
    if line.prepare().is_err() {
        return Err((DeskFault::NoMemory, ask));
    }
    let Ok(incarnation) = directory.put(ask.vc, number, ask.program) else {
        return Err((DeskFault::NoMemory, ask));
    };
    let owner = Owner {
        vc: ask.vc,
        incarnation,
    };
    match line.open(owner, ask.contracts) {
        Ok(()) => Ok(owner),
        Err(_) => unreachable!(),
    }
}

/// Gives a connection another program and returns the earlier one. The connection's buckets and journal are unchanged.
/// Doesn't allocate.
///
/// # Errors
///
/// `NoProgram` if the program isn't live; otherwise `NoConnection` if there is no connection.
pub fn reload(
    store: &Store,
    directory: &mut Directory,
    vc: Vc,
    program: Id,
) -> Result<Id, DeskFault>
    ensures no_program { IsErrOf result DeskFault.NoProgram ↔ (live_value store.now program ≡ None) }
    ensures no_connection { IsErrOf result DeskFault.NoConnection
        ↔ (IsLive store.now program × (seating_at directory.old vc ≡ None)) }
    ensures ok { IsOk result ↔ (IsLive store.now program × IsSome (seating_at directory.old vc)) }
    ensures reloaded { IfOk result (λ before. (seating : Seating) → seating_at directory.old vc ≡ Some seating
        → (before ≡ seating.program)
        × Sits directory.old vc (Some (record seating { program = program })) directory.new) }
    ensures unchanged { OnErr result (directory.new ≡ directory.old) }
    ensures used { directory.new.used ≡ directory.old.used }
    ensures lines { directory.new.lines ≡ directory.old.lines }
{
    if !store.holds(program) {
        return Err(DeskFault::NoProgram);
    }
    directory
        .move_to(vc, program)
        .ok_or(DeskFault::NoConnection)
}

/// Releases a connection from the line that the directory has for it, and returns its last journal. Doesn't allocate.
///
/// # Errors
///
/// `Stale` if and only if the line doesn't serve this connection; nothing changes.
pub fn release(directory: &mut Directory, line: &mut Line, vc: Vc) -> Result<Piece, DeskFault>
    requires { IsSome (seating_at directory.old vc) }
    ensures served { (seating : Seating) → seating_at directory.old vc ≡ Some seating → MatchResult result
        (λ _. line.old.owner ≡ Some (holder vc seating))
        (λ fault. (fault ≡ DeskFault.Stale) × (line.old.owner ≢ Some (holder vc seating))) }
    ensures piece { IfOk result (λ piece. IsJournalOf line.old piece) }
    ensures run { IfOk result (λ piece. IsPiece piece) }
    ensures gone { OnOk result (Sits directory.old vc None directory.new) }
    ensures freed { OnOk result
        (line.new ≡ free_line line.old.journal line.old.state.counts false) }
    ensures directory_unchanged { OnErr result (directory.new ≡ directory.old) }
    ensures line_unchanged { OnErr result (line.new ≡ line.old) }
    ensures used { directory.new.used ≡ directory.old.used }
    ensures lines { directory.new.lines ≡ directory.old.lines }
    ensures counts { line.new.state.counts ≡ line.old.state.counts }
{
    let Some(seating) = directory.find(vc) else {
        unreachable!()
    };
    if !serves(line, vc, &seating) {
        return Err(DeskFault::Stale);
    }
    directory.take(vc);
    Ok(line.close())
}

/// Returns a connection's journal and begins a new one. Allocates the new one first.
///
/// # Errors
///
/// `Stale` if the line doesn't serve this connection; otherwise `NoMemory` if an allocation fails. Nothing changes.
pub fn cut(line: &mut Line, vc: Vc, seating: &Seating) -> Result<Piece, DeskFault>
    ensures served { OnOk result (line.old.owner ≡ Some (holder vc seating.now)) }
    ensures refused { IfErr result (λ fault. IsUncut line.old (holder vc seating.now) fault) }
    ensures piece { IfOk result (λ piece. IsJournalOf line.old piece) }
    ensures run { IfOk result (λ piece. IsPiece piece) }
    ensures begun { OnOk result
        (line.new ≡ record line.old { start = line.old.state; entries = [] }) }
    ensures unchanged { OnErr result (line.new ≡ line.old) }
    ensures owner { line.new.owner ≡ line.old.owner }
    ensures counts { line.new.state.counts ≡ line.old.state.counts }
{
    if !serves(line, vc, seating) {
        return Err(DeskFault::Stale);
    }
    match line.cut() {
        Ok(piece) => Ok(piece),
        Err(_) => Err(DeskFault::NoMemory),
    }
}
