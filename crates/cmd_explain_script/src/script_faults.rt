//! The faults of a script, by the fault lines of `upc run`.

ghost use Rattle.std.specs.Prelude.{◌≡◌, map};
ghost use Rattle.cmd_explain_script.specs.ScriptFaults.{cell_faults, code_faults, desk_faults, fault_among, is_fault_line, explained_fault, word_faults};

use crate::found_words::front;

/// The fault of a line of a script.
#[derive(Clone, Copy)]
pub enum ScriptFault {
    /// The words are no command.
    BadLine,
    /// The words open no card.
    NoCard,
    /// A word isn't hexadecimal.
    BadHex,
    /// The octets are no cell.
    WrongLength,
    /// The card has no or too many programs.
    ManyPrograms,
    /// The card has no or too many lines.
    ManyLines,
    /// The card has no or too many ports.
    ManyPorts,
    /// The card has no or too long journals.
    LongJournal,
    /// An increment is 0.
    ZeroIncrement,
    /// A number of a bucket is too large.
    LargeRate,
    /// The octets of a program are no multiple of eight.
    Ragged,
    /// A program has an unknown code.
    UnknownCode,
    /// A program has no instruction.
    NoInstruction,
    /// A program has too many instructions.
    LongCode,
    /// A program names a scratch word that isn't there.
    BadScratch,
    /// A program divides by 0.
    ZeroDivisor,
    /// A program shifts too far.
    BadShift,
    /// A program jumps outside.
    JumpOutside,
    /// A program's last instruction is no return.
    NoReturn,
    /// A program reads a scratch word that isn't written.
    Unwritten,
    /// There is no such program.
    NoProgram,
    /// There is no such connection.
    NoConnection,
    /// There is such a connection already.
    Taken,
    /// Every line has a connection.
    NoLine,
    /// A connection names the program.
    InUse,
    /// There is no room for a program.
    ProgramsFull,
    /// No connection can be set up any more.
    Exhausted,
    /// There are no contracts, or too many.
    BadContracts,
    /// A port has a cell of the connection.
    Busy,
    /// The line has another connection.
    StaleLine,
    /// The connection of a cell isn't set up.
    CellUnknown,
    /// The connection of a cell was released.
    CellReleased,
    /// The line of a cell has another connection.
    CellStale,
    /// A moment is before that of the last cell.
    MomentBack,
    /// A moment is too late.
    MomentTooLate,
    /// The journal of a cell's connection is full.
    JournalFull,
}

/// The beginnings of fault lines about a line's words.
pub(crate) const WORD_FAULTS: [(&[u8], ScriptFault); 10] = [
    (b"fault script 1 ", ScriptFault::BadLine),
    (b"fault script 2 ", ScriptFault::NoCard),
    (b"fault script 3 ", ScriptFault::BadHex),
    (b"fault cell 1 ", ScriptFault::WrongLength),
    (b"fault shape 1 ", ScriptFault::ManyPrograms),
    (b"fault shape 2 ", ScriptFault::ManyLines),
    (b"fault shape 3 ", ScriptFault::ManyPorts),
    (b"fault shape 4 ", ScriptFault::LongJournal),
    (b"fault gcra 1 ", ScriptFault::ZeroIncrement),
    (b"fault gcra 2 ", ScriptFault::LargeRate),
];

/// The beginnings of fault lines about a program's octets.
pub(crate) const CODE_FAULTS: [(&[u8], ScriptFault); 10] = [
    (b"fault decode 1 ", ScriptFault::Ragged),
    (b"fault decode 2 ", ScriptFault::UnknownCode),
    (b"fault verify 1 ", ScriptFault::NoInstruction),
    (b"fault verify 2 ", ScriptFault::LongCode),
    (b"fault verify 3 ", ScriptFault::BadScratch),
    (b"fault verify 4 ", ScriptFault::ZeroDivisor),
    (b"fault verify 5 ", ScriptFault::BadShift),
    (b"fault verify 6 ", ScriptFault::JumpOutside),
    (b"fault verify 7 ", ScriptFault::NoReturn),
    (b"fault verify 8 ", ScriptFault::Unwritten),
];

/// The beginnings of the desk's fault lines.
pub(crate) const DESK_FAULTS: [(&[u8], ScriptFault); 10] = [
    (b"fault desk 1 ", ScriptFault::NoProgram),
    (b"fault desk 2 ", ScriptFault::NoConnection),
    (b"fault desk 3 ", ScriptFault::Taken),
    (b"fault desk 4 ", ScriptFault::NoLine),
    (b"fault desk 5 ", ScriptFault::InUse),
    (b"fault desk 6 ", ScriptFault::ProgramsFull),
    (b"fault desk 7 ", ScriptFault::Exhausted),
    (b"fault desk 8 ", ScriptFault::BadContracts),
    (b"fault desk 9 ", ScriptFault::Busy),
    (b"fault desk 11 ", ScriptFault::StaleLine),
];

/// The beginnings of fault lines about cells that aren't judged.
pub(crate) const CELL_FAULTS: [(&[u8], ScriptFault); 6] = [
    (b"fault arrive 1 ", ScriptFault::CellUnknown),
    (b"fault arrive 2 ", ScriptFault::CellReleased),
    (b"fault arrive 3 ", ScriptFault::CellStale),
    (b"fault arrive 4 ", ScriptFault::MomentBack),
    (b"fault arrive 5 ", ScriptFault::MomentTooLate),
    (b"fault arrive 6 ", ScriptFault::JournalFull),
];

/// Returns whether an answer is a fault line.
pub(crate) fn is_fault_line(answer: &[u8]) -> bool
    ensures { result ≡ is_fault_line answer.now }
{
    front(answer, 6) == b"fault ".as_slice()
}

/// Returns the fault of the first of these rows that an answer begins with.
fn fault_among(answer: &[u8], rows: &[(&[u8], ScriptFault)]) -> Option<ScriptFault>
    ensures { result ≡ fault_among answer.now (map (λ row. (row.0.now, row.1)) rows.now) }
{
    let mut left = rows;
    while let [row, rest @ ..] = left {
        if front(answer, row.0.len()) == row.0 {
            return Some(row.1);
        }
        left = rest;
    }
    None
}

fn word_fault(answer: &[u8]) -> Option<ScriptFault>
    ensures { result ≡ fault_among answer.now word_faults }
{
    fault_among(answer, &WORD_FAULTS)
}

fn code_fault(answer: &[u8]) -> Option<ScriptFault>
    ensures { result ≡ fault_among answer.now code_faults }
{
    fault_among(answer, &CODE_FAULTS)
}

fn desk_fault(answer: &[u8]) -> Option<ScriptFault>
    ensures { result ≡ fault_among answer.now desk_faults }
{
    fault_among(answer, &DESK_FAULTS)
}

fn cell_fault(answer: &[u8]) -> Option<ScriptFault>
    ensures { result ≡ fault_among answer.now cell_faults }
{
    fault_among(answer, &CELL_FAULTS)
}

/// Returns the fault of a fault line.
pub(crate) fn explained_fault(answer: &[u8]) -> Option<ScriptFault>
    ensures { result ≡ explained_fault answer.now }
{
    if let Some(fault) = word_fault(answer) {
        return Some(fault);
    }
    if let Some(fault) = code_fault(answer) {
        return Some(fault);
    }
    if let Some(fault) = desk_fault(answer) {
        return Some(fault);
    }
    cell_fault(answer)
}
