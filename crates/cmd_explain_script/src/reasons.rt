//! The explanation of a fault line.

ghost use Rattle.std.specs.Prelude.{◌≡◌, ◌++◌, OnOk};
ghost use Rattle.std.specs.Option.{is_some};
ghost use Rattle.text_script.specs.Rates.{rate_fault};
ghost use Rattle.text_script.specs.ScriptWords.{wanted_of};
ghost use Rattle.cmd_explain_script.specs.FoundWords.{found_words};
ghost use Rattle.cmd_explain_script.specs.ScriptReasons.{bad_contract, bad_of_two, bucket_name, contract_at, is_of_bucket, own_sentence, blamed_word, cell_fault_text, code_fault_text, desk_fault_text, fault_explanation, blamed_place, fault_sentence, script_fault_text, follows_text, has_bad_bucket, is_no_command, may_follow, program_place, script_explanation, word_fault_text};

use crate::found_words::{FoundWord, after, column_of, word_octets, words_of};
use crate::places::add_place;
use crate::script_faults::{ScriptFault, explained_fault};
use crate::wrong_words::{add_wrong, word_at, wrong_word};
use arrayvec::ArrayVec;
use std::alloc::Global;
use text_io::Added;
use text_script::{Rate, Wanted, checked_contracts, wanted_contract};
use text_words::add_text;
use upc_cell::Side;

/// Returns whether a bucket of a contract has a fault.
fn has_bad_bucket(wanted: Option<Wanted>) -> bool
    ensures { result ≡ has_bad_bucket wanted }
{
    match wanted {
        None => false,
        Some(wanted) => {
            let mut one: ArrayVec<Wanted, 4> = ArrayVec::new();
            one.push(wanted);
            checked_contracts(&one).is_err()
        }
    }
}

/// Returns the place in a line, from 0, of the first contract with a bad bucket. `words` are those from place 4 on, where contracts begin
/// in a setup.
fn bad_contract(line: &[u8], words: &[FoundWord]) -> usize
    ensures { result ≡ bad_contract line.now 4 words.now }
{
    let mut left = words;
    let mut place = 4;
    while let [word, rest @ ..] = left {
        if has_bad_bucket(wanted_contract(word_octets(line, *word))) {
            return place;
        }
        place += 1;
        left = rest;
    }
    place
}

/// Returns the place of the word that names a program.
fn program_place(line: &[u8], words: &[FoundWord]) -> usize
    ensures { result ≡ program_place line.now words.now }
{
    match words {
        [] => 0,
        [first, ..] => {
            if word_octets(line, *first) == b"retire".as_slice() {
                1
            } else {
                3
            }
        }
    }
}

/// Returns the place of the word that a fault is about, from 0.
fn blamed_place(fault: ScriptFault, line: &[u8], words: &[FoundWord]) -> usize
    ensures { result ≡ blamed_place fault line.now words.now }
{
    match fault {
        ScriptFault::BadHex | ScriptFault::WrongLength => words.len().saturating_sub(1),
        ScriptFault::ManyPrograms => 1,
        ScriptFault::ManyLines => 2,
        ScriptFault::ManyPorts => 3,
        ScriptFault::LongJournal => 4,
        ScriptFault::ZeroIncrement | ScriptFault::LargeRate => {
            bad_contract(line, after(words, 4))
        }
        ScriptFault::Ragged
        | ScriptFault::UnknownCode
        | ScriptFault::NoInstruction
        | ScriptFault::LongCode
        | ScriptFault::BadScratch
        | ScriptFault::ZeroDivisor
        | ScriptFault::BadShift
        | ScriptFault::JumpOutside
        | ScriptFault::NoReturn
        | ScriptFault::Unwritten
        | ScriptFault::NoConnection
        | ScriptFault::Taken
        | ScriptFault::InUse
        | ScriptFault::Busy
        | ScriptFault::MomentBack
        | ScriptFault::MomentTooLate => 1,
        ScriptFault::NoProgram => program_place(line, words),
        ScriptFault::CellUnknown | ScriptFault::CellReleased | ScriptFault::CellStale => 2,
        ScriptFault::BadLine
        | ScriptFault::NoCard
        | ScriptFault::NoLine
        | ScriptFault::ProgramsFull
        | ScriptFault::Exhausted
        | ScriptFault::BadContracts
        | ScriptFault::StaleLine
        | ScriptFault::JournalFull => 0,
    }
}

/// Returns the sentence about a fault of the line's words, or nothing.
pub(crate) fn word_fault_text(fault: ScriptFault) -> &'static [u8]
    ensures { result.now ≡ word_fault_text fault }
{
    match fault {
        ScriptFault::BadHex => b"this word is no octets; each octet is two hexadecimal digits",
        ScriptFault::WrongLength => {
            b"a cell has 104 hexadecimal digits, or 8 for a header with a payload of zeros"
        }
        ScriptFault::ManyPrograms => b"a card is for 1 to 1024 programs",
        ScriptFault::ManyLines => b"a card has 1 to 4096 lines, one for each connection",
        ScriptFault::ManyPorts => b"a card has 1 to 16 ports",
        ScriptFault::LongJournal => b"a journal has room for 1 to 65536 cells between two cuts",
        ScriptFault::ZeroIncrement => {
            b" has the increment 0; an increment is 1 to 281474976710656 ticks"
        }
        ScriptFault::LargeRate => { b" has a number above 281474976710656 ticks" }
        _ => &[],
    }
}

/// Returns the sentence about a fault of a program's octets, or nothing.
pub(crate) fn code_fault_text(fault: ScriptFault) -> &'static [u8]
    ensures { result.now ≡ code_fault_text fault }
{
    match fault {
        ScriptFault::Ragged => {
            b"an instruction is 16 hexadecimal digits, and the last one has fewer"
        }
        ScriptFault::UnknownCode => {
            b"no instruction has this code; `upc check` prints the octets of a source"
        }
        ScriptFault::NoInstruction => b"a program has at least one instruction",
        ScriptFault::LongCode => b"a program has at most 4096 instructions",
        ScriptFault::BadScratch => {
            b"this instruction of the program, counted from 0, names a scratch word of 16 or above; there are M[0] to M[15]"
        }
        ScriptFault::ZeroDivisor => {
            b"this instruction of the program, counted from 0, divides by the constant 0"
        }
        ScriptFault::BadShift => {
            b"this instruction of the program, counted from 0, shifts by a constant of 32 or more"
        }
        ScriptFault::JumpOutside => {
            b"this instruction of the program, counted from 0, jumps past the last one"
        }
        ScriptFault::NoReturn => b"the last instruction of the program is no return",
        ScriptFault::Unwritten => {
            b"this instruction of the program, counted from 0, reads a scratch word that some path to it does not store; `upc-lab explain` of the source shows the path"
        }
        _ => &[],
    }
}

/// Returns the sentence about a fault of the desk, or nothing.
pub(crate) fn desk_fault_text(fault: ScriptFault) -> &'static [u8]
    ensures { result.now ≡ desk_fault_text fault }
{
    match fault {
        ScriptFault::NoProgram => {
            b"no program has this name; the N-th program loaded is pN, and a retired one is gone"
        }
        ScriptFault::NoConnection => b"there is no such connection; `setup` makes one",
        ScriptFault::Taken => {
            b"there is such a connection already; `reload` gives it another program, and `release` ends it"
        }
        ScriptFault::NoLine => b"each line of the card has a connection; `release` ends one",
        ScriptFault::InUse => {
            b"a connection names this program; `reload` or `release` the connection first"
        }
        ScriptFault::ProgramsFull => b"the card has no room for a program; `retire` makes some",
        ScriptFault::Exhausted => b"this card has set up all connections that it can",
        ScriptFault::BadContracts => b"a connection has one to four contracts",
        ScriptFault::Busy => b"a port has a cell of this connection",
        ScriptFault::StaleLine => b"the line of this connection has another one now",
        _ => &[],
    }
}

/// Returns the sentence about a cell that isn't judged, or nothing.
pub(crate) fn cell_fault_text(fault: ScriptFault) -> &'static [u8]
    ensures { result.now ≡ cell_fault_text fault }
{
    match fault {
        ScriptFault::CellUnknown => b"the connection in the header of this cell is not set up",
        ScriptFault::CellReleased => {
            b"the connection of this cell was released before the cell was judged"
        }
        ScriptFault::CellStale => b"the line of this cell has another connection now",
        ScriptFault::MomentBack => {
            b"this moment is before that of the last judged cell of the connection, which the fault names"
        }
        ScriptFault::MomentTooLate => b"a moment is at most 4611686018427387904 ticks",
        ScriptFault::JournalFull => b"the journal of the connection is full; `cut` empties it",
        _ => &[],
    }
}

/// Appends the sentence about a fault by itself.
#[tactic(auto, using(std::proofs::lemmas::List::append_assoc))]
fn add_fault_text(answers: &mut Vec<u8>, fault: ScriptFault) -> Added
    ensures { OnOk result (answers.new.items ≡ answers.old.items ++ script_fault_text fault) }
{
    add_text(answers, word_fault_text(fault))?;
    add_text(answers, code_fault_text(fault))?;
    add_text(answers, desk_fault_text(fault))?;
    add_text(answers, cell_fault_text(fault))
}

/// Returns whether a bucket is at fault.
fn is_of_bucket(fault: ScriptFault) -> bool
    ensures { result ≡ is_of_bucket fault }
{
    matches!(fault, ScriptFault::ZeroIncrement | ScriptFault::LargeRate)
}

/// Returns whether a bucket has a fault.
fn is_bad(rate: Rate) -> bool
    ensures { result ≡ is_some (rate_fault rate) }
{
    rate.increment == 0 || rate.increment > 281474976710656 || rate.limit > 281474976710656
}

/// Returns the name of the first bad bucket of two.
fn bad_of_two(peak: Rate) -> &'static [u8]
    ensures { result.now ≡ bad_of_two peak }
{
    if is_bad(peak) {
        b"the bucket of the peak rate"
    } else {
        b"the bucket of the sustained rate"
    }
}

/// Returns the name of the first bad bucket of a contract.
fn bucket_name(wanted: Option<Wanted>) -> &'static [u8]
    ensures { result.now ≡ bucket_name wanted }
{
    match wanted {
        None => &[],
        Some(Wanted::Cbr1(_)) => b"the bucket of this contract",
        Some(Wanted::Vbr1(peak, _)) => bad_of_two(peak),
        Some(Wanted::Vbr2(peak, _)) => bad_of_two(peak),
        Some(Wanted::Vbr3(peak, _)) => bad_of_two(peak),
    }
}

/// Returns the contract that a word spells, if there is one.
fn contract_at(line: &[u8], word: Option<FoundWord>) -> Option<Wanted>
    ensures { result ≡ contract_at line.now word }
{
    match word {
        None => None,
        Some(word) => wanted_contract(word_octets(line, word)),
    }
}

/// Appends the sentence about a fault by itself, on a line with these words.
#[tactic(auto, using(std::proofs::lemmas::List::append_assoc))]
fn add_own(answers: &mut Vec<u8>, fault: ScriptFault, line: &[u8], words: &[FoundWord]) -> Added
    ensures { OnOk result (answers.new.items ≡ answers.old.items ++ own_sentence fault line.now words.now) }
{
    if is_of_bucket(fault) {
        let word = word_at(words, blamed_place(fault, line, words));
        add_text(answers, bucket_name(contract_at(line, word)))?;
        add_text(answers, word_fault_text(fault))
    } else {
        add_fault_text(answers, fault)
    }
}

/// Returns whether the line is no command.
pub(crate) fn is_no_command(fault: ScriptFault) -> bool
    ensures { result ≡ is_no_command fault }
{
    matches!(fault, ScriptFault::BadLine | ScriptFault::NoCard)
}

/// Returns the word that a fault is about, if it is about one.
fn blamed_word(
    side: Option<Side>,
    line: &[u8],
    words: &[FoundWord],
    found: Option<ScriptFault>,
) -> Option<FoundWord>
    ensures { result ≡ blamed_word side line.now words.now found }
{
    match found {
        None => None,
        Some(fault) => {
            if is_no_command(fault) {
                wrong_word(side, line, words)
            } else {
                word_at(words, blamed_place(fault, line, words))
            }
        }
    }
}

/// Appends the sentence about a fault.
fn add_sentence(
    answers: &mut Vec<u8>,
    side: Option<Side>,
    line: &[u8],
    words: &[FoundWord],
    found: Option<ScriptFault>,
) -> Added
    ensures { OnOk result (answers.new.items ≡ answers.old.items ++ fault_sentence side line.now words.now found) }
{
    match found {
        None => Ok(()),
        Some(fault) => {
            if is_no_command(fault) {
                add_wrong(answers, side, line, words)
            } else {
                add_own(answers, fault, line, words)
            }
        }
    }
}

/// Returns whether a fault may come from an earlier line that was not carried out.
fn may_follow(fault: ScriptFault) -> bool
    ensures { result ≡ may_follow fault }
{
    matches!(
        fault,
        ScriptFault::NoProgram | ScriptFault::NoConnection | ScriptFault::CellUnknown
    )
}

/// Returns what follows the sentence about such a fault, if an earlier line has a fault.
fn follows_text(faulty: bool, found: Option<ScriptFault>) -> &'static [u8]
    ensures { result.now ≡ follows_text faulty found }
{
    match found {
        None => &[],
        Some(fault) => {
            if faulty && may_follow(fault) {
                b"; an earlier line with a fault may be the reason"
            } else {
                &[]
            }
        }
    }
}

/// Appends the explanation of a fault: the number of its line, the column of the word that is wrong, and a sentence.
/// `faulty` says whether an earlier line has a fault.
#[tactic(auto, using(std::proofs::lemmas::List::append_assoc))]
fn add_fault_explanation(
    answers: &mut Vec<u8>,
    faulty: bool,
    side: Option<Side>,
    number: usize,
    line: &[u8],
    words: &[FoundWord],
    found: Option<ScriptFault>,
) -> Added
    ensures { OnOk result (answers.new.items ≡ answers.old.items ++ fault_explanation faulty side number line.now words.now found) }
{
    add_place(
        answers,
        number,
        column_of(blamed_word(side, line, words, found)),
    )?;
    add_sentence(answers, side, line, words, found)?;
    add_text(answers, follows_text(faulty, found))?;
    answers.push(b'\n')?;
    Ok(())
}

/// Appends the explanation of a fault line, on a card of this side or before there is one. `faulty` says whether an earlier line has a
/// fault.
pub(crate) fn add_script_explanation(
    alloc: Global,
    answers: &mut Vec<u8>,
    faulty: bool,
    side: Option<Side>,
    number: usize,
    line: &[u8],
    answer: &[u8],
) -> Added
    ensures { OnOk result (answers.new.items ≡ answers.old.items ++ script_explanation faulty side number line.now answer.now) }
{
    let words = words_of(alloc, line)?;
    let fault = explained_fault(answer);
    add_fault_explanation(answers, faulty, side, number, line, &words, fault)
}
