//! The answer lines whose content needs no card: the names of programs and connections, counts, and verdicts. Functions
//! `add_..` append to the answers. Functions `put_..` write in front of what a text has, so the last part is put first.

ghost use Rattle.std.specs.Prelude.{◌≡◌, ◌+◌, ◌≤◌, ◌++◌, codes, decimal, length, map, OnOk};
ghost use Rattle.line_record.specs.Tally.{tally_of};
ghost use Rattle.text_words.specs.FaultLines.{line};
ghost use Rattle.text_script.specs.ReplyTexts.{channel_name, connection_name, header_text, judging_text, piece_text, program_name, tally_text, verdict_text};

use leaky::Verdict;
use line_record::{Piece, Tally};
use text_io::Added;
use text_words::{TextFromEnd, add_number, add_text};
use upc_cell::{Cell, Side, Vc};

/// Adds the name of the program of this number.
#[tactic(auto, using(std::proofs::lemmas::List::append_assoc))]
fn add_program_name(answers: &mut Vec<u8>, number: u64) -> Added
    ensures { OnOk result (answers.new.items ≡ answers.old.items ++ program_name number) }
{
    answers.push(b'p')?;
    add_number(answers, number)
}

/// Adds the answer to the line that opened a card.
pub fn add_ready(answers: &mut Vec<u8>) -> Added
    ensures { OnOk result (answers.new.items ≡ answers.old.items ++ codes "ready\n") }
{
    add_text(answers, b"ready\n")
}

/// The space for the answer to a command: a word and a space of at most nine octets, two numbers of at most ten digits,
/// five of at most twenty, and seven octets between them and at the end.
const REPLY_ROOM: usize = 136;

/// Puts a connection's channel, or `*` where connections are virtual paths.
#[inline(always)]
fn put_channel<const ROOM: usize>(text: &mut TextFromEnd<ROOM>, side: Side, vci: u16)
    requires { 10 + length text.old ≤ ROOM }
    ensures text { text.new ≡ channel_name side vci ++ text.old }
    ensures length { length text.new ≤ 10 + length text.old }
{
    if side.has_paths() {
        text.put(b"*");
    } else {
        text.put_short_number(u32::from(vci));
    }
}

/// Puts a connection's path and channel.
#[inline(always)]
fn put_connection<const ROOM: usize>(text: &mut TextFromEnd<ROOM>, side: Side, vc: Vc)
    requires { 21 + length text.old ≤ ROOM }
    ensures text { text.new ≡ connection_name side vc ++ text.old }
    ensures length { length text.new ≤ 21 + length text.old }
{
    put_channel(text, side, vc.vci);
    text.put(b"/");
    text.put_short_number(u32::from(vc.vpi));
}

/// Puts the name of the program of this number.
#[inline(always)]
fn put_program<const ROOM: usize>(text: &mut TextFromEnd<ROOM>, number: u64)
    requires { 21 + length text.old ≤ ROOM }
    ensures text { text.new ≡ program_name number ++ text.old }
    ensures length { length text.new ≤ 21 + length text.old }
{
    text.put_number(number);
    text.put(b"p");
}

/// Puts a space and a number.
#[inline(always)]
fn put_count(text: &mut TextFromEnd<REPLY_ROOM>, count: u64)
    requires { length text.old ≤ 106 }
    ensures text { text.new ≡ codes " " ++ decimal count ++ text.old }
    ensures length { length text.new ≤ 21 + length text.old }
{
    text.put_number(count);
    text.put(b" ");
}

/// Adds the answer about a program: a word with a space after it, and the name with this number.
#[tactic(auto, using(std::proofs::lemmas::List::append_assoc))]
fn add_about_program(answers: &mut Vec<u8>, word: &[u8], number: u64) -> Added
    ensures { OnOk result (answers.new.items ≡ answers.old.items ++ line (word.now ++ program_name number)) }
{
    answers.extend_from_slice(word)?;
    add_program_name(answers, number)?;
    answers.push(b'\n')?;
    Ok(())
}

/// Adds the answer to a program that was loaded, whose name has this number, from 1.
pub fn add_loaded(answers: &mut Vec<u8>, number: u64) -> Added
    ensures { OnOk result
        (answers.new.items ≡ answers.old.items ++ line (codes "loaded " ++ program_name number)) }
{
    add_about_program(answers, b"loaded ", number)
}

/// Adds the answer to a program that was retired, whose name has this number.
pub fn add_retired(answers: &mut Vec<u8>, number: u64) -> Added
    ensures { OnOk result
        (answers.new.items ≡ answers.old.items ++ line (codes "retired " ++ program_name number)) }
{
    add_about_program(answers, b"retired ", number)
}

/// Adds the answer to a connection that was set up.
#[tactic(auto, using(std::proofs::lemmas::List::append_assoc))]
pub fn add_set(answers: &mut Vec<u8>, side: Side, vc: Vc) -> Added
    ensures { OnOk result
        (answers.new.items ≡ answers.old.items ++ line (codes "set " ++ connection_name side vc)) }
{
    let mut text = TextFromEnd::<REPLY_ROOM>::new();
    text.put(b"\n");
    put_connection(&mut text, side, vc);
    text.put(b"set ");
    answers.extend_from_slice(text.as_slice())
}

/// Adds the answer to a connection that was given the program whose name has this number.
#[tactic(auto, using(std::proofs::lemmas::List::append_assoc))]
pub fn add_reloaded(answers: &mut Vec<u8>, side: Side, vc: Vc, number: u64) -> Added
    ensures { OnOk result (answers.new.items ≡ answers.old.items
        ++ line (codes "reloaded " ++ connection_name side vc ++ codes " " ++ program_name number)) }
{
    let mut text = TextFromEnd::<REPLY_ROOM>::new();
    text.put(b"\n");
    put_program(&mut text, number);
    text.put(b" ");
    put_connection(&mut text, side, vc);
    text.put(b"reloaded ");
    answers.extend_from_slice(text.as_slice())
}

/// Adds a space and a number.
#[tactic(auto, using(std::proofs::lemmas::List::append_assoc))]
fn add_count(answers: &mut Vec<u8>, count: u64) -> Added
    ensures { OnOk result (answers.new.items ≡ answers.old.items ++ (codes " " ++ decimal count)) }
{
    answers.push(b' ')?;
    add_number(answers, count)
}

/// Adds the counts of each verdict, each after a space.
#[tactic(auto, using(std::proofs::lemmas::List::append_assoc))]
pub fn add_tally(answers: &mut Vec<u8>, tally: Tally) -> Added
    ensures { OnOk result (answers.new.items ≡ answers.old.items ++ tally_text tally) }
{
    add_count(answers, tally.passed)?;
    add_count(answers, tally.tagged)?;
    add_count(answers, tally.discarded)?;
    add_count(answers, tally.refused)
}

/// Returns the number of a piece's cells with each verdict: the counts at its end minus those at its start. Reads no
/// entry.
fn tally_within(piece: &Piece) -> Tally
    ensures { result ≡ tally_of (map (λ entry. entry.verdict) piece.now.entries) }
{
    // This call gives the fact that the entries lead from the start to the end, so that no count at the end is the smaller one.
    let _run = piece.entries();
    let before = piece.start().counts;
    let after = piece.end().counts;
    Tally {
        passed: after.passed - before.passed,
        tagged: after.tagged - before.tagged,
        discarded: after.discarded - before.discarded,
        refused: after.refused - before.refused,
    }
}

/// Puts the number of a piece's cells, and of those with each verdict.
#[tactic(auto, using(std::proofs::lemmas::List::append_assoc))]
fn put_piece(text: &mut TextFromEnd<REPLY_ROOM>, piece: &Piece)
    requires { length text.old ≤ 1 }
    ensures text { text.new ≡ piece_text piece.now ++ text.old }
    ensures length { length text.new ≤ 105 + length text.old }
{
    let tally = tally_within(piece);
    put_count(text, tally.refused);
    put_count(text, tally.discarded);
    put_count(text, tally.tagged);
    put_count(text, tally.passed);
    put_count(text, piece.entries().len() as u64);
}

/// Adds the answer about a connection's journal, which was returned as this piece: a word with a space after it, the connection and the
/// piece.
#[tactic(auto, using(std::proofs::lemmas::List::append_assoc))]
fn add_piece(answers: &mut Vec<u8>, word: &[u8], side: Side, vc: Vc, piece: &Piece) -> Added
    requires { length word.now ≤ 9 }
    ensures { OnOk result (answers.new.items ≡ answers.old.items
        ++ line (word.now ++ connection_name side vc ++ piece_text piece.now)) }
{
    let mut text = TextFromEnd::<REPLY_ROOM>::new();
    text.put(b"\n");
    put_piece(&mut text, piece);
    put_connection(&mut text, side, vc);
    text.put(word);
    answers.extend_from_slice(text.as_slice())
}

/// Adds the answer to a connection that was released, whose last journal is this piece.
pub fn add_released(answers: &mut Vec<u8>, side: Side, vc: Vc, piece: &Piece) -> Added
    ensures { OnOk result (answers.new.items ≡ answers.old.items
        ++ line (codes "released " ++ connection_name side vc ++ piece_text piece.now)) }
{
    add_piece(answers, b"released ", side, vc, piece)
}

/// Adds the answer to a connection whose journal was returned as this piece.
pub fn add_cut(answers: &mut Vec<u8>, side: Side, vc: Vc, piece: &Piece) -> Added
    ensures { OnOk result (answers.new.items ≡ answers.old.items
        ++ line (codes "cut " ++ connection_name side vc ++ piece_text piece.now)) }
{
    add_piece(answers, b"cut ", side, vc, piece)
}

/// The space for the answer to a cell: a verdict of at most eight octets, three numbers of at most ten digits and one
/// of at most twenty, eight digits of a header, and six octets between them and at the end.
const ANSWER_ROOM: usize = 72;

/// Puts the connection of a cell, the program that named its contract, and the value that the program gave.
#[inline(always)]
#[tactic(auto, using(std::proofs::lemmas::List::append_assoc))]
fn put_judging(text: &mut TextFromEnd<ANSWER_ROOM>, side: Side, vc: Vc, number: u64, value: u32)
    requires { length text.old ≤ 10 }
    ensures text { text.new ≡ judging_text side vc number value ++ text.old }
    ensures length { length text.new ≤ 54 + length text.old }
{
    text.put_short_number(value);
    text.put(b" ");
    put_program(text, number);
    text.put(b" ");
    put_connection(text, side, vc);
}

/// Puts the header of a leaving cell.
#[inline(always)]
fn put_header(text: &mut TextFromEnd<ANSWER_ROOM>, cell: &Cell)
    requires { length text.old ≤ 1 }
    ensures text { text.new ≡ header_text cell.now ++ text.old }
    ensures length { length text.new ≡ 9 + length text.old }
{
    let mut digits = [0; 8];
    if hex::encode_to_slice(&cell.bytes()[..4], &mut digits).is_err() {
        unreachable!();
    }
    text.put(&digits);
    text.put(b" ");
}

/// Adds the answer to a judged cell that leaves.
#[inline(always)]
#[tactic(auto, using(std::proofs::lemmas::List::append_assoc))]
fn add_leaving(
    answers: &mut Vec<u8>,
    verdict: &[u8],
    side: Side,
    vc: Vc,
    number: u64,
    value: u32,
    cell: &Cell,
) -> Added
    requires { length verdict.now ≤ 8 }
    ensures { OnOk result (answers.new.items ≡ answers.old.items
        ++ line (verdict.now ++ judging_text side vc number value ++ header_text cell.now)) }
{
    let mut text = TextFromEnd::new();
    text.put(b"\n");
    put_header(&mut text, cell);
    put_judging(&mut text, side, vc, number, value);
    text.put(verdict);
    answers.extend_from_slice(text.as_slice())
}

/// Adds the answer to a judged cell that doesn't leave.
#[inline(always)]
#[tactic(auto, using(std::proofs::lemmas::List::append_assoc))]
fn add_without_header(
    answers: &mut Vec<u8>,
    verdict: &[u8],
    side: Side,
    vc: Vc,
    number: u64,
    value: u32,
) -> Added
    requires { length verdict.now ≤ 8 }
    ensures { OnOk result (answers.new.items ≡ answers.old.items
        ++ line (verdict.now ++ judging_text side vc number value)) }
{
    let mut text = TextFromEnd::new();
    text.put(b"\n");
    put_judging(&mut text, side, vc, number, value);
    text.put(verdict);
    answers.extend_from_slice(text.as_slice())
}

/// Adds the answer to a cell with this verdict, with the header of the leaving cell if it leaves.
#[inline(always)]
pub fn add_verdict(
    answers: &mut Vec<u8>,
    verdict: Verdict,
    side: Side,
    vc: Vc,
    number: u64,
    value: u32,
    leaving: &Cell,
) -> Added
    ensures { OnOk result (answers.new.items ≡ answers.old.items
        ++ verdict_text verdict (judging_text side vc number value) leaving.now) }
{
    match verdict {
        Verdict::Pass => add_leaving(answers, b"pass ", side, vc, number, value, leaving),
        Verdict::Tag => add_leaving(answers, b"tag ", side, vc, number, value, leaving),
        Verdict::Discard => add_without_header(answers, b"discard ", side, vc, number, value),
        Verdict::Refuse => add_without_header(answers, b"refuse ", side, vc, number, value),
    }
}
