//! The answer lines for the cells of a card, which are appended to the answers.

ghost use Rattle.std.specs.Prelude.{◌≡◌, ◌++◌, codes, decimal, Ok, OnOk};
ghost use Rattle.card_core.specs.Sections.{answer_to, unjudged_answer};
ghost use Rattle.card_core.specs.Steps.{cell_after};
ghost use Rattle.text_card.specs.CardFaults.{arrive_fault};
ghost use Rattle.text_script.specs.ReplyTexts.{judging_text, verdict_text};
ghost use Rattle.text_card.specs.Replies.{numbered_answer_text};
ghost use Rattle.text_card.specs.AddsSome.{AddsSome};

use card_core::{Answer, Judgement, Unjudged};
use leaky::Verdict;
use std::alloc::AllocError;
use text_io::Added;
use text_script::add_verdict;
use text_words::{TextFromEnd, add_text};
use upc_cell::{Cell, Side, Vc};

/// The space for the answer `fault arrive 4 MomentBack LAST`: 26 octets, a number of at most twenty digits, and a line feed.
const MOMENT_ROOM: usize = 47;

/// Adds the answer to a cell with a moment before that of its connection's last judged cell.
#[tactic(auto, using(std::proofs::lemmas::List::append_assoc))]
fn add_moment_back(answers: &mut Vec<u8>, last: u64) -> Added
    ensures { OnOk result
        (answers.new.items ≡ answers.old.items ++ arrive_fault (codes "4 MomentBack " ++ decimal last)) }
{
    let mut text = TextFromEnd::<MOMENT_ROOM>::new();
    text.put(b"\n");
    text.put_number(last);
    text.put(b"fault arrive 4 MomentBack ");
    answers.extend_from_slice(text.as_slice())?;
    Ok(())
}

/// Appends a judged cell's line.
#[inline(never)]
fn add_judged_line(
    answers: &mut Vec<u8>,
    verdict: Verdict,
    side: Side,
    vc: Vc,
    number: u64,
    value: u32,
    cell: &Cell,
) -> Added
    ensures { OnOk result (answers.new.items ≡ answers.old.items
        ++ verdict_text verdict (judging_text side vc number value) (cell_after verdict cell.now)) }
{
    // With a constant verdict in each arm the compiler makes a copy of `add_verdict` for it.
    match verdict {
        Verdict::Tag => {
            let tagged = cell.tagged();
            add_verdict(answers, Verdict::Tag, side, vc, number, value, &tagged)
        }
        Verdict::Pass => add_verdict(answers, Verdict::Pass, side, vc, number, value, cell),
        Verdict::Discard => add_verdict(answers, Verdict::Discard, side, vc, number, value, cell),
        Verdict::Refuse => add_verdict(answers, Verdict::Refuse, side, vc, number, value, cell),
    }
}

/// Appends the answer line of a cell that arrived on this connection and was judged. `number` is the number in the name of its program,
/// 1 for `p1`.
///
/// # Errors
///
/// `AllocError` if an allocation failed.
#[inline(always)]
pub fn add_judged(
    answers: &mut Vec<u8>,
    side: Side,
    number: u64,
    vc: Vc,
    cell: &Cell,
    judged: &Judgement,
) -> Added
    ensures { OnOk result (AddsSome (numbered_answer_text side number vc (answer_to cell.now (Ok judged.now)))
        answers.old.items answers.new.items) }
{
    add_judged_line(
        answers,
        judged.verdict,
        side,
        vc,
        number,
        judged.value,
        cell,
    )
}

/// Adds the answer to a cell that arrived on this connection and wasn't judged. It isn't inlined, so that its caller
/// doesn't need the stack space of an answer.
///
/// # Errors
///
/// `AllocError` if an allocation failed, here or for the cell.
#[inline(never)]
pub fn add_unjudged(answers: &mut Vec<u8>, side: Side, vc: Vc, reason: Unjudged) -> Added
    ensures { OnOk result
        (AddsSome (numbered_answer_text side 0 vc (unjudged_answer reason)) answers.old.items answers.new.items) }
{
    add_answer(answers, side, 0, vc, &reason.answer())
}

/// Adds the answer to a cell that arrived on this connection. `number` is the number in the name of the program that named
/// the cell's contract, 1 for `p1`. Without a verdict it isn't read.
///
/// # Errors
///
/// `AllocError` if an allocation failed, here or for the cell.
#[inline(never)]
pub fn add_answer(answers: &mut Vec<u8>, side: Side, number: u64, vc: Vc, answer: &Answer) -> Added
    ensures { OnOk result
        (AddsSome (numbered_answer_text side number vc answer.now) answers.old.items answers.new.items) }
{
    match answer {
        Answer::Judged {
            value,
            verdict,
            cell,
            ..
        } => add_verdict(answers, *verdict, side, vc, number, *value, cell),
        Answer::NoConnection => add_text(answers, b"fault arrive 1 NoConnection\n"),
        Answer::Released => add_text(answers, b"fault arrive 2 Released\n"),
        Answer::Stale => add_text(answers, b"fault arrive 3 Stale\n"),
        Answer::MomentBack { last } => add_moment_back(answers, *last),
        Answer::MomentTooLate => add_text(answers, b"fault arrive 5 MomentTooLate\n"),
        Answer::JournalFull => add_text(answers, b"fault arrive 6 JournalFull\n"),
        Answer::NoMemory => Err(AllocError),
    }
}
