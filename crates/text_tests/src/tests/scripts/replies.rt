//! The lines of replies that no script with one port gets, and the longest ones.

use card_core::Answer;
use gen_arena::Id;
use leaky::Verdict;
use std::alloc::{AllocError, Global};
use std::process::Abort;
use std::test::Fail;
use text_card::add_answer;
use upc_cell::{Cell, Side, Vc};

/// A cell with this verdict, the largest value and a header of ones.
fn judged(verdict: Verdict) -> Answer {
    Answer::Judged {
        line: 3,
        number: 4,
        moment: 5,
        value: 4294967295,
        program: Id {
            slot: 6,
            generation: 7,
        },
        verdict,
        cell: Cell::from([0xff; 52]),
    }
}

/// Expects that this line is appended for a cell's answer.
fn expect_line(
    rt: &impl Abort,
    alloc: Global,
    (number, vc): (u64, Vc),
    answer: Answer,
    line: &[u8],
) -> Result<(), AllocError> {
    let mut wanted = Vec::from_slice(alloc, b"before\n")?;
    let mut answers = Vec::from_slice(alloc, b"before\n")?;
    add_answer(&mut answers, Side::Nni, number, vc, &answer)?;
    wanted.extend_from_slice(line)?;
    assert_eq!(rt; answers.as_slice(), wanted.as_slice());
    Ok(())
}

#[test]
fn each_cell_that_is_not_judged_has_its_line(rt: HostRuntime) -> Result<(), Fail> {
    let vc = Vc::new(1, 100)?;
    let rows: [(Answer, &[u8]); 6] = [
        (Answer::NoConnection, b"fault arrive 1 NoConnection\n"),
        (Answer::Released, b"fault arrive 2 Released\n"),
        (Answer::Stale, b"fault arrive 3 Stale\n"),
        (
            Answer::MomentBack { last: 70 },
            b"fault arrive 4 MomentBack 70\n",
        ),
        (Answer::MomentTooLate, b"fault arrive 5 MomentTooLate\n"),
        (Answer::JournalFull, b"fault arrive 6 JournalFull\n"),
    ];
    for (answer, line) in rows {
        expect_line(&rt, rt.alloc(), (0, vc), answer, line)?;
    }
    Ok(())
}

#[test]
fn the_longest_answers_are_printed_whole(rt: HostRuntime) -> Result<(), Fail> {
    let vc = Vc::new_at(Side::Nni, 4095, 65535)?;
    let number = 18446744073709551615;
    let rows: [(Answer, &[u8]); 3] = [
        (
            judged(Verdict::Pass),
            b"pass 4095/65535 p18446744073709551615 4294967295 ffffffff\n",
        ),
        (
            judged(Verdict::Discard),
            b"discard 4095/65535 p18446744073709551615 4294967295\n",
        ),
        (
            Answer::MomentBack { last: number },
            b"fault arrive 4 MomentBack 18446744073709551615\n",
        ),
    ];
    for (answer, line) in rows {
        expect_line(&rt, rt.alloc(), (number, vc), answer, line)?;
    }
    Ok(())
}

#[test]
fn an_answer_that_lacks_memory_has_no_line(rt: HostRuntime) -> Result<(), Fail> {
    let mut answers = Vec::new(rt.alloc());
    let found = add_answer(
        &mut answers,
        Side::Uni,
        0,
        Vc::new(1, 100)?,
        &Answer::NoMemory,
    );
    assert!(rt; found.is_err() && answers.is_empty());
    Ok(())
}
