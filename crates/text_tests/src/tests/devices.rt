//! What the two programs share: words as they are shown, statuses, and devices that fail.

use cmd_rules::compile_rules;
use std::alloc::Global;
use std::process::Abort;
use std::test::Fail;
use text_command_line::{InMemory, status, words_after_name};
use text_io::{Done, Ending, FaultyInput, FaultyOutput, RunFault};

#[test]
fn each_word_after_the_name_is_shown_in_order(rt: HostRuntime) -> Result<(), Fail> {
    let limit = [b'a'; 1024];
    let over = [b'a'; 1025];
    let line = [
        b"upc".as_slice(),
        b"eval",
        &over,
        b"a\x7f\x1bb",
        b"\xff",
        &limit,
        b"--",
        b"check",
    ];
    let words = words_after_name(rt.alloc(), &InMemory(&line))?;
    let mut shown = Vec::new(rt.alloc());
    for word in &words {
        shown.push(word.as_bytes())?;
    }
    assert_eq!(rt;
        shown.as_slice(),
        [
            b"eval".as_slice(),
            "\u{fffd}".as_bytes(),
            "a\u{fffd}\u{fffd}b".as_bytes(),
            "\u{fffd}".as_bytes(),
            &limit,
            b"--",
            b"check",
        ]
        .as_slice()
    );
    Ok(())
}

#[test]
fn a_status_for_each_end(rt: HostRuntime) {
    for (ended, wanted) in [
        (Ok(Done::Whole), 0),
        (Ok(Done::Ended), 1),
        (Err(RunFault::ReadFailed), 3),
        (Err(RunFault::WriteFailed), 3),
        (Err(RunFault::NoMemory), 3),
    ] {
        assert_eq!(rt; status(&ended), wanted);
    }
}

/// Expects this end and this output of `rules` over devices that move one octet a call, and fail after a number of calls.
fn expect_over_devices<R: Abort>(
    rt: &R,
    alloc: Global,
    (takes, gives): (usize, usize),
    (wanted, written): (Ending, &[u8]),
) {
    let mut input = FaultyInput::new(b"otherwise -> 7\n", takes);
    let mut output = FaultyOutput::new(alloc, gives);
    let ended = compile_rules(alloc, &mut input, &mut output);
    assert_eq!(rt;
        (ended, output.held.as_slice()),
        (wanted, written),
        "{takes} {gives}"
    );
}

#[test]
fn rules_over_devices_that_fail(rt: HostRuntime) {
    let program = b"accepted 1\n0006000000000007\n".as_slice();
    let unread = (Err(RunFault::ReadFailed), b"".as_slice());
    for takes in [0, 5, 15] {
        expect_over_devices(&rt, rt.alloc(), (takes, 100), unread);
    }
    let cut = (Err(RunFault::WriteFailed), b"accep".as_slice());
    expect_over_devices(&rt, rt.alloc(), (100, 5), cut);
    expect_over_devices(&rt, rt.alloc(), (100, 100), (Ok(Done::Whole), program));
}
