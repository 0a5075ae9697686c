//! Machines over devices that move one octet a call and fail at a given call.

mod parity;

use parity::Parity;
use std::alloc::Global;
use std::process::Abort;
use std::test::Fail;
use text_io::{
    Done, Ending, FaultyInput, FaultyOutput, Input, LineWords, ReaderInput, RunFault, WriterOutput,
    answer_lines, first_word, gather, give_all, line_words,
};

/// Runs the machine over devices that fail after a number of successful calls. Returns how it ends, the output, and
/// the number of octets left.
fn run(alloc: Global, octets: &[u8], takes: usize, gives: usize) -> (Ending, Vec<u8>, usize) {
    let mut input = FaultyInput::new(octets, takes);
    let mut output = FaultyOutput::new(alloc, gives);
    let mut machine = Parity { even: true };
    let ended = answer_lines(alloc, &mut input, &mut output, &mut machine);
    (ended, output.held, input.octets.len())
}

#[test]
fn a_machine_need_not_hold_its_world(rt: HostRuntime) {
    let rows: [(&[u8], &[u8]); 5] = [
        (b"", b""),
        (b"\n", b"even\n"),
        (b"a\nb\r\nc", b"even\nodd\neven\n"),
        (b"a\n\n", b"even\nodd\n"),
        (b"a\n\r", b"even\nodd\n"),
    ];
    for (octets, text) in rows {
        let (ended, written, left) = run(rt.alloc(), octets, 100, 100);
        assert_eq!(rt; ended, Ok(Done::Whole));
        assert_eq!(rt; written.as_slice(), text);
        assert_eq!(rt; left, 0);
    }
}

#[test]
fn a_device_that_fails_leaves_a_beginning(rt: HostRuntime) {
    let (octets, text) = (b"a\nb\nc", b"even\nodd\neven\n");
    for takes in 0..octets.len() + 1 {
        let (ended, written, left) = run(rt.alloc(), octets, takes, 100);
        assert_eq!(rt; ended, Err(RunFault::ReadFailed));
        assert!(rt; text.starts_with(&written));
        assert_eq!(rt; left, octets.len() - takes);
    }
    for gives in 0..text.len() {
        let (ended, written, _left) = run(rt.alloc(), octets, 100, gives);
        assert_eq!(rt; ended, Err(RunFault::WriteFailed));
        assert_eq!(rt; written.as_slice(), &text[..gives]);
    }
}

#[test]
fn answers_are_given_before_more_is_asked_for(rt: HostRuntime) {
    let (ended, written, _left) = run(rt.alloc(), b"a\nb\n", 2, 100);
    assert_eq!(rt; ended, Err(RunFault::ReadFailed));
    assert_eq!(rt; written.as_slice(), b"even\n".as_slice());
}

#[test]
fn a_line_over_the_limits_ends_the_run_and_no_more_is_read(rt: HostRuntime) -> Result<(), Fail> {
    let mut octets = vec![in rt.alloc(); b'x'; 70001]?;
    octets.extend_from_slice(b"\nrest\n")?;
    let (ended, written, left) = run(rt.alloc(), &octets, 70001, 100);
    assert_eq!(rt; ended, Ok(Done::Ended));
    assert_eq!(rt; written.as_slice(), b"too long\n".as_slice());
    assert_eq!(rt; left, 6);
    Ok(())
}

#[test]
fn an_input_over_its_limit_is_taken_up_to_one_octet_more(rt: HostRuntime) {
    for (octets, takes, found) in [
        (b"abcd".as_slice(), 5, Ok(Some(4))),
        (b"abcd".as_slice(), 4, Err(RunFault::ReadFailed)),
        (b"abcdefg".as_slice(), 5, Ok(None)),
        (b"abcdefg".as_slice(), 4, Err(RunFault::ReadFailed)),
        (b"".as_slice(), 1, Ok(Some(0))),
        (b"".as_slice(), 0, Err(RunFault::ReadFailed)),
    ] {
        let mut input = FaultyInput::new(octets, takes);
        let gathered = gather(rt.alloc(), &mut input, 4);
        let sizes = gathered.map(|found| found.map(|octets| octets.len()));
        assert_eq!(rt; sizes, found);
    }
}

#[test]
fn a_large_input_is_gathered_whole(rt: HostRuntime) -> Result<(), Fail> {
    let octets = vec![in rt.alloc(); 7u8; 300000]?;
    let mut input = ReaderInput::new(octets.as_slice());
    let Some(found) = gather(rt.alloc(), &mut input, 300000)? else {
        return Err(Fail::new("it is within its limit"));
    };
    assert_eq!(rt; found.as_slice(), octets.as_slice());
    let mut input = ReaderInput::new(octets.as_slice());
    assert_eq!(rt;
        gather(rt.alloc(), &mut input, 299999)?.map(|found| found.len()),
        None
    );
    Ok(())
}

#[test]
fn words_are_parted_by_spaces_and_tabs_alone(rt: HostRuntime) {
    let rows: [(&[u8], Option<(&[u8], &[u8])>); 3] = [
        (b" \tab\t cd", Some((b"ab", b" cd"))),
        (b"a\x0cb", Some((b"a\x0cb", b""))),
        (b" \t ", None),
    ];
    for (line, found) in rows {
        assert_eq!(rt; first_word(line), found);
    }
}

#[test]
fn a_line_has_no_word_one_or_several(rt: HostRuntime) {
    let rows: [(&[u8], u8); 5] = [
        (b"", 0),
        (b"  # a remark", 0),
        (b"#", 0),
        (b"\tone ", 1),
        (b"one #", 2),
    ];
    for (line, asked) in rows {
        let count = match line_words(line) {
            LineWords::Silent => 0,
            LineWords::One(_) => 1,
            LineWords::Several => 2,
        };
        assert_eq!(rt; count, asked);
    }
}

#[test]
fn a_device_counts_its_failures(rt: HostRuntime) -> Result<(), Fail> {
    let mut input = FaultyInput::new(b"a", 0);
    let mut room = [0; 4];
    assert!(rt; input.take(&mut room).is_err());
    assert!(rt; input.take(&mut room).is_err());
    assert_eq!(rt; input.failures, 2);
    let mut output = WriterOutput::new(Vec::new(rt.alloc()));
    assert!(rt; give_all(&mut output, b"text").is_ok());
    assert_eq!(rt;
        (output.writer.as_slice(), output.failures),
        (b"text".as_slice(), 0)
    );
    Ok(())
}

/// Expects this text of a failure.
fn expect_text(rt: &impl Abort, alloc: Global, fault: RunFault, text: &str) -> Result<(), Fail> {
    let printed = format!(in alloc; "{fault}")?;
    assert_eq!(rt; printed.as_str(), text);
    Ok(())
}

#[test]
fn each_failure_of_a_run_has_its_text(rt: HostRuntime) -> Result<(), Fail> {
    for (fault, text) in [
        (RunFault::ReadFailed, "reading failed"),
        (RunFault::WriteFailed, "writing failed"),
        (RunFault::NoMemory, "out of memory"),
    ] {
        expect_text(&rt, rt.alloc(), fault, text)?;
    }
    Ok(())
}
