//! The subcommands of `upc` over an input in memory, and over devices that move one octet a call and fail at a given call.
//!
//! Whole inputs and outputs are data: tests/worked/ at the top of the repository.

use cmd_ports::run_ports;
use cmd_programs::{check_source, eval_bytes};
use cmd_run::run_script;
use std::alloc::{AllocError, Global};
use std::process::Abort;
use std::sync::Wait;
use std::test::Fail;
use std::thread::Threads;
use text_io::{
    Done, Ending, FaultyInput, FaultyOutput, Input, Output, ReaderInput, RunFault, WriterOutput,
};

/// A subcommand.
#[derive(Clone, Copy)]
enum Subcommand {
    Check,
    Eval,
    Run,
    Ports,
}

/// A subcommand, its input, and its output.
#[derive(Clone, Copy)]
struct Talk {
    subcommand: Subcommand,
    input: &'static [u8],
    text: &'static [u8],
    /// Whether the whole input is read before anything is answered.
    is_gathered: bool,
}

/// A program and two cells.
const PROGRAM: Talk = Talk {
    subcommand: Subcommand::Eval,
    input: b"0030000000000003001500010000004a00060000000000020006000000000001\n00100640\n0010064a\n",
    text: b"accepted 4\nvalue 1 steps 3\nvalue 2 steps 3\n",
    is_gathered: false,
};

/// A source.
const SOURCE: Talk = Talk {
    subcommand: Subcommand::Check,
    input: b"tax\nret #300\n",
    text: b"accepted 2\n0007000000000000000600000000012c\n",
    is_gathered: true,
};

/// Two programs, one connection, and each kind of desk refusal that this card can give.
const SCRIPT: Talk = Talk {
    subcommand: Subcommand::Run,
    input: b"card 2 1 1 16\nload 0006000000000001\nload 0006000000000001\nload 0006000000000001\n\
        setup 1 100 p1 cbr1:10/0\ncell 0 00100640\nretire p1\nreload 1 100 p2\ncell 5 00100640\n\
        retire p1\nload 0006000000000001\nreload 1 100 p1\nsetup 1 100 p3 cbr1:1/0\n\
        setup 2 100 p3 cbr1:1/0\nrelease 1 100\ncell 10 00100640\n",
    text: b"ready\nloaded p1\nloaded p2\nfault desk 6 ProgramsFull\nset 1/100\n\
        pass 1/100 p1 1 00100640\nfault desk 5 InUse\nreloaded 1/100 p2\ndiscard 1/100 p2 1\n\
        retired p1\nloaded p3\nfault desk 1 NoProgram\nfault desk 3 Taken\nfault desk 4 NoLine\n\
        released 1/100 2 1 0 1 0\nfault arrive 1 NoConnection\n",
    is_gathered: false,
};

/// Two ports with one connection each.
const PORTS: Talk = Talk {
    subcommand: Subcommand::Ports,
    input: b"card 2 2 2 16\nload 0006000000000001\nsetup 1 100 p1 cbr1:10/0\n\
        setup 1 101 p1 cbr1:10/0\ncell 0 00100640\ncell 0 00100650\ncell 5 00100640\n\
        cell 10 00100650\n",
    text: b"ready\nloaded p1\nset 1/100\nset 1/101\npass 1/100 p1 1 00100640\n\
        pass 1/101 p1 1 00100650\ndiscard 1/100 p1 1\npass 1/101 p1 1 00100650\n\
        totals 3 0 1 0\n",
    is_gathered: true,
};

/// One for each subcommand.
fn talks() -> [Talk; 4] {
    [PROGRAM, SOURCE, SCRIPT, PORTS]
}

/// Runs a subcommand.
fn run_it<R: Threads + Wait + Sync, I: Input, O: Output>(
    rt: &R,
    alloc: Global,
    subcommand: Subcommand,
    input: &mut I,
    output: &mut O,
) -> Ending {
    match subcommand {
        Subcommand::Check => check_source(alloc, input, output),
        Subcommand::Eval => eval_bytes(alloc, input, output),
        Subcommand::Run => run_script(alloc, input, output),
        Subcommand::Ports => run_ports(rt, alloc, input, output),
    }
}

/// The output of a subcommand for an input in memory, and how the run ends.
fn printed<R: Threads + Wait + Sync>(
    rt: &R,
    alloc: Global,
    subcommand: Subcommand,
    input: &[u8],
) -> Result<(Vec<u8>, Done), RunFault> {
    let mut source = ReaderInput::new(input);
    let mut sink = WriterOutput::new(Vec::new(alloc));
    let done = run_it(rt, alloc, subcommand, &mut source, &mut sink)?;
    Ok((sink.writer, done))
}

#[test]
fn each_subcommand_answers_an_input_in_memory(rt: HostRuntime) -> Result<(), Fail> {
    for talk in talks() {
        let (text, done) = printed(&rt, rt.alloc(), talk.subcommand, talk.input)?;
        assert_eq!(rt; (text.as_slice(), done), (talk.text, Done::Whole));
    }
    Ok(())
}

/// Runs a subcommand over devices that fail after these numbers of octets. Returns the result and the output.
fn run_over<R: Threads + Wait + Sync>(
    rt: &R,
    alloc: Global,
    subcommand: Subcommand,
    octets: &[u8],
    (takes, gives): (usize, usize),
) -> (Ending, Vec<u8>) {
    let mut input = FaultyInput::new(octets, takes);
    let mut output = FaultyOutput::new(alloc, gives);
    let ended = run_it(rt, alloc, subcommand, &mut input, &mut output);
    (ended, output.held)
}

/// Expects this result and this output of a subcommand over such devices.
fn expect<R: Threads + Wait + Sync + Abort>(
    rt: &R,
    alloc: Global,
    talk: Talk,
    (takes, gives): (usize, usize),
    ended: Ending,
    text: &[u8],
) {
    let (found, written) = run_over(rt, alloc, talk.subcommand, talk.input, (takes, gives));
    assert_eq!(rt;
        (found, written.as_slice()),
        (ended, text),
        "{takes} {gives}"
    );
}

/// The output after this number of octets is read: an answer for each whole line, or none if the whole input is read
/// first.
fn answered(alloc: Global, talk: Talk, takes: usize) -> Result<Vec<u8>, AllocError> {
    let mut front = Vec::new(alloc);
    if talk.is_gathered {
        return Ok(front);
    }
    let lines = talk
        .input
        .iter()
        .take(takes)
        .filter(|octet| **octet == b'\n')
        .count();
    let mut met = 0usize;
    for octet in talk.text {
        if met < lines {
            front.push(*octet)?;
        }
        if *octet == b'\n' {
            met = met.saturating_add(1);
        }
    }
    Ok(front)
}

#[test]
fn one_octet_a_call_gives_the_same_text(rt: HostRuntime) {
    for talk in talks() {
        expect(
            &rt,
            rt.alloc(),
            talk,
            (1000, 1000),
            Ok(Done::Whole),
            talk.text,
        );
    }
}

/// Expects an output that fails at any octet to hold the octets before it.
fn expect_fronts<R: Threads + Wait + Sync + Abort>(rt: &R, alloc: Global, talk: Talk) {
    for gives in 0..talk.text.len() {
        let text = &talk.text[..gives];
        expect(
            rt,
            alloc,
            talk,
            (1000, gives),
            Err(RunFault::WriteFailed),
            text,
        );
    }
    expect(
        rt,
        alloc,
        talk,
        (1000, talk.text.len()),
        Ok(Done::Whole),
        talk.text,
    );
}

#[test]
fn a_write_that_fails_leaves_the_octets_before_it(rt: HostRuntime) {
    expect_fronts(&rt, rt.alloc(), PROGRAM);
    expect_fronts(&rt, rt.alloc(), SOURCE);
}

#[test]
fn a_write_that_fails_leaves_a_beginning_of_what_run_answered(rt: HostRuntime) {
    expect_fronts(&rt, rt.alloc(), SCRIPT);
}

#[test]
fn a_write_that_fails_leaves_a_beginning_of_what_ports_answered(rt: HostRuntime) {
    expect_fronts(&rt, rt.alloc(), PORTS);
}

/// Expects an input that fails at any octet to be answered up to its last whole line. After all octets, one more call
/// reports the end.
fn expect_answers<R: Threads + Wait + Sync + Abort>(
    rt: &R,
    alloc: Global,
    talk: Talk,
) -> Result<(), AllocError> {
    for takes in 0..=talk.input.len() {
        let text = answered(alloc, talk, takes)?;
        expect(
            rt,
            alloc,
            talk,
            (takes, 1000),
            Err(RunFault::ReadFailed),
            &text,
        );
    }
    Ok(())
}

#[test]
fn a_read_that_fails_leaves_the_answers_before_it(rt: HostRuntime) -> Result<(), Fail> {
    expect_answers(&rt, rt.alloc(), PROGRAM)?;
    Ok(())
}

#[test]
fn a_source_is_read_whole_before_it_is_answered(rt: HostRuntime) -> Result<(), Fail> {
    expect_answers(&rt, rt.alloc(), SOURCE)?;
    Ok(())
}

#[test]
fn a_read_that_fails_leaves_the_answers_of_the_scripts_lines(rt: HostRuntime) -> Result<(), Fail> {
    expect_answers(&rt, rt.alloc(), SCRIPT)?;
    Ok(())
}

#[test]
fn a_script_of_ports_is_read_whole_before_it_is_run(rt: HostRuntime) -> Result<(), Fail> {
    expect_answers(&rt, rt.alloc(), PORTS)?;
    Ok(())
}

/// Expects this end of a run over an input that fails after this number of octets.
fn expect_end<R: Threads + Wait + Sync + Abort>(
    rt: &R,
    alloc: Global,
    subcommand: Subcommand,
    (octets, takes): (&[u8], usize),
    wanted: Ending,
) {
    let (ended, _) = run_over(rt, alloc, subcommand, octets, (takes, 100));
    assert_eq!(rt; ended, wanted, "{takes}");
}

#[test]
fn nothing_is_read_beyond_the_end_of_a_run(rt: HostRuntime) {
    // The number of octets of each input that the answer needs.
    let rows: [(&[u8], usize); 3] = [
        (b"zz\n0006000000000007\n", 3),
        (b"0006000000000007 00\n\n", 20),
        (b"00\n\n\n", 3),
    ];
    let ended = Ok(Done::Ended);
    let failed = Err(RunFault::ReadFailed);
    for (input, needed) in rows {
        expect_end(&rt, rt.alloc(), Subcommand::Eval, (input, needed), ended);
        expect_end(
            &rt,
            rt.alloc(),
            Subcommand::Eval,
            (input, needed - 1),
            failed,
        );
    }
}

#[test]
fn a_source_over_its_limit_is_read_up_to_one_octet_more(rt: HostRuntime) -> Result<(), Fail> {
    let source = vec![in rt.alloc(); b'\n'; 1048600]?;
    let ended = Ok(Done::Ended);
    let failed = Err(RunFault::ReadFailed);
    expect_end(
        &rt,
        rt.alloc(),
        Subcommand::Check,
        (&source, 1048577),
        ended,
    );
    expect_end(
        &rt,
        rt.alloc(),
        Subcommand::Check,
        (&source, 1048576),
        failed,
    );
    Ok(())
}
