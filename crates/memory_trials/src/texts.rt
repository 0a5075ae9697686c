//! The subcommands, over an input and an output in memory. Few functions here have a contract, since they are a test.

use crate::trial::{Attempt, Call, ample_if, made_again, refused_if, try_out};
use arrayvec::ArrayVec;
use cmd_ports::run_ports;
use cmd_programs::{check_source, eval_bytes};
use cmd_run::run_script;
use std::alloc::Global;
use std::sync::Wait;
use std::thread::Threads;
use text_io::{Done, Ending, ReaderInput, RunFault, WriterOutput};

/// A program and two cells, and the output of `eval`.
const INPUT: &[u8; 83] =
    b"0030000000000003001500010000004a00060000000000020006000000000001\n00100640\n0010064a\n";

const VALUES: &[u8; 43] = b"accepted 4\nvalue 1 steps 3\nvalue 2 steps 3\n";

/// A source, and the output of `check`.
const SOURCE: &[u8; 13] = b"tax\nret #300\n";

const CHECKED: &[u8; 44] = b"accepted 2\n0007000000000000000600000000012c\n";

/// A script that does everything that allocates, with refusals of the desk in between, and the output of `run`.
const SCRIPT: &[u8; 341] =
    b"card 2 1 1 16\nload 0006000000000001\nload 0006000000000001\nload 0006000000000001\n\
    setup 1 100 p1 cbr1:10/0\ncell 0 00100640\nretire p1\nreload 1 100 p2\ncell 5 00100640\n\
    retire p1\nload 0006000000000001\nreload 1 100 p1\nsetup 1 100 p3 cbr1:1/0\n\
    setup 2 100 p3 cbr1:1/0\nrelease 1 100\ncell 10 00100640\nsetup 1 100 p3 cbr1:1/0\n\
    cell 11 00100640\ncut 1 100\n";

const ANSWERS: &[u8; 334] =
    b"ready\nloaded p1\nloaded p2\nfault desk 6 ProgramsFull\nset 1/100\npass 1/100 p1 1 00100640\n\
    fault desk 5 InUse\nreloaded 1/100 p2\ndiscard 1/100 p2 1\nretired p1\nloaded p3\n\
    fault desk 1 NoProgram\nfault desk 3 Taken\nfault desk 4 NoLine\nreleased 1/100 2 1 0 1 0\n\
    fault arrive 1 NoConnection\nset 1/100\npass 1/100 p3 1 00100640\ncut 1/100 1 1 0 0 0\n";

/// An output that allocates nothing and has room for each of these answers, so only the subcommand can be out of memory.
type Answered = ArrayVec<u8, 512>;

/// The subcommands.
#[derive(Clone, Copy)]
enum Dialogue {
    Eval,
    Check,
    Run,
}

#[derive(Drop)]
struct Talking {
    alloc: Global,
    dialogue: Dialogue,
}

impl Talking {
    fn input(&self) -> &'static [u8] {
        match self.dialogue {
            Dialogue::Eval => INPUT,
            Dialogue::Check => SOURCE,
            Dialogue::Run => SCRIPT,
        }
    }

    fn ample_text(&self) -> &'static [u8] {
        match self.dialogue {
            Dialogue::Eval => VALUES,
            Dialogue::Check => CHECKED,
            Dialogue::Run => ANSWERS,
        }
    }
}

impl Call for Talking {
    fn make(&mut self) -> Attempt {
        let mut input = ReaderInput::new(self.input());
        let mut output = WriterOutput::new(Answered::new());
        let ended = match self.dialogue {
            Dialogue::Eval => eval_bytes(self.alloc, &mut input, &mut output),
            Dialogue::Check => check_source(self.alloc, &mut input, &mut output),
            Dialogue::Run => run_script(self.alloc, &mut input, &mut output),
        };
        outcome_of(ended, &output.writer, self.ample_text())
    }
}

/// The outcome of a subcommand that ended in this way and wrote this, compared with its full output.
fn outcome_of(ended: Ending, written: &[u8], ample: &[u8]) -> Attempt {
    match ended {
        Ok(Done::Whole) => ample_if(written == ample),
        Err(RunFault::NoMemory) => refused_if(ample.starts_with(written)),
        _ => Attempt::Otherwise,
    }
}

fn try_dialogue(alloc: Global, dialogue: Dialogue) -> Attempt {
    try_out(&mut Talking { alloc, dialogue })
}

/// `eval_bytes`.
pub fn try_eval(alloc: Global) -> Attempt {
    try_dialogue(alloc, Dialogue::Eval)
}

/// `check_source`.
pub fn try_check(alloc: Global) -> Attempt {
    try_dialogue(alloc, Dialogue::Check)
}

/// `run_script`.
pub fn try_script(alloc: Global) -> Attempt {
    try_dialogue(alloc, Dialogue::Run)
}

/// A script with two ports, and the output of `ports`.
const PORTS_SCRIPT: &[u8; 151] = b"card 2 2 2 16\nload 0006000000000001\n\
    setup 1 100 p1 cbr1:10/0\nsetup 1 101 p1 cbr1:10/0\ncell 0 00100640\ncell 0 00100650\n\
    cell 5 00100640\ncell 10 00100650\n";

const PORTS_ANSWERS: &[u8; 145] = b"ready\nloaded p1\nset 1/100\nset 1/101\n\
    pass 1/100 p1 1 00100640\npass 1/101 p1 1 00100650\ndiscard 1/100 p1 1\n\
    pass 1/101 p1 1 00100650\ntotals 3 0 1 0\n";

/// Runs a script whose ports are threads.
fn talk_at_ports<R: Threads + Wait + Sync>(rt: &R, alloc: Global) -> Attempt {
    let mut input = ReaderInput::new(PORTS_SCRIPT.as_slice());
    let mut output = WriterOutput::new(Answered::new());
    let ended = run_ports(rt, alloc, &mut input, &mut output);
    outcome_of(ended, &output.writer, PORTS_ANSWERS)
}

/// `run_ports`.
pub fn try_ports<R: Threads + Wait + Sync>(rt: &R, alloc: Global) -> Attempt {
    match talk_at_ports(rt, alloc) {
        Attempt::Refused => made_again(talk_at_ports(rt, alloc)),
        outcome => outcome,
    }
}
