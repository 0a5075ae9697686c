//! Scripts whose ports are threads, with gates; and the errors of a close.

use cmd_ports::run_ports_with;
use port_card::{CloseFault, Gate};
use std::alloc::{AllocError, Global};
use std::sync::Wait;
use std::sync::atomic::{AtomicU64, Ordering};
use std::test::Fail;
use std::thread::{self, Threads};
use text_io::{Done, ReaderInput, RunFault, WriterOutput};

/// The maximum number of turns of a gate.
const TURNS: u64 = 10_000_000;

/// Two ports, and a connection on each.
const TWO: &[u8; 151] = b"card 2 2 2 16
load 0006000000000001
setup 1 100 p1 cbr1:10/0
setup 1 101 p1 cbr1:10/0
cell 0 00100640
cell 0 00100650
cell 5 00100640
cell 10 00100650
";

const TWO_TOLD: &[u8; 145] = b"ready
loaded p1
set 1/100
set 1/101
pass 1/100 p1 1 00100640
pass 1/101 p1 1 00100650
discard 1/100 p1 1
pass 1/101 p1 1 00100650
totals 3 0 1 0
";

/// The output of `ports` for a script, and how it ends, when each port waits at this gate.
fn printed<G: Gate + Sync, R: Threads + Wait + Sync>(
    rt: &R,
    alloc: Global,
    script: &[u8],
    gate: &G,
) -> Result<(Vec<u8>, Done), RunFault> {
    let mut source = ReaderInput::new(script);
    let mut sink = WriterOutput::new(Vec::new(alloc));
    let done = run_ports_with(rt, alloc, &mut source, &mut sink, gate)?;
    Ok((sink.writer, done))
}

/// A gate: each port, at its first cell, sets its flag and waits for the other's.
#[derive(Drop)]
struct Meeting {
    flags: [AtomicU64; 2],
    met: AtomicU64,
}

impl Meeting {
    fn meet(&self, own: &AtomicU64, other: &AtomicU64) {
        if own.swap(1, Ordering::SeqCst) != 0 {
            return;
        }
        for _ in 0..TURNS {
            if other.load(Ordering::SeqCst) != 0 {
                self.met.fetch_add(1, Ordering::SeqCst);
                return;
            }
            thread::yield_now();
        }
    }
}

impl Gate for Meeting {
    fn between(&self, port: u8) {
        if port == 0 {
            self.meet(&self.flags[0], &self.flags[1]);
        } else {
            self.meet(&self.flags[1], &self.flags[0]);
        }
    }
}

#[test]
fn both_ports_are_between_look_up_and_judgement_at_once(rt: HostRuntime) -> Result<(), Fail> {
    let meeting = Meeting {
        flags: [AtomicU64::new(0), AtomicU64::new(0)],
        met: AtomicU64::new(0),
    };
    let (text, done) = printed(&rt, rt.alloc(), TWO, &meeting)?;
    assert_eq!(rt; text.as_slice(), TWO_TOLD.as_slice());
    assert_eq!(rt; done, Done::Whole);
    assert_eq!(rt; meeting.met.load(Ordering::SeqCst), 2);
    Ok(())
}

/// Stores the number of the last port that came, plus one.
#[derive(Drop)]
struct Remembering {
    port: AtomicU64,
}

impl Gate for Remembering {
    fn between(&self, port: u8) {
        self.port.store(u64::from(port) + 1, Ordering::SeqCst);
    }
}

#[test]
fn cells_are_dealt_by_the_path_of_the_cards_side(rt: HostRuntime) -> Result<(), Fail> {
    let rows: [(&[u8], &[u8], u64); 2] = [
        (
            b"card 1 1 7 16 nni\nload 0006000000000001\nsetup 3841 100 p1 cbr1:10/0\ncell 0 f0100640\n",
            b"ready\nloaded p1\nset 3841/100\npass 3841/100 p1 1 f0100640\ntotals 1 0 0 0\n",
            6,
        ),
        (
            b"card 1 1 7 16\nload 0006000000000001\nsetup 1 100 p1 cbr1:10/0\ncell 0 f0100640\n",
            b"ready\nloaded p1\nset 1/100\npass 1/100 p1 1 f0100640\ntotals 1 0 0 0\n",
            5,
        ),
    ];
    for (script, text, port) in rows {
        let gate = Remembering {
            port: AtomicU64::new(0),
        };
        let (text_printed, _) = printed(&rt, rt.alloc(), script, &gate)?;
        assert_eq!(rt; text_printed.as_slice(), text);
        assert_eq!(rt; gate.port.load(Ordering::SeqCst), port);
    }
    Ok(())
}

/// A gate: counts the cells that come to it, and lets each wait for a number of turns, so that the desk can act meanwhile.
#[derive(Drop)]
struct Slow {
    cells: AtomicU64,
    turns: u64,
}

impl Slow {
    fn new(turns: u64) -> Slow {
        Slow {
            cells: AtomicU64::new(0),
            turns,
        }
    }
}

impl Gate for Slow {
    fn between(&self, _port: u8) {
        self.cells.fetch_add(1, Ordering::SeqCst);
        for _ in 0..self.turns {
            thread::yield_now();
        }
    }
}

/// A script with one connection: this number of cells, then `lines` this number of times, then the release.
fn one_connection(
    alloc: Global,
    cells: usize,
    times: usize,
    lines: &[u8],
) -> Result<Vec<u8>, AllocError> {
    let mut script = Vec::new(alloc);
    script.extend_from_slice(b"card 1 1 1 4096\nload 0006000000000001\n")?;
    script.extend_from_slice(b"setup 1 100 p1 cbr1:10/0\n")?;
    for _ in 0..cells {
        script.extend_from_slice(b"cell 0 00100640\n")?;
    }
    for _ in 0..times {
        script.extend_from_slice(lines)?;
    }
    script.extend_from_slice(b"release 1 100\n")?;
    Ok(script)
}

#[test]
fn the_desk_releases_a_connection_while_its_cells_arrive(rt: HostRuntime) -> Result<(), Fail> {
    let gate = Slow::new(1000);
    let script = one_connection(rt.alloc(), 4000, 0, b"")?;
    printed(&rt, rt.alloc(), &script, &gate)?;
    assert!(rt; gate.cells.load(Ordering::SeqCst) < 4000);
    Ok(())
}

/// A cut and a release of the connection, which is set up again. Before each of the two, the desk waits for the cell that is
/// at its gate, since a load waits for it.
const ROUND: &[u8] = b"load 0006000000000001
cut 1 100
load 0006000000000001
release 1 100
setup 1 100 p1 cbr1:10/0
";

/// The sum of the numbers of one column, over the lines of a text that begin with this word.
fn sum_of(text: &str, word: &str, column: usize) -> u64 {
    let mut sum = 0u64;
    for line in text.lines() {
        let mut words = line.split(' ');
        if words.next() == Some(word) {
            let number = match words.nth(column) {
                Some(number) => number.parse::<u64>().unwrap_or(0),
                None => 0,
            };
            sum = sum.wrapping_add(number);
        }
    }
    sum
}

#[test]
fn what_is_cut_and_released_adds_up_to_the_totals(rt: HostRuntime) -> Result<(), Fail> {
    let gate = Slow::new(50);
    let script = one_connection(rt.alloc(), 4000, 1000, ROUND)?;
    let (text, _) = printed(&rt, rt.alloc(), &script, &gate)?;
    let Ok(text) = str::from_utf8(&text) else {
        return Err(Fail::from("no text"));
    };
    for verdict in 0..4 {
        let pieces = sum_of(text, "cut", verdict + 2).wrapping_add(sum_of(
            text,
            "released",
            verdict + 2,
        ));
        assert_eq!(rt; pieces, sum_of(text, "totals", verdict));
    }
    Ok(())
}

#[test]
fn why_a_card_is_not_closed_is_printed_by_number_and_name(rt: HostRuntime) -> Result<(), Fail> {
    for (fault, text) in [
        (CloseFault::Missing, "1 Missing"),
        (CloseFault::NoMemory, "2 NoMemory"),
    ] {
        assert_eq!(rt; format!(in rt.alloc(); "{fault}")?.as_str(), text);
    }
    Ok(())
}
