//! With two threads, records are read while the cells of earlier ones are answered. The input and the follower each wait, with a bound,
//! until the other is at work, so that no order of one after the other passes.

ghost use Rattle.std.specs.Prelude.{[]};

use captures::{Fault, Tick, TimeSource};
use captures_text::{CapturedCell, CellFollower, ReadingSummary, follow_cells};
use std::alloc::{AllocError, Global};
use std::sync::atomic::{AtomicU64, Ordering};
use std::test::Fail;
use std::thread::Threads;
use text_io::{Done, Failed, Input, Turn, WriterOutput};

/// How often one looks for the other. That takes a second or so, and a thread that is at work is found sooner.
const MOST_LOOKS: u64 = 200_000_000;

/// The number of whole records in the first reading, which fills the buffer of 524,288 octets. The cells of the second reading begin after
/// so many.
const FIRST_READING: u64 = 524_288 / 68;

/// How far the two have come.
#[derive(Drop)]
struct Stages {
    /// How many readings began.
    readings: AtomicU64,
    /// Of how many readings the first cell came to be answered.
    answered: AtomicU64,
}

/// Waits, with a bound, until a stage has come to this number. Returns whether it has.
fn comes_to(stage: &AtomicU64, number: u64) -> bool {
    for _ in 0..MOST_LOOKS {
        if stage.load(Ordering::SeqCst) >= number {
            return true;
        }
    }
    false
}

/// A capture whose second and third readings wait until a cell of the one before them is answered.
#[derive(Drop)]
struct Gate<'a> {
    octets: &'a [u8],
    stages: &'a Stages,
    began: u64,
    /// For how many readings a cell was answered meanwhile.
    met: u64,
}

impl Input for Gate<'_> {
    ghost is_known = { ⊥ };

    ghost rest = { λ gate. [] };

    ghost failures = { λ gate. 0 };

    fn take(&mut self, room: &mut [u8]) -> Result<usize, Failed> {
        self.began = self.began.saturating_add(1);
        self.stages.readings.store(self.began, Ordering::SeqCst);
        if 2 <= self.began && self.began <= 3 && comes_to(&self.stages.answered, self.began - 1) {
            self.met = self.met.saturating_add(1);
        }
        let count = self.octets.len().min(room.len());
        let (read, left) = self.octets.split_at(count);
        room[..count].copy_from_slice(read);
        self.octets = left;
        Ok(count)
    }
}

/// Writes nothing. Before it answers the first cell of the first and of the second reading, it waits until the next reading began.
#[derive(Drop)]
struct Waiting<'a> {
    stages: &'a Stages,
    cells: u64,
    /// For how many readings the next one had begun.
    met: u64,
}

impl Waiting<'_> {
    /// Waits at the first cell of the reading of this number.
    fn meet(&mut self, number: u64) {
        self.stages.answered.store(number, Ordering::SeqCst);
        if comes_to(&self.stages.readings, number.saturating_add(1)) {
            self.met = self.met.saturating_add(1);
        }
    }
}

impl CellFollower for Waiting<'_> {
    ghost use Rattle.std.specs.Prelude.{◌≡◌, [], Some};
    ghost use Rattle.std.proofs.Common.{refl};

    ghost World = { Unit {0} };

    ghost shows = { λ waiting world. Unit {0} };

    ghost rules = { record {
      steps = λ before captured text next. (text ≡ []) × (next ≡ Some tt);
      closes = λ world summary ending. [];
      is_sound = λ world. Unit {0};
    } };

    fn follow_cell(
        &mut self,
        _captured: &CapturedCell,
        _answers: &mut Vec<u8>,
    ) -> Result<Turn, AllocError> {
        if self.cells == 0 {
            self.meet(1);
        }
        if self.cells == FIRST_READING {
            self.meet(2);
        }
        self.cells = self.cells.saturating_add(1);
        Ok(Turn::GoesOn)
    }

    fn close(
        &self,
        _summary: &ReadingSummary,
        _ending: Option<Fault>,
        _answers: &mut Vec<u8>,
    ) -> Result<(), AllocError> {
        Ok(())
    }

    ghost is_total = { record {
      keeps = λ before captured here after led steps. tt;
      step = λ before captured led. ([], Some tt, (refl, refl));
    } };
}

/// A record with a cell of path 1 and channel 5, received after this many seconds.
fn record_of(seconds: u8) -> [u8; 68] {
    let mut octets = [0; 68];
    octets[4] = seconds;
    octets[8] = 3;
    octets[11] = 68;
    octets[15] = 52;
    octets[17] = 0x10;
    octets[19] = 0x50;
    octets
}

/// A capture of 20,000 records, which takes three readings.
fn three_readings(alloc: Global) -> Result<Vec<u8>, AllocError> {
    let mut capture = Vec::new(alloc);
    for number in 0..20_000u32 {
        capture.extend_from_slice(&record_of((number / 100) as u8))?;
    }
    Ok(capture)
}

/// For how many readings a cell was answered meanwhile, as the input and as the follower saw it, and the number of cells.
fn meetings(rt: &impl Threads, alloc: Global, capture: &[u8]) -> Result<[u64; 3], Fail> {
    let Some(tick) = Tick::new(1_000_000_000) else {
        return Err(Fail::new("no tick"));
    };
    let stages = Stages {
        readings: AtomicU64::new(0),
        answered: AtomicU64::new(0),
    };
    let mut gate = Gate {
        octets: capture,
        stages: &stages,
        began: 0,
        met: 0,
    };
    let mut waiting = Waiting {
        stages: &stages,
        cells: 0,
        met: 0,
    };
    let mut sink = WriterOutput::new(Vec::new(alloc));
    let timing = TimeSource::Record;
    match follow_cells(
        rt,
        2,
        alloc,
        tick,
        None,
        timing,
        &mut gate,
        &mut sink,
        &mut waiting,
    ) {
        Ok(Done::Whole) => Ok([gate.met, waiting.met, waiting.cells]),
        _ => Err(Fail::new("no end")),
    }
}

#[test]
fn records_are_read_while_cells_are_answered(rt: HostRuntime) -> Result<(), Fail> {
    let capture = three_readings(rt.alloc())?;
    let found = meetings(&rt, rt.alloc(), &capture)?;
    assert_eq!(rt; found, [2, 2, 20_000]);
    Ok(())
}
