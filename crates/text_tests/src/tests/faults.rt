//! The text of each fault of captures, of records that hold no cell, of least limits, and of cards and shelves. No one input shows all their
//! numbers.

use captures::{Fault, FileFault, NoCell, RecordFault};
use card_core::{CardFault, DeskFault};
use card_shelf::{NoRoom, ProgramFault, ShelfFault};
use cmd_fit::FitFault;
use std::alloc::Global;
use std::fmt::Display;
use std::process::Abort;
use std::test::Fail;

/// How a test ended.
type Tested = Result<(), Fail>;

/// Expects that each value is printed as the text beside it.
fn expect_printed<T: Copy + Display>(rt: &impl Abort, alloc: Global, rows: &[(T, &str)]) -> Tested {
    for (value, wanted) in rows {
        let text = format!(in alloc; "{value}")?;
        assert_eq!(rt; text.as_str(), *wanted);
    }
    Ok(())
}

/// Why octets are no record.
const REASONS: [(RecordFault, &str); 16] = [
    (RecordFault::CutOff, "1 CutOff"),
    (RecordFault::ShortLength(15), "2 ShortLength 15"),
    (RecordFault::LongLength(65536), "3 LongLength 65536"),
    (RecordFault::ShortRecord, "4 ShortRecord"),
    (RecordFault::TooFar, "5 TooFar"),
    (RecordFault::OddLength(30), "6 OddLength 30"),
    (RecordFault::LengthsDiffer(32), "7 LengthsDiffer 32"),
    (RecordFault::OtherMagic(1), "8 OtherMagic 1"),
    (RecordFault::OtherVersion(2), "9 OtherVersion 2"),
    (RecordFault::ShortBlock(24), "10 ShortBlock 24"),
    (RecordFault::OtherLink(1), "11 OtherLink 1"),
    (RecordFault::NoInterface(1), "12 NoInterface 1"),
    (RecordFault::LongPacket(69), "13 LongPacket 69"),
    (RecordFault::ShortText, "14 ShortText"),
    (RecordFault::OtherResolution(64), "15 OtherResolution 64"),
    (RecordFault::OtherUnit(9), "16 OtherUnit 9"),
];

/// Why files aren't read.
const FILE_FAULTS: [(FileFault, &str); 7] = [
    (FileFault::Gzip, "1 Gzip"),
    (FileFault::OtherLink(1), "2 OtherLink 1"),
    (FileFault::Text, "3 Text"),
    (FileFault::Xz, "4 Xz"),
    (FileFault::Bzip2, "5 Bzip2"),
    (FileFault::Zstd, "6 Zstd"),
    (FileFault::Empty, "7 Empty"),
];

/// Why records hold no cell.
const NO_CELLS: [(NoCell, &str); 3] = [
    (NoCell::OtherType(48), "1 OtherType 48"),
    (NoCell::Errored, "2 Errored"),
    (NoCell::CutShort(51), "3 CutShort 51"),
];

/// Why there are no least limits.
const FIT_FAULTS: [(FitFault, &str); 2] = [
    (FitFault::TooManyConnections, "1 TooManyConnections"),
    (FitFault::TooLarge, "2 TooLarge"),
];

#[test]
fn faults_of_captures_as_text(rt: HostRuntime) -> Tested {
    let fault = Fault {
        at: 136,
        reason: RecordFault::ShortLength(15),
    };
    expect_printed(&rt, rt.alloc(), &[(fault, "136 2 ShortLength 15")])?;
    expect_printed(&rt, rt.alloc(), &REASONS)?;
    expect_printed(&rt, rt.alloc(), &FILE_FAULTS)?;
    expect_printed(&rt, rt.alloc(), &NO_CELLS)
}

#[test]
fn faults_of_least_limits_as_text(rt: HostRuntime) -> Tested {
    expect_printed(&rt, rt.alloc(), &FIT_FAULTS)
}

#[test]
fn faults_of_cards_and_shelves_as_text(rt: HostRuntime) -> Tested {
    expect_printed(
        &rt,
        rt.alloc(),
        &[
            (ShelfFault::Card(CardFault::Programs), "1 Programs"),
            (ShelfFault::Card(CardFault::Lines), "2 Lines"),
            (ShelfFault::Card(CardFault::Ports), "3 Ports"),
            (ShelfFault::Card(CardFault::Journal), "4 Journal"),
            (ShelfFault::Card(CardFault::NoMemory), "5 NoMemory"),
            (ShelfFault::Cards, "6 Cards"),
        ],
    )?;
    let full = ProgramFault::Card(63, DeskFault::ProgramsFull);
    expect_printed(
        &rt,
        rt.alloc(),
        &[
            (ProgramFault::NoMemory, "1 NoMemory"),
            (ProgramFault::Ids, "2 Ids"),
            (full, "3 Card 63: 6 ProgramsFull"),
        ],
    )?;
    expect_printed(
        &rt,
        rt.alloc(),
        &[(NoRoom::Arrivals, "1 Arrivals"), (NoRoom::Cards, "2 Cards")],
    )
}
