//! The fault lines of rates, shapes and the desk: `fault`, the part, and the error as its own crate prints it.

use card_core::{CardFault, DeskFault};
use leaky::GcraFault;
use std::test::Fail;
use text_card::{add_desk_fault, add_gcra_fault, add_shape_fault};

#[test]
fn a_fault_of_a_rate_is_printed_as_itself(rt: HostRuntime) -> Result<(), Fail> {
    for fault in [GcraFault::ZeroIncrement, GcraFault::TooLarge] {
        let mut answers = Vec::new(rt.alloc());
        add_gcra_fault(&mut answers, fault)?;
        let line = format!(in rt.alloc(); "fault gcra {fault}\n")?;
        assert_eq!(rt; answers.as_slice(), line.as_bytes());
    }
    Ok(())
}

#[test]
fn a_fault_of_a_shape_is_printed_as_itself(rt: HostRuntime) -> Result<(), Fail> {
    for fault in [
        CardFault::Programs,
        CardFault::Lines,
        CardFault::Ports,
        CardFault::Journal,
    ] {
        let mut answers = Vec::new(rt.alloc());
        add_shape_fault(&mut answers, fault)?;
        let line = format!(in rt.alloc(); "fault shape {fault}\n")?;
        assert_eq!(rt; answers.as_slice(), line.as_bytes());
    }
    Ok(())
}

#[test]
fn each_fault_of_the_desk_has_its_line(rt: HostRuntime) -> Result<(), Fail> {
    let rows: [(DeskFault, &[u8]); 10] = [
        (DeskFault::NoProgram, b"fault desk 1 NoProgram\n"),
        (DeskFault::NoConnection, b"fault desk 2 NoConnection\n"),
        (DeskFault::Taken, b"fault desk 3 Taken\n"),
        (DeskFault::NoLine, b"fault desk 4 NoLine\n"),
        (DeskFault::InUse, b"fault desk 5 InUse\n"),
        (DeskFault::ProgramsFull, b"fault desk 6 ProgramsFull\n"),
        (DeskFault::Exhausted, b"fault desk 7 Exhausted\n"),
        (DeskFault::BadContracts, b"fault desk 8 BadContracts\n"),
        (DeskFault::Busy, b"fault desk 9 Busy\n"),
        (DeskFault::Stale, b"fault desk 11 Stale\n"),
    ];
    for (fault, text) in rows {
        let mut answers = Vec::new(rt.alloc());
        add_desk_fault(&mut answers, fault)?;
        let line = format!(in rt.alloc(); "fault desk {fault}\n")?;
        assert_eq!(rt; (answers.as_slice(), line.as_bytes()), (text, text));
    }
    Ok(())
}

#[test]
fn want_of_memory_has_no_line(rt: HostRuntime) {
    let mut answers = Vec::new(rt.alloc());
    let of_shape = add_shape_fault(&mut answers, CardFault::NoMemory);
    let of_desk = add_desk_fault(&mut answers, DeskFault::NoMemory);
    assert!(rt; of_shape.is_err() && of_desk.is_err() && answers.is_empty());
}
