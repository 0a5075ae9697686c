//! Tables of the lines of connections.

use super::expecting::{expect, expect_printed};
use std::alloc::Global;
use std::process::Abort;
use std::test::Fail;
use upc_cell::{Side, Vc};
use vc_table::{TableFault, VcLines};

/// A table without connections.
fn empty_table(alloc: Global) -> Result<VcLines, Fail> {
    Ok(VcLines::new(alloc).ok_or("a table")?)
}

#[test]
fn a_connection_has_a_line(rt: HostRuntime) -> Result<(), Fail> {
    let mut table = VcLines::new(rt.alloc()).ok_or("a table")?;
    let vc = Vc::new(1, 100)?;
    table.put(vc, 7)?;
    assert_eq!(rt; table.find(vc), Some(7));
    assert_eq!(rt; table.find(Vc::new(1, 101)?), None);
    assert_eq!(rt; table.remove(vc), Some(7));
    assert_eq!(rt; table.find(vc), None);
    Ok(())
}

/// In each of 20 rounds 4096 connections, each with a group and a block of its own, get a line and lose it. If blocks were
/// not used again, there would be no number for a block after the fifteenth.
#[test]
fn blocks_are_used_again(rt: HostRuntime) -> Result<(), Fail> {
    let mut table = empty_table(rt.alloc())?;
    expect_each_round(&rt, &mut table)
}

/// Expects it of a table without connections.
fn expect_each_round(rt: &impl Abort, table: &mut VcLines) -> Result<(), Fail> {
    for round in 0..20u16 {
        let channel = 4096 * (round % 16) + 65 * round;
        put_on_each_path(table, channel)?;
        expect_removed(rt, table, round, channel)?;
    }
    Ok(())
}

/// Gives the connection of this channel on each path the line with the number of the path.
fn put_on_each_path(table: &mut VcLines, channel: u16) -> Result<(), Fail> {
    for path in 0..4096u16 {
        table.put(Vc::new_at(Side::Nni, path, channel)?, path)?;
    }
    Ok(())
}

/// Removes these connections, and expects that each had its line.
fn expect_removed(
    rt: &impl Abort,
    table: &mut VcLines,
    round: u16,
    channel: u16,
) -> Result<(), Fail> {
    for path in 0..4096u16 {
        let line = table.remove(Vc::new_at(Side::Nni, path, channel)?);
        expect(rt, "a round's line", (round, line), (round, Some(path)));
    }
    Ok(())
}

/// 65,535 connections always find room, also if no two of them share a group. One more may not.
#[test]
fn there_is_room_for_65535_connections(rt: HostRuntime) -> Result<(), Fail> {
    let mut table = empty_table(rt.alloc())?;
    expect_room_for_all_but_the_last(&rt, &mut table)?;
    expect_room_after_a_removal(&rt, &mut table)
}

/// Expects that of 65,536 connections, each with a group of its own, a table without connections has room for all but the
/// last.
fn expect_room_for_all_but_the_last(rt: &impl Abort, table: &mut VcLines) -> Result<(), Fail> {
    for group in 0..16u16 {
        for path in 0..4096u16 {
            let vc = Vc::new_at(Side::Nni, path, 4096 * group)?;
            let is_last = group == 15 && path == 4095;
            let wanted = is_last.then_some(TableFault::Full);
            let found = table.put(vc, path).err();
            expect(rt, "room", (group, path, found), (group, path, wanted));
        }
    }
    Ok(())
}

/// Expects that the last of them gets a line when another has lost its own.
fn expect_room_after_a_removal(rt: &impl Abort, table: &mut VcLines) -> Result<(), Fail> {
    let first = Vc::new(0, 0)?;
    let last = Vc::new_at(Side::Nni, 4095, 61440)?;
    let before = Vc::new_at(Side::Nni, 4094, 61440)?;
    expect(rt, "the last one's line", table.find(last), None);
    expect(rt, "the first one's line", table.remove(first), Some(0));
    table.put(last, 65534)?;
    expect(rt, "a line for the last", table.find(last), Some(65534));
    expect_too_large(rt, table, last);
    expect(rt, "the line before it", table.find(before), Some(4094));
    Ok(())
}

fn expect_too_large(rt: &impl Abort, table: &mut VcLines, vc: Vc) {
    let fault = table.put(vc, 65535).err();
    expect(rt, "line 65535", fault, Some(TableFault::LineTooLarge));
}

#[test]
fn faults_of_tables_are_printed_by_number_and_name(rt: HostRuntime) -> Result<(), Fail> {
    expect_printed(
        &rt,
        rt.alloc(),
        &[
            (TableFault::LineTooLarge, "1 LineTooLarge"),
            (TableFault::Full, "2 Full"),
            (TableFault::NoMemory, "3 NoMemory"),
        ],
    )
}
