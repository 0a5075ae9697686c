//! Headers of known cells, at either side, and refused octets and numbers.

use crate::tests::expecting::{expect, expect_printed};
use std::process::Abort;
use std::test::Fail;
use upc_cell::*;

/// A cell with this header and a payload of zeros.
fn cell_of(header: [u8; 4]) -> Result<Cell, CellFault> {
    let mut octets = [0u8; 52];
    octets[0] = header[0];
    octets[1] = header[1];
    octets[2] = header[2];
    octets[3] = header[3];
    Cell::from_bytes(&octets)
}

/// Flow control, path, channel, payload type and priority of the cell with this header, at the user network
/// interface.
fn fields_of(header: [u8; 4]) -> Result<(u8, u16, u16, u8, bool), CellFault> {
    let cell = cell_of(header)?;
    Ok((cell.gfc(), cell.vpi(), cell.vci(), cell.pti(), cell.clp()))
}

#[test]
fn user_data_and_oam_cells_of_one_connection(rt: HostRuntime) -> Result<(), Fail> {
    for (header, fields) in [
        ([0x00, 0x10, 0x06, 0x40], (0, 1, 100, 0, false)),
        ([0x00, 0x10, 0x06, 0x41], (0, 1, 100, 0, true)),
        ([0x00, 0x10, 0x06, 0x4a], (0, 1, 100, 5, false)),
    ] {
        assert_eq!(rt; fields_of(header)?, fields);
    }
    let oam = cell_of([0x00, 0x10, 0x06, 0x4a])?;
    assert_eq!(rt; oam.vc(), Vc::new(1, 100)?);
    Ok(())
}

#[test]
fn each_field_at_its_highest(rt: HostRuntime) -> Result<(), Fail> {
    let fields = fields_of([0xff; 4])?;
    expect(&rt, "the fields", fields, (15, 255, 65535, 7, true));
    Ok(())
}

#[test]
fn a_tagged_cell_differs_in_its_priority_alone(rt: HostRuntime) -> Result<(), Fail> {
    let cell = cell_of([0xf0, 0x10, 0x06, 0x4a])?;
    let tagged = cell_of([0xf0, 0x10, 0x06, 0x4b])?;
    expect(&rt, "tagged", cell.tagged(), tagged);
    expect(&rt, "twice", cell.tagged().tagged(), cell.tagged());
    expect(&rt, "the cell itself", cell.bytes()[3], 0x4a);
    Ok(())
}

#[test]
fn octets_of_another_number_are_no_cell(rt: HostRuntime) -> Result<(), Fail> {
    for octets in [&[0u8; 51][..], &[0; 53], &[]] {
        let fault = CellFault::WrongLength(octets.len());
        expect(&rt, "octets", Cell::from_bytes(octets).err(), Some(fault));
    }
    let fault = CellFault::WrongLength(51);
    expect_printed(&rt, rt.alloc(), &[(fault, "1 WrongLength 51")])
}

#[test]
fn the_path_takes_in_the_flow_control_between_nodes_alone(rt: HostRuntime) -> Result<(), Fail> {
    for (header, paths, channel) in [
        ([0xf0, 0x10, 0x06, 0x41], [1, 3841], 100),
        ([0xff, 0xff, 0xff, 0xff], [255, 4095], 65535),
    ] {
        expect_paths(&rt, &cell_of(header)?, paths, channel)?;
    }
    Ok(())
}

/// Expects that a cell of priority 1 has these paths between user and network and between nodes, and this channel.
fn expect_paths(rt: &impl Abort, cell: &Cell, paths: [u16; 2], channel: u16) -> Result<(), Fail> {
    let [users, nodes] = paths;
    let fields = (cell.vpi(), cell.vci(), cell.clp());
    expect(rt, "the fields", fields, (users, channel, true));
    let found = [cell.vpi_at(Side::Uni), cell.vpi_at(Side::Nni)];
    expect(rt, "the paths", found, paths);
    let at_users = Vc::new(users, channel)?;
    let between = Vc::new_at(Side::Nni, nodes, channel)?;
    let found = [cell.vc_at(Side::Uni), cell.vc_at(Side::Nni)];
    expect(rt, "the connections", found, [at_users, between]);
    Ok(())
}

#[test]
fn a_path_above_the_highest_of_its_side_is_refused(rt: HostRuntime) -> Result<(), Fail> {
    for made in [
        Vc::new(256, 0),
        Vc::new_at(Side::Uni, 256, 0),
        Vc::new_at(Side::Nni, 4096, 0),
    ] {
        expect(&rt, "too high", made, Err(VcFault::VpiTooLarge));
    }
    let users = Vc::new(255, 65535)?;
    let nodes = Vc::new_at(Side::Nni, 4095, 65535)?;
    let found = [users.vpi, users.vci, nodes.vpi, nodes.vci];
    expect(&rt, "the highest", found, [255, 65535, 4095, 65535]);
    expect_printed(&rt, rt.alloc(), &[(VcFault::VpiTooLarge, "1 VpiTooLarge")])
}

#[test]
fn connections_stand_in_order_of_path_then_channel(rt: HostRuntime) -> Result<(), Fail> {
    for (first, second) in [
        (Vc::new(1, 200), Vc::new(2, 100)),
        (Vc::new(1, 100), Vc::new(1, 101)),
        (Vc::new(255, 65535), Vc::new_at(Side::Nni, 256, 0)),
    ] {
        let (first, second) = (first?, second?);
        expect(&rt, "in order", first < second, true);
    }
    let one = Vc::new(1, 100)?;
    for (other, same) in [
        (Vc::new_at(Side::Nni, 1, 100), true),
        (Vc::new(1, 101), false),
        (Vc::new(2, 100), false),
    ] {
        expect(&rt, "the same", same_vc(one, other?), same);
    }
    Ok(())
}
