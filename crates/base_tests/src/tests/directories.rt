//! Directories of connections: what they give, find, move and take.

ghost use Rattle.std.specs.Prelude.{◌≡◌};
ghost use Rattle.line_record.specs.Directory.{IsEmpty};

use super::expecting::{expect, program};
use line_record::*;
use std::process::Abort;
use std::test::Fail;
use upc_cell::{Side, Vc};

/// Expects this seating, or none, from a directory.
fn expect_seating(rt: &impl Abort, found: Option<Seating>, seating: Option<Seating>)
    ensures { found ≡ seating }
{
    assert_eq!(rt; found, seating);
}

#[test]
fn a_directory_gives_incarnations_up_to_the_last(rt: HostRuntime) -> Result<(), Fail> {
    let last = LAST_INCARNATION;
    for (lines, first, fault) in [
        (0, 0, DirFault::NoLines),
        (1, 0, DirFault::BadFirst),
        (1, last + 1, DirFault::BadFirst),
    ] {
        let found = Directory::new(rt.alloc(), lines, first).err();
        let wanted = (lines, first, Some(fault));
        expect(&rt, "a directory", (lines, first, found), wanted);
    }
    let mut directory = Directory::new(rt.alloc(), 1, last)?;
    expect_last(&rt, &mut directory)
}

/// Expects that a directory with one line and one incarnation gives that.
fn expect_last(rt: &impl Abort, directory: &mut Directory) -> Result<(), Fail>
    requires { IsEmpty directory.old 1 LAST_INCARNATION }
{
    let vc = Vc::new(1, 100)?;
    expect(rt, "worn", directory.worn(), false);
    let given = directory.put(vc, 0, program(0));
    expect(rt, "the last", given, Ok(LAST_INCARNATION));
    let found = (directory.worn(), directory.free_line());
    expect(rt, "worn, and the line", found, (true, None));
    let taken = directory.take(vc).ok_or("a seating")?;
    expect(rt, "its number", taken.incarnation, LAST_INCARNATION);
    let found = (directory.worn(), directory.free_line());
    expect(rt, "still worn, and the line", found, (true, Some(0)));
    Ok(())
}

#[test]
fn connections_are_found_moved_and_taken(rt: HostRuntime) -> Result<(), Fail> {
    let one = Vc::new(1, 100)?;
    let other = Vc::new(1, 101)?;
    let mut directory = Directory::new(rt.alloc(), 2, 1)?;
    expect_put(&rt, &mut directory, one, other);
    expect_moved_and_taken(&rt, &mut directory, one);
    Ok(())
}

/// Expects that an empty directory of two lines has the one connection after its put, and not the other.
fn expect_put(rt: &impl Abort, directory: &mut Directory, one: Vc, other: Vc)
    requires { IsEmpty directory.old 2 1 }
{
    expect(rt, "before its put", directory.find(one), None);
    expect(rt, "its number", directory.put(one, 1, program(0)), Ok(1));
    expect(rt, "a free line", directory.free_line(), Some(0));
    expect(rt, "the other", directory.find(other), None);
    let moved = directory.move_to(other, program(1));
    expect(rt, "the other is moved", moved, None);
}

/// Expects that this connection on line 1 is moved from the first program to the second, and taken.
fn expect_moved_and_taken(rt: &impl Abort, directory: &mut Directory, vc: Vc) {
    let moved = directory.move_to(vc, program(1));
    expect(rt, "the program before", moved, Some(program(0)));
    let named = (directory.names(program(1)), directory.names(program(0)));
    expect(rt, "which programs are named", named, (true, false));
    let seating = Some(Seating {
        line: 1,
        incarnation: 1,
        program: program(1),
    });
    expect(rt, "it is found", directory.find(vc), seating);
    expect(rt, "it is taken", directory.take(vc), seating);
    expect(rt, "it is taken again", directory.take(vc), None);
    expect(rt, "the program", directory.names(program(1)), false);
}

/// A path between nodes of the network has twelve bits.
#[test]
fn connections_between_nodes_are_found_by_their_whole_path(rt: HostRuntime) -> Result<(), Fail> {
    let user = Vc::new(255, 65535)?;
    let node = Vc::new_at(Side::Nni, 4095, 65535)?;
    let mut directory = Directory::new(rt.alloc(), 2, 1)?;
    expect_both_found(&rt, &mut directory, user, node);
    expect_owners(&rt, user, node);
    Ok(())
}

/// Expects that an empty directory of two lines tells these connections apart.
fn expect_both_found(rt: &impl Abort, directory: &mut Directory, user: Vc, node: Vc)
    requires { IsEmpty directory.old 2 1 }
{
    expect(rt, "the first", directory.put(node, 0, program(0)), Ok(1));
    expect_seating(rt, directory.find(user), None);
    expect(rt, "the second", directory.put(user, 1, program(0)), Ok(2));
    let found = line_of(directory.find(node));
    expect(rt, "the line of the first", found, Some(0));
    let taken = line_of(directory.take(user));
    expect(rt, "the line of the second", taken, Some(1));
}

fn line_of(seating: Option<Seating>) -> Option<u16> {
    Some(seating?.line)
}

/// Expects that an owner is the same only with the same connection and incarnation.
fn expect_owners(rt: &impl Abort, user: Vc, node: Vc) {
    let one = Owner {
        vc: node,
        incarnation: 1,
    };
    for (vc, incarnation, wanted) in [(node, 1, true), (node, 2, false), (user, 1, false)] {
        let is_same = same_owner(one, Owner { vc, incarnation });
        expect(
            rt,
            "the same",
            (incarnation, is_same),
            (incarnation, wanted),
        );
    }
}

/// As many connections as a card can have lines, each found on its own line.
#[test]
fn a_directory_of_4096_lines_is_filled(rt: HostRuntime) -> Result<(), Fail> {
    let is_made = Directory::new(rt.alloc(), u16::MAX, 1).is_ok();
    expect(&rt, "the most lines", is_made, true);
    let mut directory = Directory::new(rt.alloc(), 4096, 1)?;
    expect_all_put_and_taken(&rt, &mut directory)
}

/// Expects that an empty directory takes 4096 connections, and no more, and gives each back.
fn expect_all_put_and_taken(rt: &impl Abort, directory: &mut Directory) -> Result<(), Fail> {
    for number in 0..4096 {
        expect_next_put(rt, directory, number)?;
    }
    expect(rt, "a free line", directory.free_line(), None);
    for number in 0..4096 {
        expect_taken(rt, directory, number)?;
    }
    expect(rt, "a free line then", directory.free_line(), Some(0));
    Ok(())
}

/// Expects that the connection on the path with this number isn't there and gets a free line.
fn expect_next_put(rt: &impl Abort, directory: &mut Directory, number: u16) -> Result<(), Fail> {
    let vc = Vc::new_at(Side::Nni, number, 100)?;
    expect_seating(rt, directory.find(vc), None);
    let line = directory.free_line().ok_or("a free line")?;
    assert!(rt; !directory.worn());
    let given = directory.put(vc, line, program(0));
    expect(rt, "its number", given, Ok(u64::from(number) + 1));
    Ok(())
}

/// Takes this connection, and expects that it has the incarnation that it got.
fn expect_taken(rt: &impl Abort, directory: &mut Directory, number: u16) -> Result<(), Fail> {
    let vc = Vc::new_at(Side::Nni, number, 100)?;
    let seating = directory.take(vc).ok_or("a seating")?;
    let wanted = u64::from(number) + 1;
    expect(rt, "its number", seating.incarnation, wanted);
    Ok(())
}
