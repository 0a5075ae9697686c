//! The line of each connection, found in three reads.

ghost use Rattle.std.specs.Prelude.{◌≡◌, ◌≢◌, ◌<◌, length, slice_index};
ghost use Rattle.vc_table.specs.Lines.{row_place, mark_place};
ghost use Rattle.vc_table.specs.inner.Pool.{pool_of};
ghost use Rattle.vc_table.specs.inner.Linked.{IsLinked};
ghost use Rattle.vc_table.specs.inner.TableFields.{KeepsTable, HasBlock, HasSameMarks};

use crate::blocks::{self, Blocks, SIZE, is_blank};
use crate::fault::TableFault;
use crate::links::{linked, unlink};
use std::alloc::Global;
use std::marker::Model;
use upc_cell::Vc;

/// The number of places of the row: one for each of 4096 paths and each of the 16 values of a channel's upper four bits.
const ROW: usize = 65536;

/// The line of each connection, for connections at either interface.
///
/// A connection's path and channel have 28 bits. The path and the upper four bits of the channel lead to a group. In the
/// group the next six bits of the channel lead to a block of marks, and in this block the last six bits lead to the
/// connection's mark. Each look-up reads three numbers, whichever connections have lines, so nobody can slow look-ups down
/// by a choice of connections. Look-ups by a hash with a fixed seed can be slowed down a hundred times.
#[derive(Debug, Drop)]
pub struct VcLines {
    /// For each path and each value of a channel's upper four bits, the number of its group, or 0 if it has none.
    row: Vec<u16>,
    /// The groups: for each 64 channels the number of their block of marks, or 0 if they have none.
    groups: Blocks,
    /// The marks: for each channel the number of its line plus 1, or 0 if it has no line.
    lines: Blocks,
}

impl Model for VcLines {
    ghost use Rattle.vc_table.specs.Lines.{ConnectionTable};

    ghost Value = { ConnectionTable };

    ghost use Rattle.vc_table.specs.inner.Pool.{pool_of};
    ghost use Rattle.vc_table.specs.inner.TableFields.{table_of, KeepsTable};

    ghost view = { λ t. table_of t.row.items t.groups.entries.items t.lines.entries.items };

    ghost invariant = { λ t. KeepsTable t.row.items (pool_of t.groups) (pool_of t.lines) };
}

impl VcLines {
    ghost use Rattle.std.specs.Prelude.{◌≡◌, ◌↔◌, Some, None, IsErrOf, IfSome, OnOk, OnErr};
    ghost use Rattle.upc_cell.specs.declared.vc.Vc.{Vc as Connection};
    ghost use Rattle.vc_table.specs.Lines.{line_of, HasSameLines, MovesTo};

    /// Makes a table in which no connection has a line. Returns None if an allocation fails.
    pub fn new(alloc: Global) -> Option<Self>
        ensures { IfSome result (λ table. (vc : Connection) → line_of table vc ≡ None) }
    {
        let row = blocks::zeros(alloc, ROW)?;
        let groups = blocks::new(alloc)?;
        let lines = blocks::new(alloc)?;
        Some(VcLines { row, groups, lines })
    }

    /// Returns the line of the connection, if it has one. Doesn't allocate.
    #[inline]
    pub fn find(&self, vc: Vc) -> Option<u16>
        ensures { result ≡ line_of self.now vc }
    {
        let mark = self.lines.entries[place_of(&self.row, &self.groups, vc)];
        mark.checked_sub(1)
    }

    /// Gives the connection this line, in place of the line that it has, if any.
    ///
    /// # Errors
    ///
    /// `LineTooLarge` exactly if the line is 65535; otherwise `Full` if 65,535 blocks of marks or 65,535 groups are in use, which takes
    /// at least as many connections, or `NoMemory` if an allocation fails. After an error each connection has the line that it had.
    pub fn put(&mut self, vc: Vc, line: u16) -> Result<(), TableFault>
        ensures moved { OnOk result (MovesTo self.old vc (Some line) self.new) }
        ensures unchanged { OnErr result (HasSameLines self.old self.new) }
        ensures too_large { IsErrOf result TableFault.LineTooLarge ↔ (line ≡ 65535) }
    {
        if line == u16::MAX {
            return Err(TableFault::LineTooLarge);
        }
        if let Err(fault) = blocks::ready_both(&mut self.groups, &mut self.lines) {
            return Err(fault);
        }
        let place = linked_place(&mut self.row, &mut self.groups, &mut self.lines, vc);
        self.lines.entries[place] = line + 1;
        Ok(())
    }

    /// Takes the line away from the connection and returns it. If it has none, returns None and changes nothing. Doesn't
    /// allocate. Blocks that have no line any more are kept for other connections.
    pub fn remove(&mut self, vc: Vc) -> Option<u16>
        ensures before { result ≡ line_of self.old vc }
        ensures gone { MovesTo self.old vc None self.new }
    {
        let place = place_of(&self.row, &self.groups, vc);
        let line = self.lines.entries[place].checked_sub(1)?;
        self.lines.entries[place] = 0;
        tidy(&mut self.row, &mut self.groups, &mut self.lines, vc);
        Some(line)
    }
}

/// Returns a place in the row: 4096 times the upper four bits of the channel, plus the path.
#[inline]
fn path_place(vc: Vc) -> usize
    ensures place { result ≡ row_place vc }
    ensures within { result < 65536 }
{
    usize::from(vc.vci) / 4096 * 4096 + usize::from(vc.vpi)
}

/// Returns the place of the connection's mark. Group 0 and block 0 have only zeros, so a connection without a group or a
/// block gets the mark 0.
#[inline]
fn place_of(row: &Vec<u16>, groups: &Blocks, vc: Vc) -> usize
    requires rows { length row.now.items ≡ 65536 }
    requires upper { IsLinked row.now.items (pool_of groups.now) }
    ensures { result ≡ mark_place row.now.items groups.now.entries.items vc }
{
    let channel = usize::from(vc.vci);
    let group = row[path_place(vc)];
    let block = groups.entries[SIZE * usize::from(group) + channel / SIZE % SIZE];
    SIZE * usize::from(block) + channel % SIZE
}

/// Gives the connection a group and a block of marks, if it has none, and returns the place of its mark. No mark changes.
fn linked_place(row: &mut Vec<u16>, groups: &mut Blocks, lines: &mut Blocks, vc: Vc) -> usize
    requires table { KeepsTable row.old.items (pool_of groups.old) (pool_of lines.old) }
    requires group { groups.old.first ≢ 0 }
    requires block { lines.old.first ≢ 0 }
    ensures kept { KeepsTable row.new.items (pool_of groups.new) (pool_of lines.new) }
    ensures place { result ≡ mark_place row.new.items groups.new.entries.items vc }
    ensures reached { HasBlock row.new.items groups.new.entries.items vc }
    ensures marks { lines.new.entries.items ≡ lines.old.entries.items }
    ensures same { HasSameMarks row.old.items groups.old.entries.items row.new.items groups.new.entries.items lines.old.entries.items }
{
    let channel = usize::from(vc.vci);
    let group = linked(row, path_place(vc), groups);
    let place = SIZE * usize::from(group) + channel / SIZE % SIZE;
    let block = linked(&mut groups.entries, place, lines);
    SIZE * usize::from(block) + channel % SIZE
}

/// Frees the connection's block of marks if it has only zeros, and then its group if that has only zeros. No mark changes.
fn tidy(row: &mut Vec<u16>, groups: &mut Blocks, lines: &mut Blocks, vc: Vc)
    requires table { KeepsTable row.old.items (pool_of groups.old) (pool_of lines.old) }
    requires reached { HasBlock row.old.items groups.old.entries.items vc }
    ensures kept { KeepsTable row.new.items (pool_of groups.new) (pool_of lines.new) }
    ensures marks { lines.new.entries.items ≡ lines.old.entries.items }
    ensures same { HasSameMarks row.old.items groups.old.entries.items row.new.items groups.new.entries.items lines.old.entries.items }
{
    let path = path_place(vc);
    let group = row[path];
    let place = SIZE * usize::from(group) + usize::from(vc.vci) / SIZE % SIZE;
    let block = groups.entries[place];
    if !is_blank(&lines.entries, block) {
        return;
    }
    unlink(&mut groups.entries, place, lines);
    if is_blank(&groups.entries, group) {
        unlink(row, path, groups);
    }
}
