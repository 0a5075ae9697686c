//! The lines of a script from its first cell line on, assigned to the ports and the desk that answer them.

ghost use Rattle.std.specs.Prelude.{◌≡◌, ◌<◌, ◌^◌, ℕ, List, IfOk, OnOk, length, map};
ghost use Rattle.text_script.specs.Dealing.{port_of, dealt, fault_dealt, none_dealt, AreLinesOf, DealsAll, DealsCell, DealsCellLine, DealsDeskLine, DealsLine};

use crate::cell_line::{CellLine, CellLineFault, read_by_words};
use crate::commands::named_command;
use crate::common_cell_line::read_common_cell;
use crate::script_lines::first_line;
use std::alloc::{AllocError, Global};
use text_io::first_word;
use upc_cell::{Cell, Side, Vc};

/// The number of channels of a path.
const CHANNELS: usize = 65536;

/// The answerer of a line. The lines of an answerer are in the script's order, so the number of a line among them isn't stored: a
/// script has one of these for each of its lines.
#[derive(Clone, Copy)]
pub enum Answerer {
    /// The port of this number, from 0.
    Port(u32),
    /// The desk.
    Desk,
    /// Nobody: the line is no command.
    BadLine,
    /// Nobody: the line has a cell that isn't hexadecimal.
    BadHex,
    /// Nobody: the line has a cell of another length than 52 octets. The length is the next of those of the deal.
    WrongLength,
}

/// The answerers of the lines.
#[derive(Drop)]
pub struct Deal<'a> {
    /// The answerers, in the script's order.
    pub order: Vec<Answerer>,
    /// The lines of the desk, in the script's order.
    pub desk: Vec<&'a [u8]>,
    /// The lines of each port's cells, by the port's number, in the script's order. The port reads them again: a line
    /// takes less memory than its cell.
    pub arrivals: Vec<Vec<&'a [u8]>>,
    /// The numbers of octets of the cells that don't have 52, in the script's order.
    pub lengths: Vec<usize>,
}

/// Returns the number of the port for the cells of this connection, of `ports` ports.
fn port_of(vc: Vc, ports: usize) -> usize
    requires { 0 < ports }
    ensures port { result ≡ port_of vc ports }
    ensures fits { result < 2 ^ 32 }
{
    (usize::from(vc.vpi) * CHANNELS + usize::from(vc.vci)) % ports
}

impl<'a> Deal<'a> {
    ghost use Rattle.std.specs.Prelude.{◌≡◌, ◌<◌, IfOk, OnOk, length};
    ghost use Rattle.text_script.specs.Dealing.{dealt, fault_dealt, none_dealt, DealsCell, DealsCellLine, DealsDeskLine, DealsLine};

    /// Assigns no line yet, for this number of ports.
    fn new(alloc: Global, ports: usize) -> Result<Deal<'a>, AllocError>
        ensures { IfOk result (λ deal. dealt deal ≡ none_dealt ports) }
    {
        let mut arrivals = Vec::new(alloc);
        for _ in 0..ports {
            arrivals.push(Vec::new(alloc))?;
        }
        Ok(Deal {
            order: Vec::new(alloc),
            desk: Vec::new(alloc),
            arrivals,
            lengths: Vec::new(alloc),
        })
    }

    /// Assigns the line of this cell to the cell's port.
    #[inline(always)]
    fn deal_cell(&mut self, side: Side, cell: &Cell, line: &'a [u8]) -> Result<(), AllocError>
        requires { 0 < length self.old.arrivals.items }
        ensures { OnOk result (DealsCell side cell.now line.now (dealt self.old) (dealt self.new)) }
    {
        let number = port_of(cell.vc_at(side), self.arrivals.len());
        let own = &mut self.arrivals[number];
        own.push(line)?;
        self.order.push(Answerer::Port(number as u32))?;
        Ok(())
    }

    /// Assigns a line to the desk.
    fn deal_desk_line(&mut self, line: &'a [u8]) -> Result<(), AllocError>
        ensures { OnOk result (DealsDeskLine line.now (dealt self.old) (dealt self.new)) }
    {
        self.order.push(Answerer::Desk)?;
        self.desk.push(line)?;
        Ok(())
    }

    /// Assigns a line with this error to nobody: only the error is stored.
    fn deal_fault(&mut self, fault: CellLineFault) -> Result<(), AllocError>
        ensures { OnOk result (dealt self.new ≡ fault_dealt fault (dealt self.old)) }
    {
        let answerer = match fault {
            CellLineFault::BadLine => Answerer::BadLine,
            CellLineFault::BadHex => Answerer::BadHex,
            CellLineFault::WrongLength(count) => {
                self.lengths.push(count)?;
                Answerer::WrongLength
            }
        };
        self.order.push(answerer)?;
        Ok(())
    }

    /// Assigns a cell line, which is read word by word.
    #[inline(never)]
    fn deal_cell_line(
        &mut self,
        alloc: Global,
        side: Side,
        line: &'a [u8],
    ) -> Result<(), AllocError>
        requires { 0 < length self.old.arrivals.items }
        ensures { OnOk result (DealsCellLine side line.now (dealt self.old) (dealt self.new)) }
    {
        match read_by_words(alloc, side, line)? {
            CellLine::Comes(_, cell) => self.deal_cell(side, &cell, line),
            CellLine::IsFaulty(fault) => self.deal_fault(fault),
        }
    }

    /// Assigns a line by its words.
    #[inline(never)]
    fn deal_by_words(&mut self, alloc: Global, side: Side, line: &'a [u8]) -> Result<(), AllocError>
        requires { 0 < length self.old.arrivals.items }
        ensures { OnOk result (DealsLine side line.now (dealt self.old) (dealt self.new)) }
    {
        let Some((name, rest)) = first_word(line) else {
            return self.deal_fault(CellLineFault::BadLine);
        };
        if name == b"cell".as_slice() {
            return self.deal_cell_line(alloc, side, line);
        }
        if named_command(side, name, rest).is_some() {
            return self.deal_desk_line(line);
        }
        self.deal_fault(CellLineFault::BadLine)
    }

    /// Assigns a line. A cell line in the common form is read at once, without a search for its words.
    #[inline(always)]
    fn deal_line(&mut self, alloc: Global, side: Side, line: &'a [u8]) -> Result<(), AllocError>
        requires { 0 < length self.old.arrivals.items }
        ensures { OnOk result (DealsLine side line.now (dealt self.old) (dealt self.new)) }
    {
        match read_common_cell(line) {
            Some(arrival) => self.deal_cell(side, &arrival.cell, line),
            None => self.deal_by_words(alloc, side, line),
        }
    }
}

/// Assigns the lines: each cell to the port of its connection, lines with an error to nobody, and all others to the desk.
pub fn deal_lines(
    alloc: Global,
    side: Side,
    lines: &[u8],
    ports: usize,
) -> Result<Deal<'_>, AllocError>
    requires { 0 < ports }
    ensures dealt { IfOk result (λ deal. (each : List (List ℕ)) → AreLinesOf lines.now each
        → DealsAll side each (none_dealt ports) (dealt deal)) }
    ensures one_each { IfOk result (λ deal. length deal.arrivals.items ≡ ports) }
{
    let mut deal = Deal::new(alloc, ports)?;
    let mut rest = lines;
    while let Some((line, later)) = first_line(rest) {
        deal.deal_line(alloc, side, line)?;
        rest = later;
    }
    Ok(deal)
}
