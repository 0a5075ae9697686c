//! What the commands of the desk do to the lines of a card: they are made, set up, released and cut.

ghost use Rattle.std.specs.Prelude.{◌≡◌, ◌<◌, ◌≤◌, ◌^◌, false, length, replicate, None, Some, IfSome};
ghost use Rattle.card_core.specs.inner.Parts.{ChangesLine, CutsOrRefuses, ReleasesOrRefuses, SetsUpOrRefuses};
ghost use Rattle.line_record.specs.Directory.{IsOpenLine, seating_at};
ghost use Rattle.line_record.specs.Line.{free_line};
ghost use Rattle.line_record.specs.Tally.{nothing};

use crate::ask::Ask;
use crate::desk;
use crate::fault::DeskFault;
use line_record::{Directory, Line, MOST_ENTRIES, Owner, Piece, Seating};
use std::alloc::Global;
use upc_cell::Vc;

/// Makes `many` free lines, whose journals have at most `journal` entries. Returns None if an allocation fails.
pub(crate) fn free_lines(alloc: Global, many: usize, journal: u32) -> Option<Vec<Line>>
    requires some { 1 ≤ journal }
    requires most { journal ≤ MOST_ENTRIES }
    ensures { IfSome result (λ lines. lines.items ≡ replicate many (free_line journal nothing false)) }
{
    let Ok(mut lines) = Vec::with_capacity(alloc, many) else {
        return None;
    };
    for _ in 0..many {
        let Ok(line) = Line::new(alloc, journal) else {
            return None;
        };
        lines.push_reserved(line);
    }
    Some(lines)
}

/// Sets up a connection on the line of this number, as [`desk::setup`] does.
pub(crate) fn setup_line(
    directory: &mut Directory,
    lines: &mut Vec<Line>,
    number: u16,
    ask: Ask,
) -> Result<Owner, (DeskFault, Ask)>
    requires there { number < length lines.old.items }
    requires absent { seating_at directory.old ask.vc ≡ None }
    requires within { number < directory.old.lines }
    requires open { IsOpenLine directory.old number }
    requires some { 0 < length ask.contracts.items }
    requires unworn { directory.old.used < 2 ^ 62 }
    ensures line { ChangesLine lines.old.items number
        (SetsUpOrRefuses directory.old directory.new number ask result) lines.new.items }
    ensures lines { directory.new.lines ≡ directory.old.lines }
{
    let line = &mut lines[usize::from(number)];
    desk::setup(directory, line, number, ask)
}

/// Releases a connection from the line of its seating, as [`desk::release`] does.
pub(crate) fn release_line(
    directory: &mut Directory,
    lines: &mut Vec<Line>,
    vc: Vc,
    seating: &Seating,
) -> Result<Piece, DeskFault>
    requires there { seating.now.line < length lines.old.items }
    requires sits { seating_at directory.old vc ≡ Some seating.now }
    ensures line { ChangesLine lines.old.items seating.now.line
        (ReleasesOrRefuses directory.old directory.new vc seating.now result) lines.new.items }
    ensures lines { directory.new.lines ≡ directory.old.lines }
{
    let line = &mut lines[usize::from(seating.line)];
    desk::release(directory, line, vc)
}

/// Returns a connection's journal and begins a new one on the line of its seating, as [`desk::cut`] does.
pub(crate) fn cut_line(lines: &mut Vec<Line>, vc: Vc, seating: &Seating) -> Result<Piece, DeskFault>
    requires { seating.now.line < length lines.old.items }
    ensures { ChangesLine lines.old.items seating.now.line
        (CutsOrRefuses vc seating.now result) lines.new.items }
{
    let line = &mut lines[usize::from(seating.line)];
    desk::cut(line, vc, seating)
}
