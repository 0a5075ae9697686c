//! Laws of the definitions that this crate's contracts cite. Each function does nothing; its contract is the law.

ghost use Rattle.captures_text.specs.CellsText.{CapturesHaveOneCellsText, CellsAreWritten};

/// A file has one text of `cells`, for each tick and link.
pub fn captures_have_one_text()
    ensures { CapturesHaveOneCellsText }
{}

/// The text of `cells` has a line for each cell that counts, and then the answer to their end.
pub fn cells_are_written()
    ensures { CellsAreWritten }
{}
