//! Laws of the definitions that this crate's contracts cite. Each function does nothing; its contract is the law.

ghost use Rattle.cmd_fit.specs.FitLaws.{CapturesHaveOneFitText, ClassesAreAlone, FitsAreLeast, FitsAreWritten, LinesAreOfFlows, MomentsGoOn};
ghost use Rattle.cmd_fit.specs.LinkLaws.{LinksAreCounted, RowsAreFew};
ghost use Rattle.cmd_fit.specs.LinksText.{CapturesHaveOneLinksText};

/// The limit of each connection is the least one under which all its cells conform, and the named record is the first
/// whose cell doesn't conform under one less. With rules this is so of the cells of each connection and value.
pub fn fits_are_least()
    ensures { FitsAreLeast }
{}

/// A run for a class ends in the same states as a run for all classes over the cells of the class alone.
pub fn classes_are_alone()
    ensures { ClassesAreAlone }
{}

/// The moments of a connection's cells of a class, or with rules of those of one value, never go back.
pub fn moments_go_on()
    ensures { MomentsGoOn }
{}

/// A run that no cell ends writes the limits of these states at the end.
pub fn fits_are_written()
    ensures { FitsAreWritten }
{}

/// The table has one line for each connection with cells, or with rules for each connection and value, and none for another.
pub fn lines_are_of_flows()
    ensures { LinesAreOfFlows }
{}

/// A file has one text of `fit`, for each increment, tick, link, side and class, with or without a text of rules.
pub fn captures_have_one_text()
    ensures { CapturesHaveOneFitText }
{}

/// A file has one text of `links`.
pub fn captures_have_one_links_text()
    ensures { CapturesHaveOneLinksText }
{}

/// Each link of a cell has one row of `links`, which says what its records say, unless 4096 others have one.
pub fn links_are_counted()
    ensures { LinksAreCounted }
{}

/// At most 4096 links have a row.
pub fn rows_are_few()
    ensures { RowsAreFew }
{}
