//! Laws of the definitions. Each function does nothing; its contract is the law.

ghost use Rattle.cmd_differ.specs.DifferLaws.{EachCellThatDiffersHasItsLine, TheSameGiveEachCellOneValue};
ghost use Rattle.cmd_differ.specs.OneAnswer.{ATextHasOneAnswer, TwoTextsHaveOneAnswer};
ghost use Rattle.cmd_differ.specs.UnusedLaws.{ExactlyTheUnusedAreNamed};

/// Texts that are found to be the same give each cell one value.
pub fn the_same_give_each_cell_one_value()
    ensures { TheSameGiveEachCellOneValue }
{}

/// What two texts decide for a cell to which they give two values has its line, with the least such cell.
pub fn each_cell_that_differs_has_its_line()
    ensures { EachCellThatDiffersHasItsLine }
{}

/// The rules of a text that are named are exactly those that decide no cell.
pub fn exactly_the_unused_are_named()
    ensures { ExactlyTheUnusedAreNamed }
{}

/// Two answers of `differ` to the same texts are the same, unless one says that nothing is decided.
pub fn two_texts_have_one_answer()
    ensures { TwoTextsHaveOneAnswer }
{}

/// Two answers of `unused` to the same text are the same, unless one says that nothing is decided.
pub fn a_text_has_one_answer()
    ensures { ATextHasOneAnswer }
{}
