//! Laws of the definitions. Each function does nothing; its contract is the law.

ghost use Rattle.cmd_rules.specs.AsmLaws.{SourcesAreCheckedAlike};
ghost use Rattle.cmd_rules.specs.CommentLines.{CommentLinesMeanNothing};
ghost use Rattle.cmd_rules.specs.RulesLaws.{RulesHaveOneText};
ghost use Rattle.cmd_rules.specs.WhyLaws.{RulesBeginTheInput, WhyHasOneText};

/// A source of assembly means the same code with comment lines added.
pub fn comment_lines_mean_nothing()
    ensures { CommentLinesMeanNothing }
{}

/// `upc check` answers the source of a text of rules as `upc-lab rules` answers the text.
pub fn sources_are_checked_alike()
    ensures { SourcesAreCheckedAlike }
{}

/// An input of `upc-lab rules` has one text.
pub fn rules_have_one_text()
    ensures { RulesHaveOneText }
{}

/// The text of the rules is the beginning of an input of `upc-lab why`, octet by octet.
pub fn rules_begin_the_input()
    ensures { RulesBeginTheInput }
{}

/// An input of `upc-lab why` has one text.
pub fn why_has_one_text()
    ensures { WhyHasOneText }
{}
