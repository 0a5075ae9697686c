//! Laws of the definition of texts of rules. Each is the contract of a function that does nothing.

ghost use Rattle.rules_text.specs.NameLaws.{LinesAddWhatNamesMean, RoomIsNoLimitWithin};
ghost use Rattle.rules_text.specs.Laws.{CodeGivesWhatIsDecided, HeadsAreReadAsTheyAreWritten, PlacesAreThoseOfTheLines, OnlyWrittenHeadsAreRead, OnlyWrittenRulesAreRead, RulesAreReadAsTheyAreWritten, TextsHaveOneCode};

/// A line with the tokens of a test of the grammar, `->` and a token that is a value is read as this rule.
pub fn rules_are_read_as_they_are_written()
    ensures { RulesAreReadAsTheyAreWritten }
{}

/// A line with the tokens of a test of the grammar and `{` is read as the head of this block.
pub fn heads_are_read_as_they_are_written()
    ensures { HeadsAreReadAsTheyAreWritten }
{}

/// A line that is read as a rule has the tokens of a test of the grammar, `->` and a token that is a value, and is this rule.
pub fn only_written_rules_are_read()
    ensures { OnlyWrittenRulesAreRead }
{}

/// A line that is read as the head of a block has the tokens of a test of the grammar and `{`, and is this head.
pub fn only_written_heads_are_read()
    ensures { OnlyWrittenHeadsAreRead }
{}

/// The place of a line of rules is where the line begins in the text.
pub fn places_are_those_of_the_lines()
    ensures { PlacesAreThoseOfTheLines }
{}

/// A code that follows a text gives each cell the value that the text's rules decide.
pub fn code_gives_what_is_decided()
    ensures { CodeGivesWhatIsDecided }
{}

/// Each text of rules has one code.
pub fn texts_have_one_code()
    ensures { TextsHaveOneCode }
{}

/// A line without a fault adds what its names mean, and no more than names may add.
pub fn lines_add_what_names_mean()
    ensures { LinesAddWhatNamesMean }
{}

/// Where names may add as much as they do in a line, the limit changes nothing of what is read.
pub fn room_is_no_limit_within()
    ensures { RoomIsNoLimitWithin }
{}
