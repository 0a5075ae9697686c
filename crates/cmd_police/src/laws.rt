//! Laws of the definitions that this crate's contracts cite. Each function does nothing; its contract is the law.

ghost use Rattle.cmd_police.specs.PoliceLaws.{PoliceTextsAreOne, PolicesEachCapture};
ghost use Rattle.cmd_police.specs.SpanLaws.{RowsCountCells, SpansAddUp};
ghost use Rattle.cmd_police.specs.SetupLaws.{LoadCommandsLoad, PolicesEachSetup, ProgramsKeepLines, ScriptsWithoutRulesStay};

/// A setup script and a capture have a text, for each scope and tick.
pub fn each_capture_has_a_text()
    ensures { PolicesEachCapture }
{}

/// A setup script, times of its lines and a capture have one text. On two threads, and however the input is cut, `police` writes that text.
pub fn a_policed_capture_has_one_text()
    ensures { PoliceTextsAreOne }
{}

/// The rows of a span have the counts of each connection's cells in it.
pub fn rows_count_cells()
    ensures { RowsCountCells }
{}

/// The counts of a connection in all spans of a run are what the run adds to its counts.
pub fn spans_add_up()
    ensures { SpansAddUp }
{}

/// A setup script, the texts of its files of rules and a capture have a text, for each scope and tick.
pub fn each_setup_has_a_text()
    ensures { PolicesEachSetup }
{}

/// A script with the programs of its rules has the lines of the script, each with its number.
pub fn programs_keep_lines()
    ensures { ProgramsKeepLines }
{}

/// A script without a line `rules NAME` stays as it is.
pub fn scripts_without_rules_stay()
    ensures { ScriptsWithoutRulesStay }
{}

/// `upc run` reads the command that loads a program of rules as the load of that program.
pub fn load_commands_load_their_programs()
    ensures { LoadCommandsLoad }
{}
