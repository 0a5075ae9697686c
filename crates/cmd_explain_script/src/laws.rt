//! Laws of the definitions. Each function does nothing; its contract is the law.

ghost use Rattle.cmd_explain_script.specs.AsRun.{NamesFaultsOfRun};
ghost use Rattle.cmd_explain_script.specs.CommandFits.{CommandsFit};
ghost use Rattle.cmd_explain_script.specs.ContractNumbers.{RefusesEachCell};
ghost use Rattle.cmd_explain_script.specs.ExplanationLaws.{ScriptsHaveOneExplanation};
ghost use Rattle.cmd_explain_script.specs.FoundWords.{FindsWords};

/// What `explain` prints for a script has the fault lines of `upc run`, in the same order, each with its explanation.
pub fn explain_names_the_faults_of_run()
    ensures { NamesFaultsOfRun }
{}

/// A script has one explanation.
pub fn a_script_has_one_explanation()
    ensures { ScriptsHaveOneExplanation }
{}

/// A connection whose code names none of its contracts, as a hint says, refuses each cell.
pub fn a_connection_with_a_hint_refuses_each_cell()
    ensures { RefusesEachCell }
{}

/// The words that are found, by their columns and sizes, are the words of the line.
pub fn found_words_are_those_of_the_line()
    ensures { FindsWords }
{}

/// A line is a command exactly if its first word is the name of one, and each word after it fits its slot, with none missing. So each
/// line that is no command has a word to blame, or too few words.
pub fn commands_are_the_lines_whose_words_fit()
    ensures { CommandsFit }
{}
