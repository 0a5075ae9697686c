//! Laws of the definitions. Each function does nothing; its contract is the law.

ghost use Rattle.cmd_explain.specs.SourceHints.{OutsideEndsProgram};
ghost use Rattle.cmd_explain.specs.AsCheck.{NamesFaultsOfCheck};
ghost use Rattle.cmd_explain.specs.FoundTokens.{FindsTokens};

/// The answer of `explain` to a source begins with the fault line of `upc check`, and is a fault only where that is.
pub fn explain_names_the_faults_of_check()
    ensures { NamesFaultsOfCheck }
{}

/// A load for which a hint is given ends the program with 0 on every cell, whatever the registers and the scratch memory hold.
pub fn a_load_from_outside_ends_the_program()
    ensures { OutsideEndsProgram }
{}

/// The tokens that are found, by their columns and sizes, are those of the assembler.
pub fn found_tokens_are_those_of_the_assembler()
    ensures { FindsTokens }
{}
