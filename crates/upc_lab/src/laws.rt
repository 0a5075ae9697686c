//! Laws of the definitions. Each function does nothing; its contract is the law.

ghost use Rattle.std.specs.Prelude.{ℕ, List, Option};
ghost use Rattle.text_io.specs.declared.ending.Done.{Done as TheDone};
ghost use Rattle.upc_lab.specs.LabText.{IsAskedText};
ghost use Rattle.cmd_options.specs.declared.choice.Asked.{Asked as TheAsked};

/// Each subcommand, with any options, any setup script and tick, any files of rules and any old text or rules of
/// `fit`, has an answer to every input.
pub fn each_input_has_an_answer()
    ensures { (asked : TheAsked) (setup : List ℕ) (tick : Option ℕ) (rules : List (List ℕ)) (other octets : List ℕ)
        → (answer : List ℕ) × (done : TheDone) × IsAskedText setup tick rules other asked octets answer done }
{}
