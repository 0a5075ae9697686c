//! Laws of the definitions. Each function does nothing; its contract is the law.

ghost use Rattle.std.specs.Prelude.{◌≡◌, ℕ, List};
ghost use Rattle.text_io.specs.declared.ending.Done.{Done as TheDone};
ghost use Rattle.upc.specs.Subcommand.{IsTextOf, HasOneText};
ghost use Rattle.text_command_line.specs.declared.choice.Choice.{Choice as TheChoice};

/// Each subcommand has a text for every input.
pub fn an_input_has_a_text()
    ensures { (choice : TheChoice) (octets : List ℕ) → (text : List ℕ) × (done : TheDone) × IsTextOf choice octets text done }
{}

/// Each subcommand but `ports` has at most one text for an input, with one end. So `run_on_one_thread` fixes the octets that
/// are written.
pub fn an_input_has_one_text()
    ensures { (choice : TheChoice) (octets : List ℕ) (one other : List ℕ) (ends other_ends : TheDone)
        → HasOneText choice → IsTextOf choice octets one ends → IsTextOf choice octets other other_ends
        → (one ≡ other) × (ends ≡ other_ends) }
{}
