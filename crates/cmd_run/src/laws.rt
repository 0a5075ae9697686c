//! Laws of the definitions: functions that do nothing. Each exists for its contract.

ghost use Rattle.std.specs.Prelude.{◌≡◌, ℕ, List};
ghost use Rattle.text_io.specs.declared.ending.Done.{Done as TheDone};
ghost use Rattle.cmd_run.specs.PathLaws.{PathsAreConnections};
ghost use Rattle.cmd_run.specs.RunText.{IsRunText};

/// A script has one text of `run`, although a card may choose the slot of a program and the line of a connection. No
/// answer shows either choice. No error shows it either: an input has at most 1,000,000 lines, so no slot runs out of
/// generations, and no line of the card judges 2^62 cells.
pub fn a_script_has_one_text()
    ensures { (octets : List ℕ) (one other : List ℕ) (ends other_ends : TheDone)
        → IsRunText octets one ends → IsRunText octets other other_ends
        → (one ≡ other) × (ends ≡ other_ends) }
{}

/// On a card of virtual paths the cells of one path belong to one connection, whatever their channels.
pub fn cells_of_a_path_belong_to_one_connection()
    ensures { PathsAreConnections }
{}
