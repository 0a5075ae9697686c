//! Laws of the definitions that this crate's contracts cite. Each function does nothing; its contract is the law.

ghost use Rattle.std.specs.Prelude.{◌≡◌, ℕ, List};
ghost use Rattle.text_io.specs.Lines.{lines_of};
ghost use Rattle.text_io.specs.Printing.{EndsAt};
ghost use Rattle.cmd_ports.specs.PortsText.{ScriptReading, reading_rules, unread};

/// A script is read in at most one way: its octets have one shape and one list of lines.
pub fn a_script_is_read_in_one_way()
    ensures { (octets text text' : List ℕ) (one other : ScriptReading)
        → EndsAt reading_rules 0 unread (lines_of octets) text one
        → EndsAt reading_rules 0 unread (lines_of octets) text' other
        → one ≡ other }
{}
