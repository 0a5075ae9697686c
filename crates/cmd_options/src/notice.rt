//! What the program says if its input is a terminal, because nothing else shows that it waits for input.

ghost use Rattle.std.specs.Prelude.{◌≡◌, Some};
ghost use Rattle.text_command_line.specs.Subcommands.{meaning_in};
ghost use Rattle.cmd_options.specs.LabNotices.{asked_notice, lab_name_of, lab_notice};
ghost use Rattle.cmd_options.specs.LabWords.{lab_subcommands};

use crate::choice::{Asked, Subcommand};

/// Returns the notice for what was asked, which begins with the name of the subcommand.
pub fn awaited(asked: &Asked) -> &'static str
    ensures { result.now ≡ asked_notice asked.now }
{
    match asked {
        Asked::Plain(subcommand) => notice_of(*subcommand),
        Asked::Why(_) => {
            "upc-lab why: reading rules, a line `cells` and cells from the terminal, to its end"
        }
        Asked::Cells(_) => "upc-lab cells: reading a capture from the terminal, to its end",
        Asked::Fit(_) => "upc-lab fit: reading a capture from the terminal, to its end",
        Asked::Police(_) => "upc-lab police: reading a capture from the terminal, to its end",
        Asked::Forward(_) => "upc-lab forward: reading a capture from the terminal, to its end",
        Asked::Differ(_) =>
            "upc-lab differ: reading rules or a program from the terminal, to its end",
        Asked::Explain(_) =>
            "upc-lab explain: reading a script from the terminal, or a line `source` or `rules` and what it says, to its end",
    }
}

/// Returns the notice for a subcommand without options, which begins with its name.
fn notice_of(subcommand: Subcommand) -> &'static str
    ensures text { result.now ≡ lab_notice subcommand }
    ensures named { meaning_in lab_subcommands (lab_name_of subcommand) ≡ Some subcommand }
{
    match subcommand {
        Subcommand::Rules => "upc-lab rules: reading rules from the terminal, to its end",
        Subcommand::Asm => "upc-lab asm: reading rules from the terminal, to its end",
        Subcommand::Unused => "upc-lab unused: reading rules from the terminal, to its end",
        Subcommand::List => "upc-lab list: reading a program from the terminal, to its end",
        Subcommand::Trace =>
            "upc-lab trace: reading a program and cells from the terminal, to its end",
        Subcommand::Size => "upc-lab size: reading contracts from the terminal, to its end",
        Subcommand::Links => "upc-lab links: reading a capture from the terminal, to its end",
    }
}
