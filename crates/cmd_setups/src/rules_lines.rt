//! The lines of a setup script that name files of rules.

ghost use Rattle.std.specs.Prelude.{◌≡◌, [], false, option_map};
ghost use Rattle.cmd_setups.specs.RulesLines.{name_within, rules_name, rules_names};

use crate::card_room::MOST_LINE_OCTETS;
use crate::script_lines::next_line;
use text_io::first_word;

/// Returns the name of the file of rules that a line names, if it is a line `rules NAME`.
#[tactic(auto, unfolding(crate::specs::RulesLines::rules_name))]
pub(crate) fn rules_name(line: &[u8]) -> Option<&[u8]>
    ensures { option_map (λ name. name.now) result ≡ rules_name line.entry.now }
{
    let (word, after) = first_word(line)?;
    if word != b"rules".as_slice() {
        return None;
    }
    let (name, rest) = first_word(after)?;
    match first_word(rest) {
        None => Some(name),
        Some(_) => None,
    }
}

/// Returns the name of the file of rules that a line of this number of octets names, if it is a line `rules NAME`. One over the limit names none.
pub fn name_within(line: &[u8], octets: usize) -> Option<&[u8]>
    ensures { option_map (λ name. name.now) result ≡ name_within octets line.entry.now }
{
    if octets > MOST_LINE_OCTETS {
        return None;
    }
    rules_name(line)
}

/// Returns whether a script has a line `rules NAME`.
pub fn has_rules(script: &[u8]) -> bool
    ensures { result ≡ false → rules_names script.now ≡ [] }
{
    let mut left = script;
    while let Some((line, octets, _, rest)) = next_line(left) {
        if name_within(line, octets).is_some() {
            return true;
        }
        left = rest;
    }
    false
}
