//! Explains texts of rules: what is wrong, what would be right, and which rules decide no cell.
#![tactic(auto)]

mod hint_comments;
mod hinted_rules;
mod meant_words;
mod near_names;
mod reasons;
mod rule_faults;
mod rule_hints;
mod rule_lines;
mod rule_tokens;
mod rules_explained;
mod spots;
mod token_parts;

pub use hint_comments::{Comments, add_hints_about};
pub use hinted_rules::compile_with_hints;
pub use rule_faults::add_rule_explanation;
pub use rule_tokens::RuleWord;
pub use rules_explained::explain_rules;
pub use rules_text::{digit, word_octet};
pub use spots::{Place, Spot};
pub use token_parts::{Part, Subject};
