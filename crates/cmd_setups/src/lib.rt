//! What `police` and `forward` need of a setup script where no rules are read: its lines, its card, and the counts and
//! comments about the cells of that card.
#![tactic(auto)]

mod card_room;
mod columns;
mod connection_counts;
mod counts_at_setup;
mod file_names;
mod not_judged;
mod noted_setups;
mod rules_lines;
mod run_comments;
mod script_lines;
mod setting_up;
mod setup_tick;
mod shared_text;
mod span_length;
mod span_rows;
mod spans;
mod stored_commands;
mod timed_card;
mod timed_lines;

pub use card_room::{CardRoom, files_read};
pub use columns::verdict_in;
pub use connection_counts::add_counts;
pub use counts_at_setup::CountsAtSetup;
pub use file_names::add_escaped_name;
pub use not_judged::{NotJudged, add_not_judged};
pub use rules_lines::{has_rules, name_within};
pub use run_comments::add_run_comments;
pub use script_lines::next_line;
pub use setting_up::{Explanation, SetUp, explanation_of, set_up};
pub use setup_tick::{TicksDiffer, add_ticks_differ, agreed_tick, take_tick};
pub use shared_text::SharedText;
pub use span_length::SpanLength;
pub use span_rows::SpanRows;
pub use spans::Spans;
pub use stored_commands::{StoredCommand, StoredCommands, add_waiting, before_times};
pub use timed_card::TimedCard;
pub use timed_lines::{TimedScript, take_times};
