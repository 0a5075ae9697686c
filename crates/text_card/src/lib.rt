//! The lines of a script and of its answers that are about a card: the line that opens a card, the fault lines of the
//! card's shape, rates and desk, and the answers to the card's cells.
#![tactic(auto)]

mod card_faults;
mod card_line;
mod cell_answers;

pub use card_faults::{
    add_desk_fault, add_gcra_fault, add_no_card, add_no_such_program, add_shape_fault,
};
pub use card_line::{named_side, read_card};
pub use cell_answers::{add_answer, add_judged, add_unjudged};
