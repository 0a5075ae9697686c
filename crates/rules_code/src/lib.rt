//! Tests on the numbers in a packet, lines of such tests, and the classic BPF code that decides them.
#![tactic(auto)]

mod bits;
mod bounds;
mod draft;
mod fault;
mod leaves;
mod lines;
mod neighbours;
mod order;
mod packet_part;
mod plain_test;
mod tests_code;

pub use bits::BitTest;
pub use bounds::{BoundTest, comparison_test};
pub use draft::Ways;
pub use fault::CodeFault;
pub use lines::{Line, PlacedCode, generate, generate_placed};
pub use neighbours::all_of;
pub use order::in_order;
pub use packet_part::{KnownOnBranches, Part, Single, Span};
pub use plain_test::PlainTest;
