//! The instructions of classic BPF and their encoding in eight octets.
#![tactic(auto)]

mod decoder;
mod encoder;
mod instr;
pub mod laws;

pub use decoder::{DecodeFault, decode, decode_one};
pub use encoder::{EncodeFault, encode, encode_one};
pub use instr::{By, Instr, Op, Size, Test};
