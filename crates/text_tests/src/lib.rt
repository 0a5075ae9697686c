//! Tests of the crates that read and print text: lines and devices, programs and their errors, scripts and their
//! answers, scripts of running cards, the subcommands of `upc`, the words that choose one, captures that are read while their cells
//! are answered, rules that are compiled and compared, and the texts of faults. They call only public items. The tests have their own
//! crate because a crate with tests is proved twice.
#![tactic(auto)]

#[cfg(test)]
mod tests;
