//! Tests of cells, programs and the parts of a line. They call only public items. The tests have their own crate because a crate with
//! tests is proved twice.
#![tactic(auto)]

#[cfg(test)]
mod tests;
