//! Tests of whole cards, step by step. They call only public items. The tests have their own crate because a crate with tests is
//! proved twice.
#![tactic(auto)]

#[cfg(test)]
mod tests;
