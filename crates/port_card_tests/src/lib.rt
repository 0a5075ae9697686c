//! Tests of the running card: what ports and the desk do to each other while they run, which no contract covers.
#![tactic(auto)]

#[cfg(test)]
mod tests;
