//! Isolation of the connections of an ATM cell policer: the outcomes of the acts for one connection depend only on
//! these acts. Laws of the logs of a card.
#![tactic(auto)]

pub mod laws;
