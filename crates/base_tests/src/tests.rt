//! One module for each crate, and what they share.

mod arena;
mod assembly;
mod buckets;
mod cells;
mod checks;
mod directories;
mod expecting;
mod instructions;
mod lines;
mod machine;
mod table;
