//! One module for each group of crates.

mod choices;
mod comparisons;
mod devices;
mod faults;
mod lines;
mod ports;
mod programs;
mod scripts;
mod subcommands;
mod two_threads;
