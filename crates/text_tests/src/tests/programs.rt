//! Hexadecimal words compared with the library, as compiled; and the texts of fault lines, which no contract relates
//! to the crates of the errors.

mod digits;
mod fault_lines;
