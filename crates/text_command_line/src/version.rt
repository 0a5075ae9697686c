//! The version of both programs.

/// The version of both programs: that of the library for C (`UPC_VERSION` in include/upc.h), and 0.
pub const VERSION: &str = "2.0";
