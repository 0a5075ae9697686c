//! Records whose cells are not policed.

/// What becomes of records without a cell that counts: those of another type, with an error, or cut short, of another
/// link than the one that was asked for, and those whose time goes back.
#[derive(Clone, Copy)]
pub enum Others {
    /// They go on as they came.
    Pass,
    /// They don't go on.
    Drop,
}
