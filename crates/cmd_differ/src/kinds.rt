//! The kinds of the texts that are compared.

/// What is in a text.
#[derive(Clone, Copy)]
pub enum TextKind {
    /// Rules.
    Rules,
    /// A program in hexadecimal.
    Program,
}

/// The kinds of the two texts of a comparison.
#[derive(Clone, Copy)]
pub struct TextKinds {
    /// The text before the change.
    pub old: TextKind,
    /// The text after it.
    pub new: TextKind,
}
