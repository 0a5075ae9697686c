//! What is known of a machine at a place of its program.

ghost use Rattle.std.specs.Prelude.{◌≡◌, IfSome, IsTrue};
ghost use Rattle.bpf_code.specs.declared.instr.Instr.{Instr as Written};
ghost use Rattle.rules_diagrams.specs.inner.Following.{IsPutInto, PutsInto};
ghost use Rattle.rules_diagrams.specs.inner.Registers.{contents_with};
ghost use Rattle.rules_diagrams.specs.declared.contents.Contents.{Contents as Known};
ghost use Rattle.rules_diagrams.specs.declared.contents.Register.{Register as Into};

use crate::diagram::Diagram;
use crate::word::Bit;
use bpf_code::Test;

/// The contents of the registers and of the scratch words.
#[derive(Clone, Copy)]
pub(crate) struct Contents {
    /// The bits of A, the lowest first.
    pub a: [Bit; 32],
    /// The bits of X.
    pub x: [Bit; 32],
    /// The bits of each scratch word that was written.
    pub scratch: [Option<[Bit; 32]>; 16],
}

/// The contents when a program begins.
pub(crate) const FIRST: Contents = Contents {
    a: [Bit::Zero; 32],
    x: [Bit::Zero; 32],
    scratch: [None; 16],
};

/// Whether two bits are the same.
fn same_bit(one: Bit, other: Bit) -> bool
    ensures { IsTrue result → one ≡ other }
{
    one == other
}

/// Whether bits are the same.
fn same_bits(one: &[Bit], other: &[Bit]) -> bool
    ensures { IsTrue result → one.now ≡ other.now }
{
    match one {
        [] => other.is_empty(),
        [first, more @ ..] => match other {
            [] => false,
            [second, rest @ ..] => same_bit(*first, *second) && same_bits(more, rest),
        },
    }
}

/// Whether two scratch words are the same.
fn same_word(one: Option<[Bit; 32]>, other: Option<[Bit; 32]>) -> bool
    ensures { IsTrue result → one ≡ other }
{
    match one {
        None => other.is_none(),
        Some(first) => match other {
            None => false,
            Some(second) => same_bits(&first, &second),
        },
    }
}

/// Whether scratch words are the same.
fn same_words(one: &[Option<[Bit; 32]>], other: &[Option<[Bit; 32]>]) -> bool
    ensures { IsTrue result → one.now ≡ other.now }
{
    match one {
        [] => other.is_empty(),
        [first, more @ ..] => match other {
            [] => false,
            [second, rest @ ..] => same_word(*first, *second) && same_words(more, rest),
        },
    }
}

/// Whether contents are the same.
pub(crate) fn are_same(one: &Contents, other: &Contents) -> bool
    ensures { IsTrue result → one.now ≡ other.now }
{
    same_bits(&one.a, &other.a)
        && same_bits(&one.x, &other.x)
        && same_words(&one.scratch, &other.scratch)
}

/// A register.
#[derive(Clone, Copy)]
pub(crate) enum Register {
    /// A.
    A,
    /// X.
    X,
}

/// The contents with another word in a register.
pub(crate) fn with_word(contents: &Contents, register: Register, word: [Bit; 32]) -> Contents
    ensures { result ≡ contents_with register contents.now word }
{
    match register {
        Register::A => Contents {
            a: word,
            ..*contents
        },
        Register::X => Contents {
            x: word,
            ..*contents
        },
    }
}

/// What one instruction makes of a register.
#[derive(Clone, Copy)]
pub(crate) enum Made {
    /// It puts this word into the register.
    Word([Bit; 32]),
    /// It ends the program with this value.
    Ends(u32),
    /// It isn't followed.
    Unknown,
}

/// These bits as a word, if there are 32.
fn word_of(bits: &[Bit]) -> Option<[Bit; 32]>
    ensures { IfSome result (λ word. word ≡ bits.now) }
{
    if bits.len() != 32 {
        return None;
    }
    let mut word = [Bit::Zero; 32];
    word.copy_from_slice(bits);
    Some(word)
}

impl Made {
    /// What an instruction makes that puts these bits into a register. It isn't followed if there aren't 32.
    pub(crate) fn from_bits(bits: Vec<Bit>) -> Made
        ensures { (register : Into) (i : Written) (contents : Known) → PutsInto register i contents bits.items → IsPutInto register i contents result }
    {
        match word_of(&bits) {
            None => Made::Unknown,
            Some(word) => Made::Word(word),
        }
    }
}

/// What one instruction does.
#[derive(Clone, Copy)]
pub(crate) enum Followed {
    /// It ends the program with this value.
    Ends(u32),
    /// It leads to a place with these contents.
    Continues {
        /// The place.
        place: usize,
        /// The contents there.
        contents: Contents,
    },
    /// It leads to one of two places, by a test of A with a constant.
    Branches {
        /// The test.
        test: Test,
        /// The constant.
        k: u32,
        /// The place if the test is true.
        one: usize,
        /// The place if it is false.
        other: usize,
    },
    /// It isn't followed.
    Stops,
}

/// What a program gives each cell from a place on.
#[derive(Clone, Copy)]
pub(crate) struct DiagramAt {
    /// The place.
    pub place: usize,
    /// The contents there.
    pub contents: Contents,
    /// The diagram of the values.
    pub diagram: Diagram,
}
