//! The mnemonics, and the forms of their operands.

ghost use Rattle.std.specs.Prelude.{◌≡◌, option_map, slice_get};
ghost use Rattle.bpf_asm.specs.Numbers.{number_of_word};
ghost use Rattle.cmd_explain.specs.Forms.{fits_slot, fitting, known_mnemonics, most_fitting, operands_text, shapes_of, slots_of, spells_number};
ghost use Rattle.cmd_explain_script.specs.Tables.{near_among, value_among};

use crate::tokens::is_name;
use bpf_asm::number;
use cmd_explain_script::{FoundWord, near_among, value_among, word_octets};

/// The operands that a mnemonic takes: any one of the shapes that `shapes_of` lists.
#[derive(Clone, Copy)]
pub enum Form {
    /// The operands of `ld`: a place of the packet, a constant, a scratch word or the length.
    Word,
    /// A place of the packet.
    Packet,
    /// What `ldx` takes.
    Index,
    /// The length of a header.
    Header,
    /// A scratch word.
    Store,
    /// A constant or `x`.
    Operation,
    /// Nothing.
    Alone,
    /// A constant or `a`.
    Return,
    /// A label.
    Jump,
    /// A constant or `x`, and one label or two.
    Branch,
    /// A constant or `x`, and one label.
    Inverse,
}

/// One way to write operands: a list of slots (`slots_of`).
#[derive(Clone, Copy)]
pub enum Shape {
    /// `[number]`
    Packet,
    /// `[x+number]`
    Indexed,
    /// `#number`
    Constant,
    /// `#-number`
    Negative,
    /// `M[number]`
    Scratch,
    /// `#len`
    Length,
    /// `4*([number]&0xf)`
    Header,
    /// `x`
    X,
    /// `a`
    A,
    /// `label`
    Label,
    /// `#number, label`
    ConstantLabel,
    /// `#-number, label`
    NegativeLabel,
    /// `x, label`
    XLabel,
    /// `#number, label, label`
    ConstantLabels,
    /// `#-number, label, label`
    NegativeLabels,
    /// `x, label, label`
    XLabels,
}

/// What one token of a shape may be.
#[derive(Clone, Copy)]
pub enum Slot {
    /// This octet.
    Mark(u8),
    /// `x`
    X,
    /// `a`
    A,
    /// `M`
    M,
    /// `len`
    Len,
    /// The number 4.
    Four,
    /// The number 15.
    Fifteen,
    /// A number.
    Number,
    /// A name.
    Name,
}

/// Each mnemonic, and what it takes.
pub(crate) const MNEMONICS: [(&[u8], Form); 31] = [
    (b"ld", Form::Word),
    (b"ldh", Form::Packet),
    (b"ldb", Form::Packet),
    (b"ldx", Form::Index),
    (b"ldxb", Form::Header),
    (b"st", Form::Store),
    (b"stx", Form::Store),
    (b"add", Form::Operation),
    (b"sub", Form::Operation),
    (b"mul", Form::Operation),
    (b"div", Form::Operation),
    (b"mod", Form::Operation),
    (b"and", Form::Operation),
    (b"or", Form::Operation),
    (b"xor", Form::Operation),
    (b"lsh", Form::Operation),
    (b"rsh", Form::Operation),
    (b"neg", Form::Alone),
    (b"tax", Form::Alone),
    (b"txa", Form::Alone),
    (b"ret", Form::Return),
    (b"ja", Form::Jump),
    (b"jmp", Form::Jump),
    (b"jeq", Form::Branch),
    (b"jgt", Form::Branch),
    (b"jge", Form::Branch),
    (b"jset", Form::Branch),
    (b"jne", Form::Inverse),
    (b"jneq", Form::Inverse),
    (b"jlt", Form::Inverse),
    (b"jle", Form::Inverse),
];

/// Returns what a word takes, if it is a mnemonic.
pub(crate) fn form_of(word: &[u8]) -> Option<Form>
    ensures { result ≡ value_among word.now known_mnemonics }
{
    value_among(word, &MNEMONICS)
}

/// Returns the first mnemonic that is near a word.
pub(crate) fn near(word: &[u8]) -> Option<&'static [u8]>
    ensures { option_map (λ near. near.now) result ≡ near_among word.now known_mnemonics }
{
    near_among(word, &MNEMONICS)
}

/// Returns what may come after a mnemonic.
pub(crate) fn shapes_of(form: Form) -> &'static [Shape]
    ensures { result.now ≡ shapes_of form }
{
    match form {
        Form::Word => &[
            Shape::Packet,
            Shape::Indexed,
            Shape::Constant,
            Shape::Negative,
            Shape::Scratch,
            Shape::Length,
        ],
        Form::Packet => &[Shape::Packet, Shape::Indexed],
        Form::Index => &[
            Shape::Constant,
            Shape::Negative,
            Shape::Scratch,
            Shape::Length,
            Shape::Header,
        ],
        Form::Header => &[Shape::Header],
        Form::Store => &[Shape::Scratch],
        Form::Operation => &[Shape::Constant, Shape::Negative, Shape::X],
        Form::Alone => &[],
        Form::Return => &[Shape::Constant, Shape::Negative, Shape::A],
        Form::Jump => &[Shape::Label],
        Form::Branch => &[Shape::ConstantLabels, Shape::NegativeLabels, Shape::XLabels],
        Form::Inverse => &[Shape::ConstantLabel, Shape::NegativeLabel, Shape::XLabel],
    }
}

/// Returns the tokens of a shape.
#[rattlefmt::skip]
fn slots_of(shape: Shape) -> &'static [Slot]
    ensures { result.now ≡ slots_of shape }
{
    match shape {
        Shape::Packet => &[Slot::Mark(b'['), Slot::Number, Slot::Mark(b']')],
        Shape::Indexed => &[Slot::Mark(b'['), Slot::X, Slot::Mark(b'+'), Slot::Number, Slot::Mark(b']')],
        Shape::Constant => &[Slot::Mark(b'#'), Slot::Number],
        Shape::Negative => &[Slot::Mark(b'#'), Slot::Mark(b'-'), Slot::Number],
        Shape::Scratch => &[Slot::M, Slot::Mark(b'['), Slot::Number, Slot::Mark(b']')],
        Shape::Length => &[Slot::Mark(b'#'), Slot::Len],
        Shape::Header => &[
            Slot::Four, Slot::Mark(b'*'), Slot::Mark(b'('), Slot::Mark(b'['), Slot::Number,
            Slot::Mark(b']'), Slot::Mark(b'&'), Slot::Fifteen, Slot::Mark(b')'),
        ],
        Shape::X => &[Slot::X],
        Shape::A => &[Slot::A],
        Shape::Label => &[Slot::Name],
        Shape::ConstantLabel => &[Slot::Mark(b'#'), Slot::Number, Slot::Mark(b','), Slot::Name],
        Shape::NegativeLabel => &[Slot::Mark(b'#'), Slot::Mark(b'-'), Slot::Number, Slot::Mark(b','), Slot::Name],
        Shape::XLabel => &[Slot::X, Slot::Mark(b','), Slot::Name],
        Shape::ConstantLabels => &[
            Slot::Mark(b'#'), Slot::Number, Slot::Mark(b','), Slot::Name, Slot::Mark(b','), Slot::Name,
        ],
        Shape::NegativeLabels => &[
            Slot::Mark(b'#'), Slot::Mark(b'-'), Slot::Number, Slot::Mark(b','), Slot::Name, Slot::Mark(b','), Slot::Name,
        ],
        Shape::XLabels => &[Slot::X, Slot::Mark(b','), Slot::Name, Slot::Mark(b','), Slot::Name],
    }
}

/// Returns whether the octets of a token may be in a slot.
fn fits_slot(slot: Slot, token: &[u8]) -> bool
    ensures { result ≡ fits_slot slot token.now }
{
    match slot {
        Slot::Mark(octet) => token == [octet].as_slice(),
        Slot::X => token == b"x".as_slice(),
        Slot::A => token == b"a".as_slice(),
        Slot::M => token == b"M".as_slice(),
        Slot::Len => token == b"len".as_slice(),
        Slot::Four => spells(token, 4),
        Slot::Fifteen => spells(token, 15),
        Slot::Number => number(token).is_some(),
        Slot::Name => is_name(token),
    }
}

/// Returns whether a word spells this number.
fn spells(word: &[u8], value: u32) -> bool
    ensures { result ≡ spells_number value (number_of_word word.now) }
{
    match number(word) {
        Some(number) => number == value,
        None => false,
    }
}

/// Returns how many of the first tokens fit these slots.
fn fitting(text: &[u8], slots: &[Slot], tokens: &[FoundWord]) -> usize
    ensures { result ≡ fitting text.now slots.now tokens.now }
{
    let mut wanted = slots;
    let mut left = tokens;
    let mut count = 0;
    while let [slot, others @ ..] = wanted {
        match left {
            [] => return count,
            [token, rest @ ..] => {
                if !fits_slot(*slot, word_octets(text, *token)) {
                    return count;
                }
                count += 1;
                wanted = others;
                left = rest;
            }
        }
    }
    count
}

/// Returns the length of the longest prefix of the tokens that fits a shape of a mnemonic.
pub(crate) fn most_fitting(text: &[u8], form: Form, tokens: &[FoundWord]) -> usize
    ensures { result ≡ most_fitting text.now (shapes_of form) tokens.now }
{
    let mut most = 0;
    let mut left = shapes_of(form);
    while let [shape, rest @ ..] = left {
        most = fitting(text, slots_of(*shape), tokens).max(most);
        left = rest;
    }
    most
}

/// Returns what a mnemonic takes, in words.
pub(crate) fn operands_text(form: Form) -> &'static [u8]
    ensures { result.now ≡ operands_text form }
{
    match form {
        Form::Word => b"`[number]`, `[x+number]`, `#number`, `M[number]` or `#len`",
        Form::Packet => b"`[number]` or `[x+number]`",
        Form::Index => b"`#number`, `M[number]`, `#len` or `4*([number]&0xf)`",
        Form::Header => b"`4*([number]&0xf)`",
        Form::Store => b"`M[number]`",
        Form::Operation => b"`#number` or `x`",
        Form::Alone => b"no operand",
        Form::Return => b"`#number` or `a`",
        Form::Jump => b"a label",
        Form::Branch => b"`#number` or `x`, and then `, label` or `, label, label`",
        Form::Inverse => b"`#number` or `x`, and then `, label`",
    }
}
