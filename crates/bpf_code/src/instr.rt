//! The instructions of the classic BPF machine (McCanne and Jacobson 1993).

/// The number of octets that a packet load reads.
#[derive(Clone, Copy, Debug, PartialEq, Eq)]
pub enum Size {
    /// Four octets.
    Word,
    /// Two octets.
    Half,
    /// One octet.
    Octet,
}

/// An operation on A and an operand, modulo 2^32.
#[derive(Clone, Copy, Debug, PartialEq, Eq)]
pub enum Op {
    /// The sum.
    Add,
    /// The difference.
    Sub,
    /// The product.
    Mul,
    /// The quotient, rounded down.
    Div,
    /// Bitwise or.
    Or,
    /// Bitwise and.
    And,
    /// Left shift.
    Lsh,
    /// Right shift, which fills with zeros.
    Rsh,
    /// The remainder of the division.
    Mod,
    /// Bitwise exclusive or.
    Xor,
}

/// The comparison of A with the operand in a branch. Comparisons are unsigned.
#[derive(Clone, Copy, Debug, PartialEq, Eq)]
pub enum Test {
    /// A equals the operand.
    Eq,
    /// A is greater than the operand.
    Gt,
    /// A is greater than the operand or equal to it.
    Ge,
    /// A and the operand have a bit in common.
    Set,
}

/// The operand of arithmetic and of branches.
#[derive(Clone, Copy, Debug, PartialEq, Eq)]
pub enum By {
    /// The constant in the instruction.
    Imm(u32),
    /// The register X.
    X,
}

/// An instruction of the classic BPF machine. The machine has two registers of 32 bits, A and X, and sixteen scratch
/// words, M[0] to M[15].
///
/// After an instruction the next one follows, unless its comment says otherwise. Offsets into the packet count octets
/// from 0. Offsets of a jump count instructions, 0 being the next one. If a packet load reads beyond the packet, the
/// program ends with 0.
#[derive(Clone, Copy, Debug, PartialEq, Eq)]
pub enum Instr {
    /// `ld [k]`, `ldh [k]`, `ldb [k]`: loads the octets of the packet from offset `k` into A, big-endian.
    LoadAbs { size: Size, k: u32 },
    /// `ld [x+k]`, `ldh [x+k]`, `ldb [x+k]`: loads the octets from offset X + `k` into A, big-endian. The sum doesn't wrap.
    LoadInd { size: Size, k: u32 },
    /// `ld #k`: A becomes `k`.
    LoadImm(u32),
    /// `ld M[k]`: A becomes M[k].
    LoadMem(u32),
    /// `ld #len`: A becomes the length of the packet, in octets.
    LoadLen,
    /// `ldx #k`: X becomes `k`.
    LdxImm(u32),
    /// `ldx M[k]`: X becomes M[k].
    LdxMem(u32),
    /// `ldx #len`: X becomes the length of the packet, in octets.
    LdxLen,
    /// `ldxb 4*([k]&0xf)`: X becomes four times the low four bits of the octet at offset `k` (the length of an IP
    /// header).
    LdxMsh(u32),
    /// `st M[k]`: M[k] becomes A.
    Store(u32),
    /// `stx M[k]`: M[k] becomes X.
    StoreX(u32),
    /// `add`, `sub`, `mul`, `div`, `or`, `and`, `lsh`, `rsh`, `mod`, `xor`: A becomes the result of the operation on
    /// A and the operand. `div` and `mod` by X = 0 end the program with 0. A shift by X of 32 or more gives 0.
    Alu { op: Op, by: By },
    /// `neg`: A becomes 2^32 - A, modulo 2^32.
    Neg,
    /// `ja`: skips this number of instructions.
    Jump(u32),
    /// `jeq`, `jgt`, `jge`, `jset`: skips `jt` instructions if the test is true, otherwise `jf`.
    Branch { test: Test, by: By, jt: u8, jf: u8 },
    /// `ret #k`: ends the program with `k`.
    RetK(u32),
    /// `ret a`: ends the program with A.
    RetA,
    /// `tax`: X becomes A.
    Tax,
    /// `txa`: A becomes X.
    Txa,
}
