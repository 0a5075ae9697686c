//! Statements: the forms of operands after each mnemonic. In comments `the end` means that no token is left before the comment of the line.

ghost use Rattle.std.specs.Prelude.{◌≡◌, true, MatchBool, MatchOption};
ghost use Rattle.bpf_asm.specs.inner.Reading.{absolute_in, arithmetic_in, bracket_in, branch_in, constant_in, header_in, indexed_in, inverse_in, jump_in, length_in, load_index, load_word, packet, return_in, scratch_in};
ghost use Rattle.bpf_asm.specs.inner.Seen.{statement_seen};
ghost use Rattle.bpf_asm.specs.StatementSpelling.{plain};
ghost use Rattle.bpf_asm.specs.Tokens.{tokens_in};

use crate::operand::{
    after_constant, after_length, after_mark, after_name, after_number, after_operand,
    after_target, after_value, after_word, at_end,
};
use bpf_code::{By, Instr, Op, Size, Test};

/// A statement that was read. Its labels borrow from the source.
#[derive(Clone, Copy)]
pub(crate) enum LentStatement<'a> {
    /// An instruction without labels.
    Plain(Instr),
    /// A jump to a label.
    Jump(&'a [u8]),
    /// A branch with the label of each side. A side without a label continues at the next instruction.
    Branch {
        test: Test,
        by: By,
        met: Option<&'a [u8]>,
        unmet: Option<&'a [u8]>,
    },
}

/// Reads `k]` and the end.
fn bracket(text: &[u8]) -> Option<u32>
    ensures { result ≡ bracket_in (tokens_in text.now) }
{
    let (k, rest) = after_number(text)?;
    let rest = after_mark(rest, b']')?;
    if at_end(rest) { Some(k) } else { None }
}

/// Reads `[k]` and the end.
fn absolute(text: &[u8]) -> Option<u32>
    ensures { result ≡ absolute_in (tokens_in text.now) }
{
    bracket(after_mark(text, b'[')?)
}

/// Reads `[x+k]` and the end.
fn indexed(text: &[u8]) -> Option<u32>
    ensures { result ≡ indexed_in (tokens_in text.now) }
{
    let rest = after_mark(text, b'[')?;
    let rest = after_word(rest, b"x")?;
    bracket(after_mark(rest, b'+')?)
}

/// Reads `#k` and the end.
fn constant(text: &[u8]) -> Option<u32>
    ensures { result ≡ constant_in (tokens_in text.now) }
{
    let (k, rest) = after_constant(text)?;
    if at_end(rest) { Some(k) } else { None }
}

/// Reads `M[k]` and the end.
pub(crate) fn scratch(text: &[u8]) -> Option<u32>
    ensures { result ≡ scratch_in (tokens_in text.now) }
{
    absolute(after_word(text, b"M")?)
}

/// Reads `4*([k]&0xf)` and the end.
pub(crate) fn header_length(text: &[u8]) -> Option<u32>
    ensures { result ≡ header_in (tokens_in text.now) }
{
    let rest = after_value(text, 4)?;
    let rest = after_mark(rest, b'*')?;
    let rest = after_mark(rest, b'(')?;
    let rest = after_mark(rest, b'[')?;
    let (k, rest) = after_number(rest)?;
    let rest = after_mark(rest, b']')?;
    let rest = after_mark(rest, b'&')?;
    let rest = after_value(rest, 15)?;
    let rest = after_mark(rest, b')')?;
    if at_end(rest) { Some(k) } else { None }
}

/// Returns whether the text has `#len` and the end.
fn packet_length(text: &[u8]) -> bool
    ensures { MatchBool result (length_in (tokens_in text.now) ≡ Some true) (length_in (tokens_in text.now) ≡ None) }
{
    match after_length(text) {
        Some(rest) => at_end(rest),
        None => false,
    }
}

/// Reads the operand of a load from the packet.
pub(crate) fn packet_load(size: Size, text: &[u8]) -> Option<Instr>
    ensures { MatchOption result (packet size (tokens_in text.now) ≡ None)
        (λ i. packet size (tokens_in text.now) ≡ Some (plain i)) }
{
    if let Some(k) = absolute(text) {
        return Some(Instr::LoadAbs { size, k });
    }
    let k = indexed(text)?;
    Some(Instr::LoadInd { size, k })
}

/// Reads the operand of `ld`.
pub(crate) fn word_load(text: &[u8]) -> Option<Instr>
    ensures { MatchOption result (load_word (tokens_in text.now) ≡ None)
        (λ i. load_word (tokens_in text.now) ≡ Some (plain i)) }
{
    if let Some(instr) = packet_load(Size::Word, text) {
        return Some(instr);
    }
    if let Some(k) = constant(text) {
        return Some(Instr::LoadImm(k));
    }
    if let Some(k) = scratch(text) {
        return Some(Instr::LoadMem(k));
    }
    if packet_length(text) {
        Some(Instr::LoadLen)
    } else {
        None
    }
}

/// Reads the operand of `ldx`.
pub(crate) fn index_load(text: &[u8]) -> Option<Instr>
    ensures { MatchOption result (load_index (tokens_in text.now) ≡ None)
        (λ i. load_index (tokens_in text.now) ≡ Some (plain i)) }
{
    if let Some(k) = constant(text) {
        return Some(Instr::LdxImm(k));
    }
    if let Some(k) = scratch(text) {
        return Some(Instr::LdxMem(k));
    }
    if packet_length(text) {
        return Some(Instr::LdxLen);
    }
    let k = header_length(text)?;
    Some(Instr::LdxMsh(k))
}

/// Reads the operand of `ret`.
pub(crate) fn return_operand(text: &[u8]) -> Option<Instr>
    ensures { MatchOption result (return_in (tokens_in text.now) ≡ None)
        (λ i. return_in (tokens_in text.now) ≡ Some (plain i)) }
{
    if let Some(k) = constant(text) {
        return Some(Instr::RetK(k));
    }
    let rest = after_word(text, b"a")?;
    if at_end(rest) {
        Some(Instr::RetA)
    } else {
        None
    }
}

/// Reads the operand of arithmetic.
pub(crate) fn arithmetic(op: Op, text: &[u8]) -> Option<Instr>
    ensures { MatchOption result (arithmetic_in op (tokens_in text.now) ≡ None)
        (λ i. arithmetic_in op (tokens_in text.now) ≡ Some (plain i)) }
{
    let (by, rest) = after_operand(text)?;
    if at_end(rest) {
        Some(Instr::Alu { op, by })
    } else {
        None
    }
}

/// Reads the operand and the labels of a branch.
pub(crate) fn branch(test: Test, text: &[u8]) -> Option<LentStatement<'_>>
    ensures { MatchOption result (branch_in test (tokens_in text.now) ≡ None)
        (λ c. branch_in test (tokens_in text.now) ≡ Some (statement_seen c)) }
{
    let (by, rest) = after_operand(text)?;
    let (met, rest) = after_target(rest)?;
    if at_end(rest) {
        return Some(LentStatement::Branch {
            test,
            by,
            met: Some(met),
            unmet: None,
        });
    }
    let (unmet, rest) = after_target(rest)?;
    if at_end(rest) {
        Some(LentStatement::Branch {
            test,
            by,
            met: Some(met),
            unmet: Some(unmet),
        })
    } else {
        None
    }
}

/// Reads the operand and the label of a branch that jumps if the test fails.
pub(crate) fn inverse(test: Test, text: &[u8]) -> Option<LentStatement<'_>>
    ensures { MatchOption result (inverse_in test (tokens_in text.now) ≡ None)
        (λ c. inverse_in test (tokens_in text.now) ≡ Some (statement_seen c)) }
{
    let (by, rest) = after_operand(text)?;
    let (unmet, rest) = after_target(rest)?;
    if at_end(rest) {
        Some(LentStatement::Branch {
            test,
            by,
            met: None,
            unmet: Some(unmet),
        })
    } else {
        None
    }
}

/// Reads the label of `ja`.
pub(crate) fn jump(text: &[u8]) -> Option<LentStatement<'_>>
    ensures { MatchOption result (jump_in (tokens_in text.now) ≡ None)
        (λ c. jump_in (tokens_in text.now) ≡ Some (statement_seen c)) }
{
    let (target, rest) = after_name(text)?;
    if at_end(rest) {
        Some(LentStatement::Jump(target))
    } else {
        None
    }
}
