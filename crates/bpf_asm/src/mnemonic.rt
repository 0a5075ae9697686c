//! Mnemonics, and the operands that each takes.

ghost use Rattle.std.specs.Prelude.{◌≡◌, map, MatchOption};
ghost use Rattle.bpf_asm.specs.inner.Reading.{ended, table_entry, inverse_of, moved_in, named_in, op_of, other_in, statement_in, branch_named};
ghost use Rattle.bpf_asm.specs.inner.Seen.{statement_seen};
ghost use Rattle.bpf_asm.specs.StatementSpelling.{plain};
ghost use Rattle.bpf_asm.specs.Tokens.{tokens_in};

use crate::operand::{after_name, at_end};
use crate::statement::{
    LentStatement, arithmetic, branch, header_length, index_load, inverse, jump, packet_load,
    return_operand, scratch, word_load,
};
use bpf_code::{Instr, Op, Size, Test};

/// The mnemonics of arithmetic, in the order of `Op`.
pub(crate) const OPS: [(&[u8], Op); 10] = [
    (b"add", Op::Add),
    (b"sub", Op::Sub),
    (b"mul", Op::Mul),
    (b"div", Op::Div),
    (b"or", Op::Or),
    (b"and", Op::And),
    (b"lsh", Op::Lsh),
    (b"rsh", Op::Rsh),
    (b"mod", Op::Mod),
    (b"xor", Op::Xor),
];

/// The mnemonics of branches, in the order of `Test`.
pub(crate) const TESTS: [(&[u8], Test); 4] = [
    (b"jeq", Test::Eq),
    (b"jgt", Test::Gt),
    (b"jge", Test::Ge),
    (b"jset", Test::Set),
];

/// The mnemonics of branches to one label, which jump if the test is false.
const INVERSES: [(&[u8], Test); 4] = [
    (b"jne", Test::Eq),
    (b"jneq", Test::Eq),
    (b"jlt", Test::Ge),
    (b"jle", Test::Gt),
];

/// Returns the entry of a table for a name.
#[inline(always)]
fn found_in<T: Copy>(name: &[u8], rows: &[(&[u8], T)]) -> Option<T>
    ensures { result ≡ table_entry name.now (map (λ row. (row.0.now, row.1)) rows.now) }
{
    let mut left = rows;
    while let [row, rest @ ..] = left {
        if name == row.0 {
            return Some(row.1);
        }
        left = rest;
    }
    None
}

/// Returns the operation of a mnemonic of arithmetic.
fn op_named(name: &[u8]) -> Option<Op>
    ensures { result ≡ op_of name.now }
{
    found_in(name, &OPS)
}

/// Returns the test of a mnemonic of a branch.
fn test_named(name: &[u8]) -> Option<Test>
    ensures { result ≡ branch_named name.now }
{
    found_in(name, &TESTS)
}

/// Returns the test whose opposite a mnemonic names.
fn inverse_named(name: &[u8]) -> Option<Test>
    ensures { result ≡ inverse_of name.now }
{
    found_in(name, &INVERSES)
}

/// Reads the operands of a mnemonic of a load or a store. Returns None for any other mnemonic or other operands.
#[tactic(auto, unfolding(crate::specs::inner::Reading::moved_in))]
fn load_or_store(name: &[u8], text: &[u8]) -> Option<Instr>
    ensures { MatchOption result (moved_in name.now (tokens_in text.now) ≡ None)
        (λ i. moved_in name.now (tokens_in text.now) ≡ Some (plain i)) }
{
    if name == b"ld".as_slice() {
        return word_load(text);
    }
    if name == b"ldh".as_slice() {
        return packet_load(Size::Half, text);
    }
    if name == b"ldb".as_slice() {
        return packet_load(Size::Octet, text);
    }
    if name == b"ldx".as_slice() {
        return index_load(text);
    }
    if name == b"ldxb".as_slice() {
        let k = header_length(text)?;
        return Some(Instr::LdxMsh(k));
    }
    if name == b"st".as_slice() {
        let k = scratch(text)?;
        return Some(Instr::Store(k));
    }
    if name == b"stx".as_slice() {
        let k = scratch(text)?;
        return Some(Instr::StoreX(k));
    }
    None
}

/// Returns an instruction that takes no operands, if no token is left.
fn without_operands(instr: Instr, text: &[u8]) -> Option<LentStatement<'_>>
    ensures { MatchOption result (ended (plain instr) (tokens_in text.now) ≡ None)
        (λ c. ended (plain instr) (tokens_in text.now) ≡ Some (statement_seen c)) }
{
    if at_end(text) {
        Some(LentStatement::Plain(instr))
    } else {
        None
    }
}

/// Reads the operands of `neg`, `ja`, `jmp`, `ret`, `tax` and `txa`.
#[tactic(auto, unfolding(crate::specs::inner::Reading::other_in))]
fn other_statement<'a>(name: &[u8], text: &'a [u8]) -> Option<LentStatement<'a>>
    ensures { MatchOption result (other_in name.now (tokens_in text.entry.now) ≡ None)
        (λ c. other_in name.now (tokens_in text.entry.now) ≡ Some (statement_seen c)) }
{
    if name == b"neg".as_slice() {
        return without_operands(Instr::Neg, text);
    }
    if name == b"ja".as_slice() {
        return jump(text);
    }
    if name == b"jmp".as_slice() {
        return jump(text);
    }
    if name == b"ret".as_slice() {
        let instr = return_operand(text)?;
        return Some(LentStatement::Plain(instr));
    }
    if name == b"tax".as_slice() {
        return without_operands(Instr::Tax, text);
    }
    if name == b"txa".as_slice() {
        return without_operands(Instr::Txa, text);
    }
    None
}

/// Reads the statement of a mnemonic and its operands.
#[tactic(auto, unfolding(crate::specs::inner::Reading::named_in))]
pub(crate) fn named<'a>(name: &[u8], text: &'a [u8]) -> Option<LentStatement<'a>>
    ensures { MatchOption result (named_in name.now (tokens_in text.entry.now) ≡ None)
        (λ c. named_in name.now (tokens_in text.entry.now) ≡ Some (statement_seen c)) }
{
    if let Some(op) = op_named(name) {
        let instr = arithmetic(op, text)?;
        return Some(LentStatement::Plain(instr));
    }
    if let Some(test) = test_named(name) {
        return branch(test, text);
    }
    if let Some(test) = inverse_named(name) {
        return inverse(test, text);
    }
    if let Some(instr) = load_or_store(name, text) {
        return Some(LentStatement::Plain(instr));
    }
    other_statement(name, text)
}

/// Reads a statement.
#[tactic(auto, unfolding(crate::specs::inner::Reading::statement_in))]
pub(crate) fn read_statement(text: &[u8]) -> Option<LentStatement<'_>>
    ensures { MatchOption result (statement_in (tokens_in text.now) ≡ None)
        (λ c. statement_in (tokens_in text.now) ≡ Some (statement_seen c)) }
{
    let (name, rest) = after_name(text)?;
    named(name, rest)
}
