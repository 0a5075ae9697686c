//! The line of a step: the listing's line of its instruction, and what the machine holds after it as a comment. Each
//! function appends to the answers.

ghost use Rattle.std.specs.Prelude.{◌≡◌, ◌++◌, ℕ, List, OnOk};
ghost use Rattle.bpf_interp.specs.Registers.{memory_after, state_after};
ghost use Rattle.cmd_list.specs.Comments.{commented};
ghost use Rattle.cmd_list.specs.Trace.{end_text, registers_text, result_text, scratch_text, word_text, written_text};

use bpf_code::Instr;
use bpf_interp::Registers;
use byteorder::{BigEndian, ByteOrder};
use std::ops::ControlFlow::{self, Break, Continue};
use text_io::Added;
use text_words::add_number;

/// Appends a number as eight hexadecimal digits.
fn add_word(answers: &mut Vec<u8>, number: u32) -> Added
    ensures { OnOk result (answers.new.items ≡ answers.old.items ++ word_text number) }
{
    let mut octets = [0; 4];
    BigEndian::write_u32(&mut octets, number);
    let mut digits = [0; 8];
    if hex::encode_to_slice(octets.as_slice(), &mut digits).is_err() {
        unreachable!();
    }
    answers.extend_from_slice(&digits)
}

/// Appends the index and the value of a scratch word.
#[tactic(auto, using(std::proofs::lemmas::List::append_assoc))]
fn add_scratch(answers: &mut Vec<u8>, index: u32, value: u32) -> Added
    ensures { OnOk result (answers.new.items ≡ answers.old.items ++ scratch_text index value) }
{
    answers.extend_from_slice(b" m")?;
    add_number(answers, u64::from(index))?;
    answers.push(b' ')?;
    add_word(answers, value)
}

/// Appends the scratch word that the instruction wrote, if it is a store.
fn add_written(answers: &mut Vec<u8>, instr: &Instr, before: &Registers) -> Added
    ensures { (m : List (ℕ × ℕ)) → OnOk result (answers.new.items ≡ answers.old.items
        ++ written_text instr.now (memory_after instr.now before.now.a before.now.x m)) }
{
    match *instr {
        Instr::Store(k) => add_scratch(answers, k, before.a),
        Instr::StoreX(k) => add_scratch(answers, k, before.x),
        _ => Ok(()),
    }
}

/// Appends the registers A and X.
#[tactic(auto, using(std::proofs::lemmas::List::append_assoc))]
fn add_registers(answers: &mut Vec<u8>, registers: &Registers) -> Added
    ensures { OnOk result
        (answers.new.items ≡ answers.old.items ++ registers_text registers.now.a registers.now.x) }
{
    answers.extend_from_slice(b"a ")?;
    add_word(answers, registers.a)?;
    answers.extend_from_slice(b" x ")?;
    add_word(answers, registers.x)
}

/// Appends the value with which an instruction ended the program.
#[tactic(auto, using(std::proofs::lemmas::List::append_assoc))]
fn add_end(answers: &mut Vec<u8>, value: u32) -> Added
    ensures { OnOk result (answers.new.items ≡ answers.old.items ++ end_text value) }
{
    answers.extend_from_slice(b"ends ")?;
    add_word(answers, value)
}

/// Appends what the machine holds after an instruction that it ran from the registers before.
#[tactic(auto, using(std::proofs::lemmas::List::append_assoc))]
fn add_result(
    answers: &mut Vec<u8>,
    instr: &Instr,
    before: &Registers,
    flow: &ControlFlow<u32, Registers>,
) -> Added
    ensures { (m : List (ℕ × ℕ)) → OnOk result (answers.new.items ≡ answers.old.items
        ++ result_text instr.now (state_after flow.now (memory_after instr.now before.now.a before.now.x m))) }
{
    match flow {
        Continue(after) => {
            add_registers(answers, after)?;
            add_written(answers, instr, before)
        }
        Break(value) => add_end(answers, *value),
    }
}

/// Appends the line of an instruction that the machine ran from the registers before.
#[tactic(auto, using(std::proofs::lemmas::List::append_assoc))]
pub(crate) fn add_step(
    answers: &mut Vec<u8>,
    listed: &[u8],
    instr: &Instr,
    before: &Registers,
    flow: &ControlFlow<u32, Registers>,
) -> Added
    ensures { (m : List (ℕ × ℕ)) → OnOk result (answers.new.items ≡ answers.old.items ++ commented listed.now
        (result_text instr.now (state_after flow.now (memory_after instr.now before.now.a before.now.x m)))) }
{
    answers.extend_from_slice(listed)?;
    answers.extend_from_slice(b" ; ")?;
    add_result(answers, instr, before, flow)?;
    answers.push(b'\n')?;
    Ok(())
}
