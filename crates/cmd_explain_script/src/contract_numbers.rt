//! The contracts that the values of a program name.

ghost use Rattle.std.specs.Prelude.{◌≡◌};
ghost use Rattle.cmd_explain_script.specs.ContractNumbers.{may_name, names_no_contract, names_none, names_none_of};

use bpf_code::Instr;

/// Whether a program names no contract of a connection that has one, two, three or four.
#[derive(Clone, Copy)]
pub struct NamesNoContract {
    /// No return names a contract if there is one contract.
    pub one: bool,
    /// No return names a contract if there are two.
    pub two: bool,
    /// No return names a contract if there are three.
    pub three: bool,
    /// No return names a contract if there are four.
    pub four: bool,
}

/// Returns whether an instruction may return a number from 1 to `count`: that of a contract, if a connection has this many.
fn may_name(count: u32, instr: Instr) -> bool
    ensures { result ≡ may_name count instr }
{
    match instr {
        Instr::RetK(k) => 1 <= k && k <= count,
        Instr::RetA => true,
        _ => false,
    }
}

/// Returns whether no instruction of a code may return such a number.
fn names_no_contract(code: &[Instr], count: u32) -> bool
    ensures { result ≡ names_no_contract code.now count }
{
    let mut left = code;
    while let [instr, rest @ ..] = left {
        if may_name(count, *instr) {
            return false;
        }
        left = rest;
    }
    true
}

/// Returns for one, two, three and four contracts whether a code names none of them.
pub(crate) fn names_none(code: &[Instr]) -> NamesNoContract
    ensures { result ≡ names_none code.now }
{
    NamesNoContract {
        one: names_no_contract(code, 1),
        two: names_no_contract(code, 2),
        three: names_no_contract(code, 3),
        four: names_no_contract(code, 4),
    }
}

/// Returns whether a program names none of this many contracts.
pub(crate) fn names_none_of(program: NamesNoContract, count: usize) -> bool
    ensures { result ≡ names_none_of program count }
{
    if count == 1 {
        program.one
    } else if count == 2 {
        program.two
    } else if count == 3 {
        program.three
    } else {
        count == 4 && program.four
    }
}
