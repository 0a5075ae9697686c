//! The contracts that a script requests, as the card takes them.

ghost use Rattle.std.specs.Prelude.{◌≡◌, None, Some, IfOk, IfErr, OnOk};
ghost use Rattle.text_script.specs.Rates.{AreContracts, IsContract, IsRate, first_of_two, first_wanted_fault, rate_fault, wanted_fault};

use crate::script_words::{Rate, Wanted};
use arrayvec::ArrayVec;
use leaky::{Contract, Gcra, GcraFault};

/// Returns a rate as the card takes it, if its numbers are within the limits.
fn checked_rate(rate: Rate) -> Result<Gcra, GcraFault>
    ensures made { IfOk result (IsRate rate) }
    ensures sound { OnOk result (rate_fault rate ≡ None) }
    ensures faulty { IfErr result (λ fault. rate_fault rate ≡ Some fault) }
{
    Gcra::new(rate.increment, rate.limit)
}

/// Returns two rates as the card takes them, or the error of the first that has one.
fn checked_rates(peak: Rate, sustained: Rate) -> Result<(Gcra, Gcra), GcraFault>
    ensures peak { IfOk result (λ both. IsRate peak both.0) }
    ensures sustained { IfOk result (λ both. IsRate sustained both.1) }
    ensures sound { OnOk result (first_of_two (rate_fault peak) (rate_fault sustained) ≡ None) }
    ensures faulty { IfErr result (λ fault. first_of_two (rate_fault peak) (rate_fault sustained) ≡ Some fault) }
{
    Ok((checked_rate(peak)?, checked_rate(sustained)?))
}

/// Returns the requested contract, or the error of its first rate that has one.
fn contract(wanted: Wanted) -> Result<Contract, GcraFault>
    ensures made { IfOk result (IsContract wanted) }
    ensures sound { OnOk result (wanted_fault wanted ≡ None) }
    ensures faulty { IfErr result (λ fault. wanted_fault wanted ≡ Some fault) }
{
    match wanted {
        Wanted::Cbr1(peak) => Ok(Contract::Cbr1(checked_rate(peak)?)),
        Wanted::Vbr1(peak, sustained) => {
            let (first, second) = checked_rates(peak, sustained)?;
            Ok(Contract::Vbr1(first, second))
        }
        Wanted::Vbr2(peak, sustained) => {
            let (first, second) = checked_rates(peak, sustained)?;
            Ok(Contract::Vbr2(first, second))
        }
        Wanted::Vbr3(peak, sustained) => {
            let (first, second) = checked_rates(peak, sustained)?;
            Ok(Contract::Vbr3(first, second))
        }
    }
}

/// Returns the requested contracts, in order.
///
/// # Errors
///
/// The error of the first rate that has one, over all contracts from left to right.
pub fn checked_contracts(wanted: &ArrayVec<Wanted, 4>) -> Result<ArrayVec<Contract, 4>, GcraFault>
    ensures made { IfOk result (λ contracts. AreContracts wanted.now.items contracts.items) }
    ensures sound { OnOk result (first_wanted_fault wanted.now.items ≡ None) }
    ensures faulty { IfErr result (λ fault. first_wanted_fault wanted.now.items ≡ Some fault) }
{
    let mut contracts = ArrayVec::new();
    for ask in wanted.as_slice() {
        match contract(*ask) {
            Ok(next) => contracts.push(next),
            Err(fault) => return Err(fault),
        }
    }
    Ok(contracts)
}
