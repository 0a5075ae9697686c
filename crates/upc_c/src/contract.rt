//! Contracts, as C has them.

ghost use Rattle.std.specs.Prelude.{◌≡◌, ◌≢◌, IfOk, IfErr};
ghost use Rattle.upc_c.specs.CardState.{contract_for_c, two_rates_for_c};
ghost use Rattle.upc_c.specs.GivenContract.{IsGivenContract, IsContractFault, IsGivenRate, IsRateFault, AreARate, AreAContract};
ghost use Rattle.upc_c.specs.Faults.{AnswersCall};
ghost use Rattle.upc_c.specs.inner.Numbered.{IsNumbered};

use crate::fault::{ForC, OF_A_RATE, OF_THE_CALL, UpcFault, fault_at, report, report_success};
use leaky::{Contract, Gcra, GcraFault};

/// A traffic contract: its kind, and an increment and a limit in ticks for each of its two buckets.
#[repr(C)]
#[derive(Clone, Copy, Debug)]
pub struct UpcContract {
    /// 1 CBR.1, 2 VBR.1, 3 VBR.2, 4 VBR.3.
    pub kind: u32,
    /// The increment of bucket 1, the peak cell rate: 1 to 2^48 ticks.
    pub peak_increment: u64,
    /// The limit of bucket 1: 0 to 2^48 ticks.
    pub peak_limit: u64,
    /// The increment of bucket 2, the sustainable cell rate: 1 to 2^48 ticks. CBR.1 ignores this number and the next.
    pub sustained_increment: u64,
    /// The limit of bucket 2: 0 to 2^48 ticks.
    pub sustained_limit: u64,
}

/// Returns the rate of a bucket, by its number from 1.
#[inline]
fn rate_of(bucket: usize, increment: u64, limit: u64) -> ForC<Gcra>
    ensures rate { IfOk result (IsGivenRate increment limit) }
    ensures numbers { IfOk result (λ _. AreARate increment limit) }
    ensures fault { IfErr result (IsRateFault bucket increment limit) }
    ensures numbered { IfErr result IsNumbered }
{
    match Gcra::new(increment, limit) {
        Ok(gcra) => Ok(gcra),
        Err(GcraFault::ZeroIncrement) => Err(fault_at(OF_A_RATE, 1, bucket)),
        Err(GcraFault::TooLarge) => Err(fault_at(OF_A_RATE, 2, bucket)),
    }
}

/// Returns the contract of this kind with these buckets.
#[inline]
pub(crate) fn contract_of(given: &UpcContract) -> ForC<Contract>
    ensures contract { IfOk result (IsGivenContract given.now) }
    ensures numbers { IfOk result (λ _. AreAContract given.now) }
    ensures fault { IfErr result (IsContractFault given.now) }
    ensures numbered { IfErr result IsNumbered }
{
    if given.kind == 0 || given.kind > 4 {
        return Err(fault_at(OF_THE_CALL, 3, 0));
    }
    let peak = rate_of(1, given.peak_increment, given.peak_limit)?;
    if given.kind == 1 {
        return Ok(Contract::Cbr1(peak));
    }
    let sustained = rate_of(2, given.sustained_increment, given.sustained_limit)?;
    Ok(match given.kind {
        2 => Contract::Vbr1(peak, sustained),
        3 => Contract::Vbr2(peak, sustained),
        _ => Contract::Vbr3(peak, sustained),
    })
}

/// Returns the contract of this kind with two rates, as C has it.
fn two_rates_for_c(kind: u32, peak: &Gcra, sustained: &Gcra) -> UpcContract
    ensures { result ≡ two_rates_for_c kind peak.now sustained.now }
{
    UpcContract {
        kind,
        peak_increment: peak.increment,
        peak_limit: peak.limit,
        sustained_increment: sustained.increment,
        sustained_limit: sustained.limit,
    }
}

/// Returns the contract as C has it.
pub(crate) fn contract_for_c(contract: &Contract) -> UpcContract
    ensures { result ≡ contract_for_c contract.now }
{
    match contract {
        Contract::Cbr1(peak) => UpcContract {
            kind: 1,
            peak_increment: peak.increment,
            peak_limit: peak.limit,
            sustained_increment: 0,
            sustained_limit: 0,
        },
        Contract::Vbr1(peak, sustained) => two_rates_for_c(2, peak, sustained),
        Contract::Vbr2(peak, sustained) => two_rates_for_c(3, peak, sustained),
        Contract::Vbr3(peak, sustained) => two_rates_for_c(4, peak, sustained),
    }
}

/// Checks whether the numbers are a contract. Returns the result of the error, or 0.
#[unsafe(no_mangle)]
pub extern "C" fn upc_contract_check(contract: &UpcContract, fault: &mut UpcFault) -> u32
    ensures answers { AnswersCall result fault.new }
    ensures contract { result ≡ 0 → AreAContract contract.now }
    ensures refused { result ≢ 0 → IsContractFault contract.now fault.new }
{
    match contract_of(contract) {
        Ok(_) => report_success(fault),
        Err(found) => report(fault, found),
    }
}
