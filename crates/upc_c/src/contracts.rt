//! The contracts of a connection, as C gives them.

ghost use Rattle.std.specs.Prelude.{◌≡◌, ◌≤◌, length, IfOk, IfErr};
ghost use Rattle.upc_c.specs.CardDesk.{AreGivenContracts, IsContractsFault};
ghost use Rattle.upc_c.specs.inner.Numbered.{IsNumbered};

use crate::contract::{UpcContract, contract_of};
use crate::fault::{OF_THE_CALL, UpcFault, fault_at};
use arrayvec::ArrayVec;
use leaky::Contract;

/// The greatest number of contracts of a connection.
const MOST_CONTRACTS: usize = 4;

/// Returns the contracts of these kinds with these buckets, in order. Or returns the fault: more than four, or the first bad one.
pub(crate) fn contracts_of(given: &[UpcContract]) -> Result<ArrayVec<Contract, 4>, UpcFault>
    ensures few { IfOk result (λ _. length given.now ≤ 4) }
    ensures contracts { IfOk result (λ contracts. AreGivenContracts given.now contracts.items) }
    ensures fault { IfErr result (IsContractsFault given.now) }
    ensures numbered { IfErr result IsNumbered }
{
    if given.len() > MOST_CONTRACTS {
        return Err(fault_at(OF_THE_CALL, 11, 0));
    }
    let mut contracts = ArrayVec::new();
    for each in given {
        match contract_of(each) {
            Ok(contract) => contracts.push(contract),
            Err(found) => return Err(found),
        }
    }
    Ok(contracts)
}
