//! Laws of the definitions that this crate's contracts cite. Each function does nothing; its contract is the law.

ghost use Rattle.cmd_size.specs.SetupReading.{SetupTakesContracts};
ghost use Rattle.cmd_size.specs.Senders.{BurstsOnTimeLoseNothing, SendersOnTimeLoseNothing};

/// A sender at exactly a rate, each of whose cells comes up to the cell delay variation tolerance late, loses no cell in a
/// bucket of that rate.
pub fn senders_on_time_lose_nothing()
    ensures { SendersOnTimeLoseNothing }
{}

/// Such a sender at the peak rate loses no cell of a burst of up to `mbs` cells in the bucket of the sustained rate.
pub fn bursts_on_time_lose_nothing()
    ensures { BurstsOnTimeLoseNothing }
{}

/// `setup` of `upc run` reads the printed contract as one of the same kind with the same buckets, and finds no fault in its numbers.
pub fn setup_takes_contracts()
    ensures { SetupTakesContracts }
{}
