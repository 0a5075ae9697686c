//! Why a contract has no buckets.

ghost use Rattle.std.specs.Prelude.{◌≡◌};
ghost use Rattle.cmd_size.specs.SizeFaults.{size_fault_name};

use std::error::Error;
use std::fmt;

/// Why a line has no answer but a fault line. Printed as its number and its name.
#[derive(Clone, Copy, Debug)]
pub enum SizeFault {
    /// The words aren't a contract.
    BadLine,
    /// A rate, a time or a number isn't one, or it is outside its bounds.
    BadNumber,
    /// A rate is 0.
    ZeroRate,
    /// A rate is above one cell a tick.
    TooFast,
    /// The maximum burst size is 0.
    ZeroMbs,
    /// The increment of the peak rate is above that of the sustained rate.
    PeakSlower,
    /// A limit is above 2^48 ticks.
    TooLarge,
}

/// Returns the number and the name of a fault.
pub(crate) fn name_of(fault: SizeFault) -> &'static str
    ensures { result.now ≡ size_fault_name fault }
{
    match fault {
        SizeFault::BadLine => "1 BadLine",
        SizeFault::BadNumber => "2 BadNumber",
        SizeFault::ZeroRate => "3 ZeroRate",
        SizeFault::TooFast => "4 TooFast",
        SizeFault::ZeroMbs => "5 ZeroMbs",
        SizeFault::PeakSlower => "6 PeakSlower",
        SizeFault::TooLarge => "7 TooLarge",
    }
}

impl fmt::Display for SizeFault {
    ghost use Rattle.std.specs.Prelude.{Some};
    ghost use Rattle.cmd_size.specs.SizeFaults.{size_fault_name};

    ghost output = { λ fault. Some (size_fault_name fault) };

    fn fmt<W: fmt::Write>(&self, f: &mut fmt::Formatter<W>) -> fmt::Result {
        f.write_str(name_of(*self))
    }
}

impl Error for SizeFault {}
