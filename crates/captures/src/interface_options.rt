//! The options in the description of an interface.

ghost use Rattle.std.specs.Prelude.{◌≡◌, option_map};
ghost use Rattle.captures.specs.InterfaceOptions.{ahead_in as ahead_of, option_of, resolution_in as resolution_of, unit_of_options, unit_of_resolution};

use crate::fault::RecordFault;
use crate::format::Order;
use crate::packet::from_place;
use crate::packet_time::{TimeUnit, units_in_second};

/// The code of the option with the resolution of times.
const IF_TSRESOL: u16 = 9;
/// The code of the option with the seconds to add to times.
const IF_TSOFFSET: u16 = 14;
/// The octets of an option before its value.
const OPTION_HEADER_OCTETS: usize = 4;
/// The resolution of times if no option says another: microseconds.
const MICROSECONDS: u8 = 6;

/// Returns the value of the first option with this code.
fn option_in(order: Order, code: u16, options: &[u8]) -> Option<&[u8]>
    ensures { option_map (λ value. value.now) result ≡ option_of order code options.now }
{
    let mut rest = options;
    for _ in 0..options.len() / OPTION_HEADER_OCTETS {
        if rest.len() < OPTION_HEADER_OCTETS {
            return None;
        }
        let found = order.half_in(rest);
        if found == 0 {
            return None;
        }
        let size = usize::from(order.half_in(from_place(rest, 2)));
        if rest.len() < OPTION_HEADER_OCTETS + size {
            return None;
        }
        if found == code {
            return Some(&from_place(rest, OPTION_HEADER_OCTETS)[..size]);
        }
        let octets = OPTION_HEADER_OCTETS + (size + 3) / 4 * 4;
        rest = from_place(rest, octets.min(rest.len()));
    }
    None
}

/// Returns the resolution in the value of the option `if_tsresol`, or microseconds without one.
fn resolution_in(value: Option<&[u8]>) -> u8
    ensures { result ≡ resolution_of (option_map (λ value. value.now) value.entry) }
{
    match value {
        Some(value) if !value.is_empty() => value[0],
        _ => MICROSECONDS,
    }
}

/// Returns the seconds in the value of the option `if_tsoffset`, or 0 if there is none or it has fewer than eight octets.
fn ahead_in(order: Order, value: Option<&[u8]>) -> u64
    ensures { result ≡ ahead_of order (option_map (λ value. value.now) value.entry) }
{
    match value {
        Some(value) if 8 <= value.len() => order.long_in(value),
        _ => 0,
    }
}

/// Returns the unit of this resolution, with the seconds to add, or `OtherResolution` if such units are too short to be read.
fn unit_by(resolution: u8, ahead: u64) -> Result<TimeUnit, RecordFault>
    ensures { result ≡ unit_of_resolution resolution ahead }
{
    if units_in_second(resolution) == 0 {
        return Err(RecordFault::OtherResolution(resolution));
    }
    Ok(TimeUnit { resolution, ahead })
}

/// Returns the unit of the times of packets of an interface that has these options.
pub(crate) fn unit_in(order: Order, options: &[u8]) -> Result<TimeUnit, RecordFault>
    ensures { result ≡ unit_of_options order options.now }
{
    let resolution = resolution_in(option_in(order, IF_TSRESOL, options));
    let ahead = ahead_in(order, option_in(order, IF_TSOFFSET, options));
    unit_by(resolution, ahead)
}
