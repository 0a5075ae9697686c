//! The times in the headers of packets.

ghost use Rattle.std.specs.Prelude.{◌≡◌, ◌<◌, ◌^◌, IsTrue};
ghost use Rattle.captures.specs.PacketTimes.{packet_time as time_of, same_unit, time_of_stamp, times_begun, times_in as packet_times_in, units_in_second as units_of_resolution, units_of_second};

/// Which time of a record counts.
#[derive(Clone, Copy, PartialEq, Eq)]
pub enum TimeSource {
    /// Its own time, from its header, which the capture card wrote.
    Record,
    /// That of its packet, in a pcap or a pcapng file.
    Packet,
}

/// In which units the headers of packets count time.
#[derive(Clone, Copy)]
pub struct TimeUnit {
    /// N means 10^-N seconds, and 128 + N means 2^-N seconds.
    pub resolution: u8,
    /// The seconds that are added to each time, as a number of 64 bits with its sign.
    pub ahead: u64,
}

/// What is known of the times of packets.
#[derive(Clone, Copy)]
pub struct PacketTimes {
    /// Whether they count, in place of those of records.
    pub are_read: bool,
    /// The unit of those that come next. None before a section of a pcapng file describes its first interface of records.
    pub unit: Option<TimeUnit>,
}

/// Returns how many units of this resolution a second has, or 0 if such a unit isn't read.
pub(crate) fn units_in_second(resolution: u8) -> u64
    ensures { result ≡ units_of_resolution resolution }
{
    match resolution {
        0 => 1,
        1 => 10,
        2 => 100,
        3 => 1_000,
        4 => 10_000,
        5 => 100_000,
        6 => 1_000_000,
        7 => 10_000_000,
        8 => 100_000_000,
        9 => 1_000_000_000,
        10 => 10_000_000_000,
        11 => 100_000_000_000,
        12 => 1_000_000_000_000,
        13 => 10_000_000_000_000,
        14 => 100_000_000_000_000,
        15 => 1_000_000_000_000_000,
        16 => 10_000_000_000_000_000,
        17 => 100_000_000_000_000_000,
        18 => 1_000_000_000_000_000_000,
        19 => 10_000_000_000_000_000_000,
        128..=191 => 1 << (resolution - 128),
        _ => 0,
    }
}

impl TimeUnit {
    /// Returns whether two units are the same.
    pub(crate) fn is_same(self, other: TimeUnit) -> bool
        ensures { result ≡ same_unit self other }
    {
        self.resolution == other.resolution && self.ahead == other.ahead
    }

    /// Returns how many units a second has, one at least.
    pub(crate) fn units(self) -> u128
        ensures count { result ≡ units_of_second self }
        ensures some { 0 < result }
        ensures most { result < 2 ^ 64 }
    {
        u128::from(units_in_second(self.resolution).max(1))
    }

    /// Returns the time of a packet that counts this many units, in units of 2^-32 seconds.
    fn time_of(self, stamp: u128) -> u64
        requires { stamp < 2 ^ 97 }
        ensures { result ≡ time_of_stamp self stamp }
    {
        let units = self.units();
        let seconds = (stamp / units + u128::from(self.ahead)) % 0x1_0000_0000;
        let part = stamp % units * 0x1_0000_0000 / units;
        (seconds * 0x1_0000_0000 + part) as u64
    }
}

impl PacketTimes {
    /// Returns times in units of this resolution. They aren't read unless `Format::timed_by` asks for them.
    pub(crate) fn in_units(resolution: u8) -> PacketTimes
        ensures { result ≡ packet_times_in resolution }
    {
        PacketTimes {
            are_read: false,
            unit: Some(TimeUnit {
                resolution,
                ahead: 0,
            }),
        }
    }

    /// Returns what is known where the next section begins: no unit.
    pub(crate) fn begun(self) -> PacketTimes
        ensures { result ≡ times_begun self }
    {
        PacketTimes { unit: None, ..self }
    }

    /// Returns the time of a packet that counts this many units, if such times are read.
    #[inline(always)]
    pub(crate) fn time_of(self, stamp: u128) -> Option<u64>
        requires { stamp < 2 ^ 97 }
        ensures { result ≡ time_of self stamp }
    {
        if !self.are_read {
            return None;
        }
        self.unit.map(|unit| unit.time_of(stamp))
    }
}
