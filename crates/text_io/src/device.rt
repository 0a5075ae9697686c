//! Sources and sinks of octets.

ghost use Rattle.std.specs.Prelude.{◌≡◌, ℕ, ◌<◌, ◌≤◌, ◌++◌, List, [], length, take, IfOk, OnOk, OnErr, Ok};
ghost use Rattle.text_io.specs.Devices.{one_more};

/// A device failed. The device may know the reason.
#[derive(Clone, Copy)]
pub struct Failed;

/// A source of octets: a file, a pipe or memory.
///
/// Contracts see the octets that are left, and the number of failed calls. For a device outside memory no contract
/// knows the octets that are left; `is_known` is then false.
pub trait Input {
    ghost is_known: { Type 0 };

    ghost rest: { Self → List ℕ };

    ghost failures: { Self → ℕ };

    /// Reads octets into the start of `room` and returns their number. It is 0 only at the end of the input or if
    /// `room` is empty. It may be less than there is room for.
    ///
    /// # Errors
    ///
    /// `Failed` if the device gave nothing. The device counts the failure.
    fn take(&mut self, room: &mut [u8]) -> Result<usize, Failed>
        ensures within { IfOk result (λ count. count ≤ length room.new) }
        ensures octets { is_known → IfOk result (λ count. rest self.old ≡ take count room.new ++ rest self.new) }
        ensures end { is_known → result ≡ Ok 0 → 0 < length room.new → rest self.new ≡ [] }
        ensures kept { is_known → OnErr result (rest self.new ≡ rest self.old) }
        ensures calm { OnOk result (failures self.new ≡ failures self.old) }
        ensures failed { OnErr result (failures self.new ≡ one_more (failures self.old)) };
}

/// A sink of octets: a file, a pipe or memory.
///
/// Contracts see the octets written, and the number of failed calls. For a device outside memory no contract knows
/// the octets that it holds; `is_known` is then false.
pub trait Output {
    ghost is_known: { Type 0 };

    ghost held: { Self → List ℕ };

    ghost failures: { Self → ℕ };

    /// Writes octets from the start of `octets` and returns their number: at least one, unless `octets` is empty. It
    /// may be less than all.
    ///
    /// # Errors
    ///
    /// `Failed` if the device took nothing. The device counts the failure.
    fn give(&mut self, octets: &[u8]) -> Result<usize, Failed>
        ensures within { IfOk result (λ count. count ≤ length octets.now) }
        ensures some { IfOk result (λ count. 0 < length octets.now → 0 < count) }
        ensures octets { is_known → IfOk result (λ count. held self.new ≡ held self.old ++ take count octets.now) }
        ensures kept { is_known → OnErr result (held self.new ≡ held self.old) }
        ensures calm { OnOk result (failures self.new ≡ failures self.old) }
        ensures failed { OnErr result (failures self.new ≡ one_more (failures self.old)) };
}
