//! The figures of a contract, as it is on paper.

/// A rate of cells.
#[derive(Clone, Copy)]
pub enum CellRate {
    /// Cells a second.
    Cells(u64),
    /// Bits of cells a second. On the line a cell has 53 octets, so 424 bits.
    Bits(u64),
}

/// The kinds of contract that have a sustained rate.
#[derive(Clone, Copy)]
pub enum VbrKind {
    Vbr1,
    Vbr2,
    Vbr3,
}

/// The figures of the sustained rate.
#[derive(Clone, Copy)]
pub struct Sustained {
    /// The kind of the contract.
    pub kind: VbrKind,
    /// The sustainable cell rate.
    pub scr: CellRate,
    /// The maximum burst size, in cells.
    pub mbs: u64,
}

/// The figures of a contract, and the tick of its policer.
#[derive(Clone, Copy)]
pub struct Figures {
    /// The peak cell rate.
    pub pcr: CellRate,
    /// The sustained rate. CBR.1 has none.
    pub sustained: Option<Sustained>,
    /// The cell delay variation tolerance, in nanoseconds.
    pub cdvt: u64,
    /// The tick, in nanoseconds.
    pub tick: u64,
}
