//! Errors, as C gets them.

ghost use Rattle.std.specs.Prelude.{◌≡◌, ◌≢◌};
ghost use Rattle.upc_c.specs.Faults.{AnswersCall, no_fault, out_of_memory, plain_fault};
ghost use Rattle.upc_c.specs.CardHandle.{card_missing};
ghost use Rattle.upc_c.specs.inner.Numbered.{IsNumbered};

/// The error of a call, or all zeros if it has none.
///
/// The kind and the number are those of an error in `docs/FORMATS.md`; the header lists the kinds. A call with this error
/// returns 256 times the kind, plus the number. Fields that an error doesn't use are 0.
#[repr(C)]
#[derive(Clone, Copy, Debug)]
pub struct UpcFault {
    /// The part that found the error: the call itself, decoding, the assembler, and so on. 0 if there is no error.
    pub kind: u32,
    /// The number of the error among those of its kind, from 1.
    pub number: u32,
    /// By kind: the place of the instruction, from 0; the line of the source or of the rules, or the bucket of the contract, from 1; the
    /// number of octets that there are; the octets, entries, meters or answers that are needed; or, of arrival error 4, the moment of
    /// the connection's last judged cell, in ticks.
    pub place: usize,
    /// The index of a scratch word, 0 to 15.
    pub word: u32,
    /// The code of an instruction that isn't in the table.
    pub code: u32,
    /// The column in the line of a text of rules, from 1.
    pub column: usize,
}

/// What a call from C finds, or its error.
pub(crate) type ForC<T> = Result<T, UpcFault>;

/// The kind of the errors of the call itself: an allocation failed, the buffer is too small, the kind of the contract is unknown,
/// the levels are too late, the side is unknown, and so on. This constant and those below have the numbers of `enum upc_kind` in
/// `include/upc.h`.
pub(crate) const OF_THE_CALL: u32 = 1;

/// The kind of the error of octets that are no cell.
pub(crate) const OF_A_CELL: u32 = 2;

pub(crate) const OF_DECODING: u32 = 3;

pub(crate) const OF_ASSEMBLY: u32 = 4;

pub(crate) const OF_THE_CHECK: u32 = 5;

pub(crate) const OF_A_RATE: u32 = 6;

pub(crate) const OF_A_BURST: u32 = 7;

pub(crate) const OF_AN_ARRIVAL: u32 = 8;

pub(crate) const OF_A_SHAPE: u32 = 9;

pub(crate) const OF_THE_DESK: u32 = 10;

/// The kind of the errors of texts of rules.
pub(crate) const OF_RULES: u32 = 11;

/// No error.
const NO_FAULT: UpcFault = UpcFault {
    kind: 0,
    number: 0,
    place: 0,
    word: 0,
    code: 0,
    column: 0,
};

/// Returns the error with this kind, number and place, and nothing else.
pub(crate) fn fault_at(kind: u32, number: u32, place: usize) -> UpcFault
    ensures { result ≡ plain_fault kind number place }
{
    UpcFault {
        kind,
        number,
        place,
        word: 0,
        code: 0,
        column: 0,
    }
}

/// Returns the error that an allocation failed.
pub(crate) fn out_of_memory() -> UpcFault
    ensures { result ≡ out_of_memory }
{
    fault_at(OF_THE_CALL, 1, 0)
}

/// Returns the error that there is no card.
pub(crate) fn card_missing() -> UpcFault
    ensures { result ≡ card_missing }
{
    fault_at(OF_THE_CALL, 9, 0)
}

/// Writes the error and returns its result: 256 times its kind, plus its number.
pub(crate) fn report(fault: &mut UpcFault, found: UpcFault) -> u32
    requires { IsNumbered found }
    ensures written { fault.new ≡ found }
    ensures answers { AnswersCall result fault.new }
    ensures refused { result ≢ 0 }
{
    *fault = found;
    found.kind * 256 + found.number
}

/// Writes that there is no error, and returns 0.
pub(crate) fn report_success(fault: &mut UpcFault) -> u32
    ensures success { fault.new ≡ no_fault }
    ensures answers { AnswersCall result fault.new }
    ensures zero { result ≡ 0 }
{
    *fault = NO_FAULT;
    0
}
