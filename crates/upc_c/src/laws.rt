//! Laws of the cards that C has.

ghost use Rattle.upc_c.specs.ListedFaults.{ReportsNoOthers};

/// A card reports only the faults that the header lists at each call: never Busy or Stale of the desk, nor Released or
/// Stale of a cell, and an allocation failure only of a setup or a cut.
pub fn cards_report_no_other_fault()
    ensures { ReportsNoOthers }
{}
