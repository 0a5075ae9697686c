//! Laws of the definitions. Each function does nothing; its contract is the law.

ghost use Rattle.captures.specs.Moments.{StampsLoseNoTick};
ghost use Rattle.captures.specs.Opening.{OpeningsStay};
ghost use Rattle.captures.specs.Reading.{FaultsEndReadings, FramesAreReadInOrder, HasOneReading, HasSomeReading};

/// A reading begins with the frame that comes next, and goes on as the reading of what follows it.
pub fn frames_are_read_in_order()
    ensures { FramesAreReadInOrder }
{}

/// A reading ends with the fault that comes next, whatever follows.
pub fn faults_end_readings()
    ensures { FaultsEndReadings }
{}

/// A capture has at most one reading.
pub fn captures_have_one_reading()
    ensures { HasOneReading }
{}

/// Any octets have a reading.
pub fn captures_have_a_reading()
    ensures { HasSomeReading }
{}

/// If two cells came a whole number of ticks apart, their stamps give this number, although stamps are rounded down.
pub fn stamps_lose_no_tick()
    ensures { StampsLoseNoTick }
{}

/// What a file is stays once its first octets decided it, whatever follows them.
pub fn openings_stay()
    ensures { OpeningsStay }
{}
