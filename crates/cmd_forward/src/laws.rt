//! Laws of the definitions. Each function does nothing; its contract is the law.

ghost use Rattle.cmd_forward.specs.ForwardLaws.{ForwardedOnce, WhatWasForwardedConforms};

/// Under each contract, what goes on passes if it is judged once more by the same contract, from empty buckets, at the same moments.
pub fn what_was_forwarded_conforms()
    ensures { WhatWasForwardedConforms }
{}

/// A setup script, times of its lines and a capture have one output and one report. So `forward` writes that output, however the input is
/// cut.
pub fn a_forwarded_capture_has_one_output()
    ensures { ForwardedOnce }
{}
