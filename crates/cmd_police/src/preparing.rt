//! A setup script, prepared: its lines without their times, and with the programs of its rules.

ghost use Rattle.std.specs.Prelude.{◌≡◌, IfOk};
ghost use Rattle.cmd_setups.specs.SharedTexts.{octets_of_texts};
ghost use Rattle.cmd_police.specs.inner.Preparing.{PreparesTo, script_of};

use crate::expanding::{Expanded, expand_setup};
use cmd_setups::{SharedText, TimedScript, take_times};
use std::alloc::{AllocError, Global};

/// A setup script whose times don't fall and whose rules have no fault.
#[derive(Drop)]
pub(crate) struct ReadySetup {
    /// Its lines without their times.
    pub plain: Vec<u8>,
    /// The same with the programs of its rules, if it names any.
    pub replaced: Option<Vec<u8>>,
    /// For each line its own time, or that of the nearest line before it with one, in nanoseconds. Lines before the first time have None,
    /// and are carried out before all cells.
    pub times: Vec<Option<u64>>,
}

/// What a setup script leads to before any of its lines is carried out.
#[derive(Drop)]
pub(crate) enum Prepared {
    /// A time that falls, or rules with a fault, which this text explains.
    Faulty(Vec<u8>),
    /// A script to carry out.
    Ready(ReadySetup),
}

impl ReadySetup {
    /// Returns the script that is carried out.
    pub(crate) fn script(&self) -> &[u8]
        ensures { result.now ≡ script_of self.now }
    {
        match &self.replaced {
            Some(script) => script.as_slice(),
            None => self.plain.as_slice(),
        }
    }
}

/// Takes the times out of a setup script, and puts the programs of its rules into it. `texts` are the octets of its files of rules, in
/// order.
pub(crate) fn prepare_setup(
    alloc: Global,
    setup: &[u8],
    texts: &[SharedText],
) -> Result<Prepared, AllocError>
    ensures { IfOk result (PreparesTo setup.now (octets_of_texts texts.now)) }
{
    match take_times(alloc, setup)? {
        TimedScript::Falls(text) => Ok(Prepared::Faulty(text)),
        TimedScript::Ready(plain, times) => match expand_setup(alloc, &plain, texts)? {
            Expanded::Faulty(text) => Ok(Prepared::Faulty(text)),
            Expanded::Itself => Ok(Prepared::Ready(ReadySetup {
                plain,
                replaced: None,
                times,
            })),
            Expanded::Replaced(script) => Ok(Prepared::Ready(ReadySetup {
                plain,
                replaced: Some(script),
                times,
            })),
        },
    }
}
