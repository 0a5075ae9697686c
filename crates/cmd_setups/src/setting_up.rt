//! The card that a setup script leads to.

ghost use Rattle.std.specs.Prelude.{IfOk, IfSome, IfNone};
ghost use Rattle.cmd_explain_script.specs.ScriptText.{IsScriptExplained};
ghost use Rattle.cmd_setups.specs.SetUpScripts.{IsFaultOfEither};
ghost use Rattle.cmd_setups.specs.inner.SetUpCard.{IsSetUpAs, RunsWhole};
ghost use Rattle.cmd_setups.specs.SetUpCard.{LeadsScriptTo};

use crate::counts_at_setup::CountsAtSetup;
use crate::noted_setups::NotedSetups;
use crate::stored_commands::{before_times, commands_at};
use crate::timed_card::TimedCard;
use captures::Tick;
use cmd_explain_script::explain_script;
use cmd_run::ScriptCard;
use std::alloc::{AllocError, Global};
use text_io::{Done, ReaderInput, WriterOutput, answer_lines};

/// What a setup script leads to before the first cell.
#[derive(Drop)]
pub enum SetUp {
    /// The script has faults, perhaps in lines that would wait. This text explains them.
    Faulty(Vec<u8>),
    /// A card, and the commands that wait.
    Ready(TimedCard),
}

/// The explanation of a script.
#[derive(Drop)]
pub struct Explanation {
    /// Its text.
    pub text: Vec<u8>,
    /// Ended if the script has a fault, Whole if it has none.
    pub done: Done,
}

/// Returns the explanation of a script.
///
/// # Errors
///
/// `AllocError` if an allocation failed.
pub fn explanation_of(alloc: Global, script: &[u8]) -> Result<Explanation, AllocError>
    ensures { IfOk result (λ explanation. IsScriptExplained script.now explanation.text.items explanation.done) }
{
    let mut input = ReaderInput::new(script);
    let mut output = WriterOutput::new(Vec::new(alloc));
    match explain_script(alloc, &mut input, &mut output) {
        Ok(done) => Ok(Explanation {
            text: output.writer,
            done,
        }),
        Err(_) => Err(AllocError),
    }
}

/// Returns the explanation of the faults of a script, if it has any.
fn faults_of(alloc: Global, script: &[u8]) -> Result<Option<Vec<u8>>, AllocError>
    ensures faulty { IfOk result (λ found. IfSome found (λ text. IsScriptExplained script.now text.items Done.Ended)) }
    ensures faultless { IfOk result (λ found. IfNone found (RunsWhole script.now)) }
{
    let explanation = explanation_of(alloc, script)?;
    match explanation.done {
        Done::Ended => Ok(Some(explanation.text)),
        Done::Whole => Ok(None),
    }
}

/// Returns the explanation of the faults of a script, or, if it has none, of those of `before`, its lines before the first time.
fn faults_at_times(
    alloc: Global,
    script: &[u8],
    before: &[u8],
) -> Result<Option<Vec<u8>>, AllocError>
    ensures faulty { IfOk result (λ found. IfSome found (λ text. IsFaultOfEither script.now before.now text.items)) }
    ensures faultless { IfOk result (λ found. IfNone found (RunsWhole script.now)) }
    ensures faultless_before { IfOk result (λ found. IfNone found (RunsWhole before.now)) }
{
    if let Some(text) = faults_of(alloc, script)? {
        return Ok(Some(text));
    }
    faults_of(alloc, before)
}

/// Returns the card that a script without a fault leads to, and what its lines had counted when their connections were set up.
fn card_of(alloc: Global, script: &[u8]) -> Result<(ScriptCard, CountsAtSetup), AllocError>
    requires { RunsWhole script.now }
    ensures { IfOk result (λ made. IsSetUpAs script.now made.0 made.1.counts.items) }
{
    let mut input = ReaderInput::new(script);
    let mut output = WriterOutput::new(Vec::new(alloc));
    let mut run = NotedSetups::new(alloc);
    match answer_lines(alloc, &mut input, &mut output, &mut run) {
        Ok(Done::Whole) => {
            let (card, at_setup) = run.into_parts();
            match card {
                Some(card) => Ok((card, at_setup)),
                None => unreachable!(),
            }
        }
        Ok(Done::Ended) => unreachable!(),
        Err(_) => Err(AllocError),
    }
}

/// Carries out the lines of a setup script before the first one with a time. The others wait.
///
/// # Errors
///
/// `AllocError` if an allocation failed.
pub fn set_up(
    alloc: Global,
    script: &[u8],
    times: &[Option<u64>],
    tick: Tick,
) -> Result<SetUp, AllocError>
    ensures { IfOk result (LeadsScriptTo tick.nanoseconds script.now times.now) }
{
    let before = before_times(script, times);
    if let Some(text) = faults_at_times(alloc, script, before)? {
        return Ok(SetUp::Faulty(text));
    }
    let (card, at_setup) = card_of(alloc, before)?;
    let commands = commands_at(alloc, tick, times, script)?;
    Ok(SetUp::Ready(TimedCard {
        alloc,
        card,
        at_setup,
        commands,
    }))
}
