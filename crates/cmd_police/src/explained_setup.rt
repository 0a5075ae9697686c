//! What `upc-lab explain --setup` says of a setup script.

ghost use Rattle.std.specs.Prelude.{◌≡◌, ◌≢◌, ◌++◌, Err, IfOk, OnErr, OnOk};
ghost use Rattle.text_io.specs.Devices.{Adds};
ghost use Rattle.text_io.specs.Failures.{write_failures};
ghost use Rattle.text_io.specs.Lines.{lines_of};
ghost use Rattle.cmd_police.specs.ExplainedSetups.{AreHintsOfSetup, IsExplainedAtTimes, IsExplainedInPart, IsSetupExplained, comment_of_hint, comments_of_hints};
ghost use Rattle.cmd_setups.specs.SharedTexts.{octets_of_texts};

use crate::preparing::{Prepared, prepare_setup};
use cmd_setups::{Explanation, SharedText, before_times, explanation_of, next_line};
use std::alloc::{AllocError, Global};
use text_io::{Done, Ending, Output, RunFault, give_last};
use text_words::add_text;

/// Returns the explanation of a script whose lines have these times, one for each.
fn explain_at_times(
    alloc: Global,
    script: &[u8],
    times: &[Option<u64>],
) -> Result<Explanation, AllocError>
    ensures { IfOk result (λ it. IsExplainedAtTimes script.now times.now it.text.items it.done) }
{
    let whole = explanation_of(alloc, script)?;
    if let Done::Ended = whole.done {
        return Ok(whole);
    }
    let before = explanation_of(alloc, before_times(script, times))?;
    match before.done {
        Done::Ended => Ok(before),
        Done::Whole => Ok(whole),
    }
}

/// Returns the explanation of a script with times and files of rules, of which `texts` are the octets.
fn setup_explanation(
    alloc: Global,
    setup: &[u8],
    texts: &[SharedText],
) -> Result<Explanation, AllocError>
    ensures { IfOk result (λ it. IsSetupExplained setup.now (octets_of_texts texts.now) it.text.items it.done) }
{
    match prepare_setup(alloc, setup, texts)? {
        Prepared::Ready(ready) => explain_at_times(alloc, ready.script(), &ready.times),
        Prepared::Faulty(text) => Ok(Explanation {
            text,
            done: Done::Ended,
        }),
    }
}

/// Writes what `police` would find wrong in a setup script that may name files of rules and times; or, if nothing is wrong, the hints about
/// it and a line that says so. `texts` are the octets of these files, in the order of [`files_read`](cmd_setups::files_read). The run is Ended
/// if there is a fault, and Whole if there is none. docs/LAB.md has the format.
///
/// # Errors
///
/// `WriteFailed` if the device failed; the output is then a prefix of the text. `NoMemory` if an allocation fails; nothing is written then.
pub fn explain_setup<O: Output>(
    alloc: Global,
    setup: &[u8],
    texts: &[SharedText],
    output: &mut O,
) -> Ending
    ensures explained { O.is_known → IfOk result (λ done.
        Adds (λ text. IsSetupExplained setup.now (octets_of_texts texts.now) text done) (O.held output.old) (O.held output.new)) }
    ensures front { O.is_known → OnErr result (IsExplainedInPart setup.now (octets_of_texts texts.now) (O.held output.old) (O.held output.new)) }
    ensures fault { result ≢ Err RunFault.ReadFailed }
    ensures writing { O.failures output.new ≡ write_failures result (O.failures output.old) }
{
    match setup_explanation(alloc, setup, texts) {
        Ok(mut explanation) => give_last(output, &mut explanation.text, explanation.done),
        Err(_) => Err(RunFault::NoMemory),
    }
}

/// Appends a line of an explanation as a comment, if it is a hint.
#[tactic(auto, using(std::proofs::lemmas::List::append_assoc))]
fn add_if_hint(hints: &mut Vec<u8>, content: &[u8], octets: &[u8]) -> Result<(), AllocError>
    ensures { OnOk result (hints.new.items ≡ hints.old.items ++ comment_of_hint content.now octets.now) }
{
    if !content.starts_with(b"hint ") {
        return Ok(());
    }
    add_text(hints, b"# ")?;
    add_text(hints, octets)
}

/// Returns the hints among the lines of an explanation as comments.
fn comments_of_hints(alloc: Global, text: &[u8]) -> Result<Vec<u8>, AllocError>
    ensures { IfOk result (λ hints. hints.items ≡ comments_of_hints (lines_of text.now)) }
{
    let mut hints = Vec::new(alloc);
    let mut left = text;
    while let Some((content, _, octets, rest)) = next_line(left) {
        add_if_hint(&mut hints, content, octets)?;
        left = rest;
    }
    Ok(hints)
}

/// Returns the hints about a setup script without a fault as comments, where `texts` are those of [`explain_setup`].
/// A script with a fault has none.
///
/// # Errors
///
/// An allocation failed.
pub fn hints_of_setup(
    alloc: Global,
    setup: &[u8],
    texts: &[SharedText],
) -> Result<Vec<u8>, AllocError>
    ensures { IfOk result (λ hints. AreHintsOfSetup setup.now (octets_of_texts texts.now) hints.items) }
{
    let explanation = setup_explanation(alloc, setup, texts)?;
    match explanation.done {
        Done::Ended => Ok(Vec::new(alloc)),
        Done::Whole => comments_of_hints(alloc, &explanation.text),
    }
}
