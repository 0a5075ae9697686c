//! Runs the program over three devices and returns its exit status.

ghost use Rattle.std.specs.Prelude.{◌≡◌, Result, is_some};
ghost use Rattle.text_command_line.specs.ExitStatus.{status_of};
ghost use Rattle.cmd_differ.specs.DifferText.{IsDifferText};
ghost use Rattle.text_io.specs.declared.ending.Done.{Done as TheDone};
ghost use Rattle.text_io.specs.declared.ending.RunFault.{RunFault as Failed};
ghost use Rattle.upc_lab.specs.Comparison.{CarriesFinding};
ghost use Rattle.upc_lab.specs.ExplainRun.{CarriesExplained};
ghost use Rattle.upc_lab.specs.ForwardRun.{CarriesForward};
ghost use Rattle.upc_lab.specs.LabEffects.{CarriesAllOut, CarriesAsked, CarriesPlain, CarriesStop, ForwardsAsked, IsStatusIn, MayForwardAsked, WritesSetupHints};
ghost use Rattle.upc_lab.specs.LabMessages.{message_over};
ghost use Rattle.upc_lab.specs.LabText.{kinds_asked};
ghost use Rattle.upc_lab.specs.NamedFiles.{explains_setup, rules_in_files, setup_name};
ghost use Rattle.upc_lab.specs.RulesRun.{CarriesRules};
ghost use Rattle.upc_lab.specs.inner.Stops.{IsStatusOfStop};

use crate::named_files::{NamedFiles, Unreadable};
use crate::reason::Reasoned;
use crate::reporting::{report, report_finding, report_run};
use crate::running::{kinds_asked, others_asked, run_cells, run_fit, run_police};
use crate::setup_hints::setup_comments;
use cmd_differ::{compare_texts, unused_in_text};
use cmd_explain::{Ahead, explain_faults};
use cmd_explain_rules::{Comments, compile_with_hints};
use cmd_fit::links_of_capture;
use cmd_forward::forward_as_agreed;
use cmd_list::{list_program, trace_cells};
use cmd_options::{Asked, DifferOptions, ForwardOptions, Subcommand};
use cmd_police::explain_setup;
use cmd_rules::{assemble_rules, decide_cells};
use cmd_size::size_contracts;
use std::alloc::Global;
use std::thread::Threads;
use text_command_line::{Stop, write_message};
use text_io::{Output, RunFault, give_all};

/// Returns whether the words ask that a setup script is explained. Nothing is read then.
pub(crate) fn explains_setup(chosen: &Result<Asked, Stop>) -> bool
    ensures { result ≡ explains_setup chosen.now }
{
    match chosen {
        Ok(Asked::Explain(options)) => options.setup.is_some(),
        _ => false,
    }
}

/// Returns whether the words name a setup script.
fn names_setup(chosen: &Result<Asked, Stop>) -> bool
    ensures { result ≡ is_some (setup_name chosen.now) }
{
    match chosen {
        Ok(Asked::Police(_) | Asked::Forward(_)) => true,
        _ => explains_setup(chosen),
    }
}

/// If the words name a setup script, writes the hints about its files of rules to the error output, and those about the
/// script itself unless it is explained.
fn write_setup_hints<E: Output>(
    alloc: Global,
    chosen: &Result<Asked, Stop>,
    files: &NamedFiles,
    errors: &mut E,
)
    ensures { E.is_known → WritesSetupHints chosen.now files.now E.Output errors.old errors.new }
{
    if names_setup(chosen) {
        let comments = setup_comments(alloc, !explains_setup(chosen), files);
        write_message(errors, comments.text());
    }
}

/// Compiles the rules of the whole input, and then writes the hints about them to the error output, and returns the exit status. A failure
/// gets a message.
fn compile_and_write_hints<I: Ahead + Reasoned, O: Output + Reasoned, E: Output>(
    alloc: Global,
    input: &mut I,
    output: &mut O,
    errors: &mut E,
) -> u8
    ensures carried { I.is_known → O.is_known → E.is_known → CarriesRules (message_over I.Reasoned input.new O.Reasoned output.new)
        I.Input input.old input.new O.Output output.old output.new E.Output errors.old errors.new result }
    ensures status { (ended : Result TheDone Failed) × (result ≡ status_of ended) }
{
    let mut comments = Comments::Made(Vec::new(alloc));
    let ended = compile_with_hints(alloc, input, output, &mut comments);
    report_run(ended, comments.text(), input, output, errors)
}

/// Writes the records of the capture that go on, and then what is reported of the run to the error output, and returns
/// the exit status. A failure gets a message.
fn forward_and_write_report<I: Ahead + Reasoned, O: Output + Reasoned, E: Output>(
    alloc: Global,
    options: &ForwardOptions,
    files: &NamedFiles,
    input: &mut I,
    output: &mut O,
    errors: &mut E,
) -> u8
    ensures carried { I.is_known → O.is_known → E.is_known → CarriesForward (message_over I.Reasoned input.new O.Reasoned output.new)
        (ForwardsAsked files.now options.now) (MayForwardAsked files.now options.now)
        I.Input input.old input.new O.Output output.old output.new E.Output errors.old errors.new result }
    ensures status { (ended : Result TheDone Failed) × (result ≡ status_of ended) }
{
    let mut said = Vec::new(alloc);
    let ended = forward_as_agreed(
        alloc,
        files.script.as_slice(),
        files.rules.as_slice(),
        others_asked(options.others),
        files.tick,
        options.tick,
        options.link,
        input,
        output,
        &mut said,
    );
    report_run(ended, &said, input, output, errors)
}

/// Compares the old text with the whole input, and returns the exit status. A failure also gets a message.
fn compare_with_old_text<I: Ahead + Reasoned, O: Output + Reasoned, E: Output>(
    alloc: Global,
    options: &DifferOptions,
    files: &NamedFiles,
    input: &mut I,
    output: &mut O,
    errors: &mut E,
) -> u8
    ensures carried { I.is_known → O.is_known → E.is_known → CarriesFinding (message_over I.Reasoned input.new O.Reasoned output.new)
        (IsDifferText (kinds_asked options.now.programs) options.now.all files.now.other_text.items)
        I.Input input.old input.new O.Output output.old output.new E.Output errors.old errors.new result }
    ensures status { (ended : Result TheDone Failed) × (result ≡ status_of ended) }
{
    let ended = compare_texts(
        alloc,
        kinds_asked(options.programs),
        files.other_text.as_slice(),
        options.all,
        input,
        output,
    );
    report_finding(ended, input, output, errors)
}

/// Explains a setup script, and returns the exit status. A failure gets a message. Nothing is read.
fn explain_setup_script<I: Ahead + Reasoned, O: Output + Reasoned, E: Output>(
    alloc: Global,
    files: &NamedFiles,
    input: &mut I,
    output: &mut O,
    errors: &mut E,
) -> u8
    ensures carried { I.is_known → O.is_known → E.is_known → CarriesExplained (message_over I.Reasoned input.new O.Reasoned output.new)
        files.now.script.items (rules_in_files files.now) I.Input input.old input.new O.Output output.old output.new E.Output errors.old errors.new result }
    ensures status { (ended : Result TheDone Failed) × (result ≡ status_of ended) }
{
    let ended = explain_setup(
        alloc,
        files.script.as_slice(),
        files.rules.as_slice(),
        output,
    );
    report(ended, input, output, errors)
}

/// Runs a subcommand without options, and returns the exit status. A failure gets a message.
fn run_without_options<I: Ahead + Reasoned, O: Output + Reasoned, E: Output>(
    alloc: Global,
    subcommand: Subcommand,
    input: &mut I,
    output: &mut O,
    errors: &mut E,
) -> u8
    ensures carried { I.is_known → O.is_known → E.is_known → CarriesPlain (message_over I.Reasoned input.new O.Reasoned output.new)
        subcommand I.Input input.old input.new O.Output output.old output.new E.Output errors.old errors.new result }
    ensures status { (ended : Result TheDone Failed) × (result ≡ status_of ended) }
{
    match subcommand {
        Subcommand::Rules => compile_and_write_hints(alloc, input, output, errors),
        Subcommand::Unused => {
            report_finding(unused_in_text(alloc, input, output), input, output, errors)
        }
        Subcommand::Asm => report(assemble_rules(alloc, input, output), input, output, errors),
        Subcommand::List => report(list_program(alloc, input, output), input, output, errors),
        Subcommand::Trace => report(trace_cells(alloc, input, output), input, output, errors),
        Subcommand::Size => report(size_contracts(alloc, input, output), input, output, errors),
        Subcommand::Links => report(
            links_of_capture(alloc, input, output),
            input,
            output,
            errors,
        ),
    }
}

/// Runs what was asked for, with the files that the words name, and returns the exit status. A failure gets a message.
fn run_asked<R: Threads, I: Ahead + Reasoned + Send, O: Output + Reasoned, E: Output>(
    rt: &R,
    alloc: Global,
    asked: &Asked,
    files: &NamedFiles,
    input: &mut I,
    output: &mut O,
    errors: &mut E,
) -> u8
    ensures carried { I.is_known → O.is_known → E.is_known → CarriesAsked (message_over I.Reasoned input.new O.Reasoned output.new)
        asked.now files.now I.Input input.old input.new O.Output output.old output.new E.Output errors.old errors.new result }
    ensures status { (ended : Result TheDone Failed) × (result ≡ status_of ended) }
{
    match asked {
        Asked::Plain(subcommand) => run_without_options(alloc, *subcommand, input, output, errors),
        Asked::Why(options) => {
            let ended = decide_cells(alloc, options.count, input, output);
            report(ended, input, output, errors)
        }
        Asked::Cells(options) => {
            let ended = run_cells(rt, alloc, options, input, output);
            report(ended, input, output, errors)
        }
        Asked::Fit(options) => {
            let ended = run_fit(rt, alloc, options, files, input, output);
            report(ended, input, output, errors)
        }
        Asked::Police(options) => {
            let ended = run_police(rt, alloc, options, files, input, output);
            report(ended, input, output, errors)
        }
        Asked::Forward(options) => {
            forward_and_write_report(alloc, options, files, input, output, errors)
        }
        Asked::Differ(options) => {
            compare_with_old_text(alloc, options, files, input, output, errors)
        }
        Asked::Explain(options) => match &options.setup {
            Some(_) => explain_setup_script(alloc, files, input, output, errors),
            None => report(explain_faults(alloc, input, output), input, output, errors),
        },
    }
}

/// Writes the help, or a message about the words, and returns the exit status. A failure gets a message.
fn write_help_or_message<I: Ahead + Reasoned, O: Output + Reasoned, E: Output>(
    stop: &Stop,
    input: &mut I,
    output: &mut O,
    errors: &mut E,
) -> u8
    ensures carried { I.is_known → O.is_known → E.is_known → CarriesStop (message_over I.Reasoned input.new O.Reasoned output.new)
        stop.now I.Input input.old input.new O.Output output.old output.new E.Output errors.old errors.new result }
    ensures status { IsStatusOfStop stop.now result }
{
    match stop {
        Stop::Help(text) => match give_all(output, text.as_bytes()) {
            Ok(()) => 0,
            Err(_) => report(Err(RunFault::WriteFailed), input, output, errors),
        },
        Stop::Words(text) => {
            write_message(errors, text.as_bytes());
            2
        }
        Stop::NoMemory => report(Err(RunFault::NoMemory), input, output, errors),
    }
}

/// Does what the words ask for, and returns the exit status. The hints about a setup script that they name come first. If a
/// file that they name could not be read, it only writes a message that says so, and the status is 3.
pub fn carry_out<R: Threads, I: Ahead + Reasoned + Send, O: Output + Reasoned, E: Output>(
    rt: &R,
    alloc: Global,
    chosen: &Result<Asked, Stop>,
    named: &Result<NamedFiles, Unreadable>,
    input: &mut I,
    output: &mut O,
    errors: &mut E,
) -> u8
    ensures carried { I.is_known → O.is_known → E.is_known → CarriesAllOut (message_over I.Reasoned input.new O.Reasoned output.new)
        chosen.now named.now I.Input input.old input.new O.Output output.old output.new E.Output errors.old errors.new result }
    ensures status { IsStatusIn chosen.now named.now result }
{
    match named {
        Ok(files) => {
            write_setup_hints(alloc, chosen, files, errors);
            match chosen {
                Ok(asked) => run_asked(rt, alloc, asked, files, input, output, errors),
                Err(stop) => write_help_or_message(stop, input, output, errors),
            }
        }
        Err(unreadable) => {
            write_message(errors, unreadable.message());
            3
        }
    }
}
