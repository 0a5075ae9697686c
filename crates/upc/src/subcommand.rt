//! Runs a subcommand over two devices.

ghost use Rattle.std.specs.Prelude.{◌≢◌};
ghost use Rattle.text_io.specs.Serving.{IsServed};
ghost use Rattle.upc.specs.Subcommand.{IsTextOf};
ghost use Rattle.text_command_line.specs.declared.choice.Choice.TheVariants.{Ports};

use cmd_programs::{check_source, eval_bytes};
use cmd_run::run_script;
use std::alloc::Global;
use text_command_line::Choice;
use text_io::{Ending, Input, Output};

/// Runs a subcommand other than `ports` over the whole input. It uses one thread and always terminates.
///
/// # Errors
///
/// See [`text_io::RunFault`].
pub fn run_on_one_thread<I: Input, O: Output>(
    alloc: Global,
    choice: Choice,
    input: &mut I,
    output: &mut O,
) -> Ending
    requires { choice ≢ Ports }
    ensures { IsServed (IsTextOf choice) I.Input input.old input.new O.Output output.old output.new result }
{
    match choice {
        Choice::Check => check_source(alloc, input, output),
        Choice::Eval => eval_bytes(alloc, input, output),
        Choice::Run => run_script(alloc, input, output),
        Choice::Ports => unreachable!(),
    }
}
