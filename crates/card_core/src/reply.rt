//! The replies of the core.

ghost use Rattle.std.specs.Prelude.{◌≡◌};
ghost use Rattle.card_core.specs.PortReplies.{reply_of};
ghost use Rattle.card_core.specs.DeskReplies.{load_reply, retire_reply, setup_reply, reload_reply, release_reply, cut_reply};

use crate::answer::Answer;
use crate::ask::Ask;
use crate::fault::DeskFault;
use bpf_verify::Program;
use gen_arena::Id;
use line_record::{Owner, Piece};

/// The reply of the core to a step.
#[derive(Debug, Drop)]
pub enum Reply {
    /// The port has the cell.
    Entered,
    /// The cell's connection was found, and its program gave a value for the cell.
    Picked,
    /// The step doesn't fit the state of its port, or there is no such port.
    NotNow,
    /// The answer to the port's cell.
    Answered(Answer),
    /// The program is live under this id.
    Loaded(Id),
    /// The program is returned.
    NotLoaded(DeskFault, Program),
    /// The program that was live.
    Retired(Program),
    /// The connection is set up, with a line of its own.
    SetUp(Owner),
    /// The request is returned.
    NotSetUp(DeskFault, Ask),
    /// The program that the connection had before.
    Reloaded(Id),
    /// The last journal of the connection that ended.
    Released(Piece),
    /// The journal that the cut returned.
    Cut(Piece),
    /// The step of the desk was refused for this reason, or found no memory. Nothing changed.
    Refused(DeskFault),
}

/// The reply of the core to a step of a port. It is small; a [`Reply`] has room for a program.
#[derive(Clone, Copy, Debug)]
pub enum PortReply {
    /// The port has the cell.
    Entered,
    /// The cell's connection was found, and its program gave a value for the cell.
    Picked,
    /// The step doesn't fit the state of its port, or there is no such port.
    NotNow,
    /// The answer to the port's cell.
    Answered(Answer),
}

/// The same reply, as a [`Reply`].
pub(crate) fn whole(reply: PortReply) -> Reply
    ensures { result ≡ reply_of reply }
{
    match reply {
        PortReply::Entered => Reply::Entered,
        PortReply::Picked => Reply::Picked,
        PortReply::NotNow => Reply::NotNow,
        PortReply::Answered(answer) => Reply::Answered(answer),
    }
}

/// The reply to `Load`.
pub(crate) fn of_load(returned: Result<Id, (DeskFault, Program)>) -> Reply
    ensures { result ≡ load_reply returned }
{
    match returned {
        Ok(id) => Reply::Loaded(id),
        Err((fault, program)) => Reply::NotLoaded(fault, program),
    }
}

/// The reply to `Retire`.
pub(crate) fn of_retire(returned: Result<Program, DeskFault>) -> Reply
    ensures { result ≡ retire_reply returned }
{
    match returned {
        Ok(program) => Reply::Retired(program),
        Err(fault) => Reply::Refused(fault),
    }
}

/// The reply to `Setup`.
pub(crate) fn of_setup(returned: Result<Owner, (DeskFault, Ask)>) -> Reply
    ensures { result ≡ setup_reply returned }
{
    match returned {
        Ok(owner) => Reply::SetUp(owner),
        Err((fault, ask)) => Reply::NotSetUp(fault, ask),
    }
}

/// The reply to `Reload`.
pub(crate) fn of_reload(returned: Result<Id, DeskFault>) -> Reply
    ensures { result ≡ reload_reply returned }
{
    match returned {
        Ok(before) => Reply::Reloaded(before),
        Err(fault) => Reply::Refused(fault),
    }
}

/// The reply to `Release`.
pub(crate) fn of_release(returned: Result<Piece, DeskFault>) -> Reply
    ensures { result ≡ release_reply returned }
{
    match returned {
        Ok(piece) => Reply::Released(piece),
        Err(fault) => Reply::Refused(fault),
    }
}

/// The reply to `Cut`.
pub(crate) fn of_cut(returned: Result<Piece, DeskFault>) -> Reply
    ensures { result ≡ cut_reply returned }
{
    match returned {
        Ok(piece) => Reply::Cut(piece),
        Err(fault) => Reply::Refused(fault),
    }
}
