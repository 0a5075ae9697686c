//! The ports and the desk of a card, which run at the same time, each port on a thread of its own.

ghost use Rattle.std.specs.Prelude.{◌≡◌, ◌≤◌, [], All, IfOk, length, map, vec_len, vec_capacity};
ghost use Rattle.std.specs.List.{AllZip};
ghost use Rattle.line_record.specs.Tally.{nothing};
ghost use Rattle.port_card.specs.Seats.{tally_of_seat};
ghost use Rattle.cmd_ports.specs.inner.AtOnce.{KeepsPromise};
ghost use Rattle.cmd_ports.specs.inner.Arrivals.{AnswersPort};
ghost use Rattle.cmd_ports.specs.inner.DeskTexts.{ObeysEach};

use crate::busy_ports::BusyPort;
use crate::port_arrivals::arrive_from_each;
use crate::port_job::{PortJob, jobs_of};
use crate::script_desk::{ScriptDesk, answer_each};
use port_card::{Card, Gate, Ledgers, PortSeat};
use std::alloc::{AllocError, Global};
use std::sync::Wait;
use std::thread::{self, Promise, PromisedHandle, Scope, Threads};
use upc_cell::Side;

/// What the thread of a port promises: the answers to these lines, on a card of this side.
#[derive(Clone, Copy)]
pub struct AnswersTo<'a, 'l> {
    side: Side,
    lines: &'a [&'l [u8]],
}

impl<'a, 'l, S: Ledgers> Promise<Result<BusyPort<S>, AllocError>> for AnswersTo<'a, 'l> {
    ghost use Rattle.std.specs.Prelude.{IfOk};
    ghost use Rattle.cmd_ports.specs.inner.AtOnce.{KeepsPromise};

    ghost kept_by = { λ promise result. IfOk result (λ port. KeepsPromise promise port.arrivals.items) };
}

/// A port's thread.
type Running<'a, 'l, S> = PromisedHandle<Result<BusyPort<S>, AllocError>, AnswersTo<'a, 'l>>;

/// What is left when all threads have ended: the ports with the answers to their cells, the texts of the desk, and the desk.
#[derive(Drop)]
pub struct AtOnce<S: Ledgers> {
    pub ports: Vec<BusyPort<S>>,
    pub desk_texts: Vec<Vec<u8>>,
    pub desk: ScriptDesk<S>,
}

/// Starts a thread for each job, into a list that has room for them. Returns the threads, or, if one can't be started,
/// those before it.
fn start_ports<
    's,
    'e: 's,
    'l: 'e,
    S: Ledgers + Send + Sync,
    G: Gate + Sync,
    R: Threads + Wait + Sync,
>(
    scope: &'s Scope<'s, &'e ()>,
    rt: &'e R,
    alloc: Global,
    card: &'e Card<S>,
    side: Side,
    gate: &'e G,
    jobs: Vec<PortJob<'e, 'l, S>>,
    running: Vec<Running<'e, 'l, S>>,
) -> Result<Vec<Running<'e, 'l, S>>, Vec<Running<'e, 'l, S>>>
    requires empty { running.items ≡ [] }
    requires room { vec_len jobs ≤ vec_capacity running }
    ensures { IfOk result (λ running. map (λ thread. thread.promise) running.items
        ≡ map (λ job. record { side = side; lines = job.lines }) jobs.entry.items) }
{
    let mut running = running;
    for job in jobs {
        let promise = AnswersTo {
            side,
            lines: job.lines,
        };
        match scope.spawn_with(promise, move || {
            arrive_from_each(rt, alloc, card, job, side, gate)
        }) {
            Ok(thread) => running.push_reserved(thread),
            Err(_) => return Err(running),
        }
    }
    Ok(running)
}

/// Waits for all threads, and returns their ports in a list that has room for them. If threads failed, returns the last error.
fn join_ports<'e, 'l, S: Ledgers, R: Threads>(
    rt: &R,
    running: Vec<Running<'e, 'l, S>>,
    ended: Vec<BusyPort<S>>,
) -> Result<Vec<BusyPort<S>>, AllocError>
    requires empty { ended.items ≡ [] }
    requires room { vec_len running ≤ vec_capacity ended }
    ensures { IfOk result (λ ports. AllZip KeepsPromise (map (λ thread. thread.promise) running.entry.items)
        (map (λ port. port.arrivals.items) ports.items)) }
{
    let mut ended = ended;
    let mut whole = Ok(());
    for thread in running {
        match thread.join(rt) {
            Ok(port) => ended.push_reserved(port),
            Err(error) => whole = Err(error),
        }
    }
    match whole {
        Ok(()) => Ok(ended),
        Err(error) => Err(error),
    }
}

/// Waits for each thread, and drops its port.
fn end_ports<'e, 'l, S: Ledgers, R: Threads>(rt: &R, running: Vec<Running<'e, 'l, S>>) {
    for thread in running {
        let _ = thread.join(rt);
    }
}

/// Runs the ports and the desk in this scope. The desk runs on this thread.
fn run_in<'s, 'e: 's, 'l: 'e, S: Ledgers + Send + Sync, G: Gate + Sync, R: Threads + Wait + Sync>(
    scope: &'s Scope<'s, &'e ()>,
    rt: &'e R,
    card: &'e Card<S>,
    gate: &'e G,
    jobs: Vec<PortJob<'e, 'l, S>>,
    desk: ScriptDesk<S>,
    lines: &[&[u8]],
) -> Result<AtOnce<S>, AllocError>
    ensures ports { IfOk result (λ done. AllZip (AnswersPort card.now.side) (map (λ job. map (λ line. line.now) job.lines.now) jobs.entry.items)
        (map (λ port. port.arrivals.items) done.ports.items)) }
    ensures desk { IfOk result (λ done. ObeysEach card.now.side (map (λ line. line.now) lines.now)
        desk.names (map (λ text. text.items) done.desk_texts.items) done.desk.names) }
{
    let mut desk = desk;
    let alloc = desk.alloc;
    let running = Vec::with_capacity(alloc, jobs.len())?;
    let ended = Vec::with_capacity(alloc, jobs.len())?;
    let side = card.side();
    match start_ports(scope, rt, alloc, card, side, gate, jobs, running) {
        Ok(running) => {
            let desk_texts = answer_each(rt, card, &mut desk, lines);
            let ports = join_ports(rt, running, ended)?;
            Ok(AtOnce {
                ports,
                desk_texts: desk_texts?,
                desk,
            })
        }
        Err(running) => {
            end_ports(rt, running);
            Err(AllocError)
        }
    }
}

/// Runs each port on a thread of its own, with the lines of its cells, and the desk on this thread. Returns the ports
/// with the answers to their cells, and the answers to the desk's lines.
///
/// # Errors
///
/// `AllocError` if an allocation fails, including that for the start of a thread. All threads that were started have
/// ended by then.
pub fn run_at_once<'l, S: Ledgers + Send + Sync, G: Gate + Sync, R: Threads + Wait + Sync>(
    rt: &R,
    alloc: Global,
    card: &Card<S>,
    gate: &G,
    seats: Vec<PortSeat<S>>,
    arrivals: &[Vec<&'l [u8]>],
    desk: ScriptDesk<S>,
    lines: &[&[u8]],
) -> Result<AtOnce<S>, AllocError>
    requires one_each { length seats.items ≡ length arrivals.now }
    requires unused { All (λ seat. tally_of_seat seat ≡ nothing) seats.items }
    ensures ports { IfOk result (λ done. AllZip (AnswersPort card.now.side) (map (λ own. map (λ line. line.now) own.items) arrivals.now)
        (map (λ port. port.arrivals.items) done.ports.items)) }
    ensures desk { IfOk result (λ done. ObeysEach card.now.side (map (λ line. line.now) lines.now)
        desk.names (map (λ text. text.items) done.desk_texts.items) done.desk.names) }
{
    let jobs = jobs_of(alloc, seats, arrivals)?;
    thread::scope(thread::scope_env(), rt, |scope| {
        run_in(scope, rt, card, gate, jobs, desk, lines)
    })
}
