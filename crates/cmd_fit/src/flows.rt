//! The flows of a captured link.

ghost use Rattle.std.specs.Prelude.{◌≡◌, ◌<◌, length};
ghost use Rattle.cmd_fit.specs.inner.FlowPlaces.{IsSmall, TakesAt, state_place};

use crate::fault::FitFault;
use crate::fit_lines::{add_fit_lines, key_of};
use crate::flow::Flow;
use crate::flow_fit::FlowFit;
use std::alloc::{AllocError, Global};
use std::collections::BTreeMap;
use std::marker::Model;
use upc_cell::Side;

/// Why a cell ends the run, if it does. The error is that memory is short.
type Taken = Result<Option<FitFault>, AllocError>;

/// The highest number of flows.
const MOST_FLOWS: usize = 65535;

/// The states of the flows that have cells, in the order of their first cells. Contracts see the list of them. A map in
/// the order of keys leads from a flow to the place of its state. So a cell costs a few dozen comparisons at most,
/// whatever connections a sender chooses. In a map by hashes, whose seed is fixed, a sender could choose connections that
/// collide.
#[derive(Drop)]
pub(crate) struct Flows {
    /// The place of each flow's state, by the flow's key.
    places: BTreeMap<u64, usize>,
    fits: Vec<FlowFit>,
}

impl Model for Flows {
    ghost use Rattle.std.specs.Prelude.{List};
    ghost use Rattle.cmd_fit.specs.declared.flow_fit.FlowFit.{FlowFit as State};
    ghost use Rattle.cmd_fit.specs.inner.FlowPlaces.{KeepsFits};

    ghost Value = { List State };

    ghost view = { λ flows. flows.fits.items };

    ghost invariant = { λ flows. KeepsFits flows.places.entries flows.fits.items };
}

/// Returns the place of a flow's state, if it has one.
fn place_in(places: &BTreeMap<u64, usize>, flow: Flow) -> Option<usize>
    ensures place { result ≡ state_place places.now.entries flow }
    ensures small { IsSmall flow }
{
    places.get(&key_of(flow)).copied()
}

impl Flows {
    ghost use Rattle.std.specs.Prelude.{◌≡◌, ◌++◌, ◌∷◌, ◌<◌, [], None, IfOk, OnOk, length};
    ghost use Rattle.cmd_fit.specs.Fits.{fit_in, fits_after, most_connections};
    ghost use Rattle.cmd_fit.specs.FitText.{fit_lines};
    ghost use Rattle.cmd_fit.specs.inner.FlowPlaces.{taken_as};

    /// Makes a list without flows.
    pub(crate) fn new(alloc: Global) -> Self
        ensures { result ≡ [] }
    {
        let places = BTreeMap::new(alloc);
        let fits = Vec::new(alloc);
        Flows { places, fits }
    }

    /// Takes a cell of this flow at this moment, whose record has this number. Returns why it ends the run, if it does.
    pub(crate) fn take(&mut self, increment: u64, flow: Flow, moment: u64, number: u64) -> Taken
        ensures { IfOk result (λ fault. fits_after increment self.old flow moment number ≡ taken_as fault self.new) }
    {
        match place_in(&self.places, flow) {
            Some(place) => Ok(take_at(&mut self.fits, place, increment, moment, number)),
            None => self.begin(increment, flow, moment, number),
        }
    }

    /// Takes the first cell of a flow.
    fn begin(&mut self, increment: u64, flow: Flow, moment: u64, number: u64) -> Taken
        requires { fit_in flow self.old ≡ None }
        ensures { IfOk result (λ fault. fits_after increment self.old flow moment number ≡ taken_as fault self.new) }
    {
        if self.fits().len() >= MOST_FLOWS {
            return Ok(Some(FitFault::TooManyConnections));
        }
        self.add(FlowFit::first(flow, increment, moment, number))?;
        Ok(None)
    }

    /// Returns the states.
    fn fits(&self) -> &[FlowFit]
        ensures { result.now ≡ self.now }
    {
        &self.fits
    }

    /// Adds the state of another flow.
    fn add(&mut self, fit: FlowFit) -> Result<(), AllocError>
        requires { fit_in fit.flow self.old ≡ None }
        ensures { OnOk result (self.new ≡ self.old ++ fit ∷ []) }
    {
        let place = self.fits.len();
        self.fits.push(fit)?;
        match self.places.insert(key_of(fit.flow), place) {
            Ok(_) => Ok(()),
            Err(_) => {
                let _ = self.fits.pop();
                Err(AllocError)
            }
        }
    }

    /// Appends the lines of the flows, in order of path, channel and value.
    pub(crate) fn add_lines(
        &self,
        alloc: Global,
        answers: &mut Vec<u8>,
        side: Side,
        valued: bool,
    ) -> Result<(), AllocError>
        ensures { OnOk result (answers.new.items ≡ answers.old.items ++ fit_lines side valued self.now) }
    {
        add_fit_lines(alloc, answers, side, valued, &self.fits)
    }
}

/// Takes a cell of the flow whose state is at this place.
fn take_at(
    fits: &mut Vec<FlowFit>,
    place: usize,
    increment: u64,
    moment: u64,
    number: u64,
) -> Option<FitFault>
    requires { place < length fits.old.items }
    ensures { TakesAt fits.old.items place increment moment number result fits.new.items }
{
    match fits[place].after(increment, moment, number) {
        Some(fit) => {
            fits[place] = fit;
            None
        }
        None => Some(FitFault::TooLarge),
    }
}
