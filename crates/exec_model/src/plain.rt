ghost use Rattle.std.specs.Prelude.{◌≡◌, ◌++◌, ◌∷◌, [], IfOk, OnErr, MatchBool};
ghost use Rattle.std.specs.Bool.{OnTrue, OnFalse};
ghost use Rattle.exec_model.specs.Meanings.{meaning};
ghost use Rattle.exec_model.specs.Moments.{moment_of};
ghost use Rattle.exec_model.specs.Running.{IsSame};
ghost use Rattle.exec_model.specs.Sound.{IsSound, KeepsClock};
ghost use Rattle.exec_model.specs.Steps.{IsAllowed, stepped};

use crate::commit::take_step;
use crate::draft::Draft;
use crate::event::{Event, Journal};
use crate::events::{drafted, first_event};
use crate::opening::unsettled_state;
use crate::procs::Procs;
use crate::script::Script;
use crate::settling::settle_rows;
use crate::state::State;
use hal_values::Listing;
use std::alloc::{AllocError, Global};
use std::marker::Model;

/// A slow executive that computes the definitions, over any processes. A contract sees its processes,
/// its state, the events so far, and the number of lanes.
pub struct Plain<P: Procs + Drop> {
    alloc: Global,
    procs: P,
    state: State,
    journal: Journal,
    lanes: u8,
}

impl<P: Procs + Drop> Drop for Plain<P> {
    fn drop(self) {
        let Plain {
            alloc: _,
            procs: _procs,
            state: _state,
            journal: _journal,
            lanes: _,
        } = self;
    }
}

impl<P: Procs + Drop> Model for Plain<P> {
    ghost use Rattle.std.specs.Prelude.{◌≤◌};
    ghost use Rattle.exec_model.specs.Running.{Running};

    ghost Value = { Running P };

    ghost use Rattle.exec_model.specs.Meanings.{meaning};
    ghost use Rattle.exec_model.specs.Moments.{moment_of};
    ghost use Rattle.exec_model.specs.Running.{IsRunning};

    ghost view = { λ plain. record { procs = plain.procs; state = plain.state; journal = plain.journal; lanes = plain.lanes } };

    ghost invariant = { λ plain. IsRunning (meaning P.Of.Load (P.load plain.procs)) (moment_of plain.state (P.answers plain.procs)) plain.lanes };
}

/// Makes the step of an event, if it may come, and writes the event down; or leaves all as it is.
fn make_step<P: Procs>(
    alloc: Global,
    procs: &mut P,
    state: &mut State,
    journal: &mut Journal,
    lanes: u8,
    event: Event,
) -> Result<bool, AllocError>
    requires sound { IsSound (meaning P.Of.Load (P.load procs.old)) (moment_of state.old (P.answers procs.old)) }
    requires clock { KeepsClock (moment_of state.old (P.answers procs.old)) event }
    ensures allowed { IfOk result (λ made. MatchBool made (IsAllowed (meaning P.Of.Load (P.load procs.old)) lanes (moment_of state.old (P.answers procs.old)) event) (IsAllowed (meaning P.Of.Load (P.load procs.old)) lanes (moment_of state.old (P.answers procs.old)) event → ⊥)) }
    ensures made { IfOk result (λ made. OnTrue made (moment_of state.new (P.answers procs.new) ≡ stepped (meaning P.Of.Load (P.load procs.old)) (moment_of state.old (P.answers procs.old)) event)) }
    ensures written { IfOk result (λ made. OnTrue made (journal.new ≡ journal.old ++ event ∷ [])) }
    ensures not_made { IfOk result (λ made. OnFalse made (IsSame state.old (P.answers procs.old) journal.old state.new (P.answers procs.new) journal.new)) }
    ensures refused { OnErr result (IsSame state.old (P.answers procs.old) journal.old state.new (P.answers procs.new) journal.new) }
    ensures load { P.load procs.new ≡ P.load procs.old }
{
    let Some(draft) = drafted(alloc, procs, state, lanes, event)? else {
        return Ok(false);
    };
    let length = journal.as_slice().len();
    journal.push(event)?;
    if take_step(alloc, procs, state, draft).is_err() {
        journal.truncate(length);
        return Err(AllocError);
    }
    Ok(true)
}

impl<P: Procs + Drop> Plain<P> {
    ghost use Rattle.std.specs.Prelude.{◌≡◌, ◌≤◌, ◌↔◌, ◌++◌, ◌∷◌, [], IsTrue, IfOk, IfSome, IsNone, OnErr, replicate};
    ghost use Rattle.std.specs.Bool.{OnTrue, OnFalse};
    ghost use Rattle.hal_base.specs.declared.limits.TheConstants.{LANE_LIMIT};
    ghost use Rattle.hal_values.specs.Tables.{process_count};
    ghost use Rattle.exec_model.specs.Meanings.{meaning};
    ghost use Rattle.exec_model.specs.Opening.{opening};
    ghost use Rattle.exec_model.specs.Running.{running_moment, IsUnmoved};
    ghost use Rattle.exec_model.specs.Runs.{IsOfProcess, IsQuiet};
    ghost use Rattle.exec_model.specs.Sound.{KeepsClock};
    ghost use Rattle.exec_model.specs.Steps.{IsAllowed, stepped};

    /// The executive as a run of these processes begins, under a script and with 1 to 16 lanes.
    pub fn start(
        alloc: Global,
        procs: P,
        script: &Script,
        lanes: u8,
    ) -> Result<Plain<P>, AllocError>
        requires lanes { (1 ≤ lanes) × (lanes ≤ LANE_LIMIT) }
        requires fresh { P.answers procs ≡ replicate (process_count (P.Of.tables (P.load procs))) [] }
        ensures opening { IfOk result (λ plain. running_moment P.answers plain ≡ opening (P.Of.tables (P.load procs)) script.now) }
        ensures journal { IfOk result (λ plain. plain.journal ≡ []) }
        ensures lanes { IfOk result (λ plain. plain.lanes ≡ lanes) }
        ensures load { IfOk result (λ plain. P.load plain.procs ≡ P.load procs) }
    {
        let mut procs = procs;
        let mut state = unsettled_state(alloc, procs.tables(), script.as_slice())?;
        let mut draft = Draft::of(alloc, &state, &procs)?;
        settle_rows(procs.tables(), &mut draft)?;
        take_step(alloc, &mut procs, &mut state, draft)?;
        Ok(Plain {
            alloc,
            procs,
            state,
            journal: Listing::empty(alloc),
            lanes,
        })
    }

    /// Makes the step of an event and answers true, or answers false where the event may not come. A
    /// Tick has to keep the clock within the sum that scripts may have.
    pub fn step(&mut self, event: Event) -> Result<bool, AllocError>
        requires { KeepsClock (running_moment P.answers self.old) event }
        ensures allowed { IfOk result (λ made. IsTrue made ↔ IsAllowed (meaning P.Of.Load (P.load self.old.procs)) self.old.lanes (running_moment P.answers self.old) event) }
        ensures made { IfOk result (λ made. OnTrue made (running_moment P.answers self.new ≡ stepped (meaning P.Of.Load (P.load self.old.procs)) (running_moment P.answers self.old) event)) }
        ensures written { IfOk result (λ made. OnTrue made (self.new.journal ≡ self.old.journal ++ event ∷ [])) }
        ensures not_made { IfOk result (λ made. OnFalse made (IsUnmoved P.answers self.old self.new)) }
        ensures refused { OnErr result (IsUnmoved P.answers self.old self.new) }
        ensures load { P.load self.new.procs ≡ P.load self.old.procs }
        ensures lanes { self.new.lanes ≡ self.old.lanes }
    {
        let made = make_step(
            self.alloc,
            &mut self.procs,
            &mut self.state,
            &mut self.journal,
            self.lanes,
            event,
        )?;
        Ok(made)
    }

    /// An event Act, Open or Block that may come now, or None where no row is Ready.
    pub fn next_event(&mut self) -> Result<Option<Event>, AllocError>
        ensures of_process { IfOk result (λ found. IfSome found IsOfProcess) }
        ensures found { IfOk result (λ found. IfSome found (IsAllowed (meaning P.Of.Load (P.load self.old.procs)) self.old.lanes (running_moment P.answers self.old))) }
        ensures none { IfOk result (λ found. IsNone found ↔ IsQuiet (running_moment P.answers self.old)) }
        ensures same { IsUnmoved P.answers self.old self.new }
        ensures load { P.load self.new.procs ≡ P.load self.old.procs }
        ensures lanes { self.new.lanes ≡ self.old.lanes }
    {
        let found = first_event(self.alloc, &mut self.procs, &self.state, self.lanes)?;
        Ok(found)
    }

    /// The events so far.
    pub fn journal(&self) -> &Journal
        ensures { result.now ≡ self.now.journal }
    {
        &self.journal
    }

    /// The state after them.
    pub fn state(&self) -> &State
        ensures { result.now ≡ self.now.state }
    {
        &self.state
    }

    /// The processes.
    pub fn procs(&self) -> &P
        ensures { result.now ≡ self.now.procs }
    {
        &self.procs
    }
}
