//! A process of an image, and what it was told.

ghost use Rattle.std.specs.Prelude.{◌≡◌, ◌<◌, ◌≤◌, ◌+◌, ◌-◌, [], ◌∷◌, ◌++◌, Some, IfOk, IfSome, IsSome, IsSomeAnd, OnOk, OnErr, map};
ghost use Rattle.std.specs.VecDeque.{deque_len, deque_capacity};
ghost use Rattle.hal_values.specs.Loads.{FitsNext, IsUpdate};
ghost use Rattle.hal_values.specs.Tables.{IsSnapshot};
ghost use Rattle.hal_code.specs.Cores as cores;
ghost use Rattle.hal_code.specs.Courses.{next, block, own, load_of};
ghost use Rattle.hal_runner.specs.Prepared.{prepared_seen};
ghost use Rattle.hal_runner.specs.Cases.{AreReady};
ghost use Rattle.hal_runner.specs.Replies.{reply_seen};
ghost use Rattle.exec_model.specs.Processes.{told_answer};
ghost use Rattle.image_procs.specs.Courses.{CanRun, AllFit, IsAt, IsCourse, parts, room};
ghost use Rattle.image_procs.specs.Tellings.{answers_told, look_seen};

use crate::history::History;
use crate::look::Look;
use crate::owning::own_values;
use crate::replies::waiting_of;
use crate::telling::told;
use hal_runner::{Prepared, Reply, Runner, request_of, values_of, writes_of};
use hal_values::{Answer, ReportName, Request, Value};
use std::alloc::AllocError;
use std::collections::VecDeque;

/// A process of an image, and what it was told.
#[derive(Drop)]
pub struct Course {
    /// It is gone where memory was wanting as it went on.
    pub runner: Option<Runner>,
    /// What it was told and wasn't given yet, the first answer first.
    pub waiting: VecDeque<Reply>,
    /// All that it was told, with the turns of UPDATE blocks. It takes no memory: only clauses read it.
    pub told: History<Reply, u16>,
    /// The last look at an UPDATE block of it.
    pub look: Option<Look>,
}

/// A process is given the answers that wait.
fn take_in(
    runner: &mut Runner,
    setting: &Prepared<'_>,
    waiting: &mut VecDeque<Reply>,
    told: &History<Reply, u16>,
) -> Result<(), AllocError>
    requires run { CanRun (prepared_seen setting.now) }
    requires ready { AreReady setting.now.plain.image.now setting.now.ready.now }
    requires fit { AllFit (prepared_seen setting.now) told.now.items }
    requires at { IsAt (prepared_seen setting.now) runner.old (map reply_seen waiting.old.items) told.now.items }
    ensures all { OnOk result ((waiting.new.items ≡ []) × IsAt (prepared_seen setting.now) runner.new [] told.now.items) }
    ensures capacity { deque_capacity waiting.new ≡ deque_capacity waiting.old }
    ensures fewer { deque_len waiting.new ≤ deque_len waiting.old }
{
    while let Some(reply) = waiting.pop_front() {
        runner.answer(setting, reply)?;
    }
    Ok(())
}

/// How many turns an UPDATE block made, after which the process has so many left.
fn turns_made(setting: &Prepared<'_>, left: u32) -> u16
    requires { CanRun (prepared_seen setting.now) }
    ensures { result ≡ setting.now.plain.turns - left }
{
    setting.plain.turns.saturating_sub(left) as u16
}

impl Course {
    /// A process before any answer.
    #[tactic(auto, using(crate::proofs::Standing::at_first))]
    pub(crate) fn start(setting: &Prepared<'_>) -> Result<Course, AllocError>
        requires { CanRun (prepared_seen setting.now) }
        ensures course { IfOk result (λ one. IsCourse (prepared_seen setting.now) (parts one)) }
        ensures told { IfOk result (λ one. one.told.items ≡ []) }
    {
        Ok(Course {
            runner: Some(Runner::start(setting)?),
            waiting: VecDeque::new(setting.plain.alloc),
            told: History::new(),
            look: None,
        })
    }

    /// Makes room for at least four further answers.
    pub(crate) fn reserve(&mut self) -> Result<(), AllocError>
        ensures same { parts self.new ≡ parts self.old }
        ensures room { OnOk result (4 ≤ room self.new) }
        ensures no_lower { room self.old ≤ room self.new }
    {
        self.waiting.reserve(4)?;
        Ok(())
    }

    /// The process is told an answer. It takes no memory.
    pub(crate) fn tell(&mut self, answer: Answer)
        requires room { 0 < room self.old }
        requires some { IsSome (told_answer (look_seen self.old.look) answer) }
        ensures told { IfSome (told_answer (look_seen self.old.look) answer) (λ given. answers_told self.new.told.items ≡ answers_told self.old.told.items ++ given ∷ []) }
        ensures room { room self.new + 1 ≡ room self.old }
        ensures course { (s : cores.Setting) → IsCourse s (parts self.old)
            → IsSomeAnd (told_answer (look_seen self.old.look) answer) (λ given. FitsNext (load_of s.turns s.image) s.process (answers_told self.old.told.items) given)
            → IsCourse s (parts self.new) }
    {
        let (reply, turns) = told(self.look.take(), answer);
        self.told = self.told.and(&reply, &turns);
        self.waiting.push_back_reserved(reply);
    }

    /// What the process asks, once it was given all answers that wait. Where memory is wanting it is gone.
    pub(crate) fn ask(&mut self, setting: &Prepared<'_>) -> Result<Request, AllocError>
        requires run { CanRun (prepared_seen setting.now) }
        requires ready { AreReady setting.now.plain.image.now setting.now.ready.now }
        requires course { IsCourse (prepared_seen setting.now) (parts self.old) }
        ensures asked { IfOk result (λ asked. asked ≡ next (prepared_seen setting.now) (answers_told self.old.told.items)) }
        ensures course { IsCourse (prepared_seen setting.now) (parts self.new) }
        ensures told { self.new.told.items ≡ self.old.told.items }
        ensures look { self.new.look ≡ self.old.look }
        ensures room { room self.old ≤ room self.new }
    {
        let mut runner = self.runner.take().ok_or(AllocError)?;
        take_in(&mut runner, setting, &mut self.waiting, &self.told)?;
        let request = request_of(runner.request());
        self.runner = Some(runner);
        Ok(request)
    }

    /// The same process once more, which was given all answers.
    #[tactic(auto, using(crate::proofs::Standing::at_copy))]
    fn copy(&self, setting: &Prepared<'_>) -> Result<Runner, AllocError>
        requires run { CanRun (prepared_seen setting.now) }
        requires ready { AreReady setting.now.plain.image.now setting.now.ready.now }
        requires course { IsCourse (prepared_seen setting.now) (parts self.now) }
        ensures { IfOk result (λ copy. IsAt (prepared_seen setting.now) copy [] self.now.told.items) }
    {
        let runner = self.runner.as_ref().ok_or(AllocError)?;
        let mut copy = runner.copy(setting.plain.alloc)?;
        let mut waiting = waiting_of(setting.plain.alloc, &self.waiting)?;
        take_in(&mut copy, setting, &mut waiting, &self.told)?;
        Ok(copy)
    }

    /// Looks at the UPDATE block that the process asks for: a copy of the process runs it.
    pub(crate) fn block(
        &mut self,
        setting: &Prepared<'_>,
        store: &[Value],
        writes: &mut Vec<(u16, Value)>,
    ) -> Result<u16, AllocError>
        requires run { CanRun (prepared_seen setting.now) }
        requires ready { AreReady setting.now.plain.image.now setting.now.ready.now }
        requires course { IsCourse (prepared_seen setting.now) (parts self.old) }
        requires asks { IsUpdate (next (prepared_seen setting.now) (answers_told self.old.told.items)) }
        requires snapshot { IsSnapshot setting.now.plain.cells.now store.now }
        ensures found { IfOk result (λ turns. block (prepared_seen setting.now) (answers_told self.old.told.items) store.now turns ≡ Some writes.new.items) }
        ensures look { IfOk result (λ turns. look_seen self.new.look ≡ Some (record { store = store.now; turns = turns })) }
        ensures refused { OnErr result ((self.new.look ≡ self.old.look) × (writes.new.items ≡ writes.old.items)) }
        ensures course { IsCourse (prepared_seen setting.now) (parts self.new) }
        ensures told { self.new.told.items ≡ self.old.told.items }
        ensures room { room self.old ≤ room self.new }
    {
        let mut copy = self.copy(setting)?;
        let kept = values_of(setting.plain.alloc, store)?;
        copy.answer(
            setting,
            Reply::Block(values_of(setting.plain.alloc, store)?),
        )?;
        *writes = writes_of(setting.plain.alloc, copy.writes())?;
        let turns = turns_made(setting, copy.turns());
        self.look = Some(Look { store: kept, turns });
        Ok(turns)
    }

    /// The own values of the process after all answers, as the report's names give them.
    pub(crate) fn own(
        &self,
        setting: &Prepared<'_>,
        names: &[ReportName],
    ) -> Result<Vec<Value>, AllocError>
        requires run { CanRun (prepared_seen setting.now) }
        requires ready { AreReady setting.now.plain.image.now setting.now.ready.now }
        requires course { IsCourse (prepared_seen setting.now) (parts self.now) }
        requires names { names.now ≡ (prepared_seen setting.now).tables.names }
        ensures { IfOk result (λ values. values.items ≡ own (prepared_seen setting.now) (answers_told self.now.told.items)) }
    {
        let copy = self.copy(setting)?;
        own_values(setting.plain.alloc, &copy, setting.plain.process, names)
    }
}
