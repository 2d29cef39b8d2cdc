use crate::copies::{copy_values, copy_writes};
use crate::desk::Desk;
use crate::place::place_of;
use crate::scripted::Scripted;
use exec_model::Procs;
use hal_values::{Answer, Listing, Request, Tables, Value};
use std::alloc::{AllocError, Global};
use std::marker::Model;

/// The processes of a scripted load.
pub struct ScriptedProcs {
    alloc: Global,
    load: Scripted,
    desks: Vec<Desk>,
}

impl Drop for ScriptedProcs {
    fn drop(self) {
        let ScriptedProcs {
            alloc: _,
            load: _load,
            desks: _desks,
        } = self;
    }
}

impl Model for ScriptedProcs {
    ghost use Rattle.exec_rows.specs.Procs.{Playing, IsPlaying};

    ghost Value = { Playing };

    ghost view = { λ procs. record { load = procs.load; desks = procs.desks.items } };

    ghost invariant = { λ procs. IsPlaying procs.load procs.desks.items };
}

impl ScriptedProcs {
    ghost use Rattle.std.specs.Prelude.{◌≡◌, [], replicate, true, IfOk};
    ghost use Rattle.hal_values.specs.Tables.{process_count};
    ghost use Rattle.exec_rows.specs.Checks.{checks, scripted};
    ghost use Rattle.exec_rows.specs.Playing.{all_answers};

    /// The processes of this load, before any answer.
    pub fn start(alloc: Global, load: Scripted) -> Result<ScriptedProcs, AllocError>
        requires { checks load ≡ true }
        ensures load { IfOk result (λ procs. procs.load ≡ load) }
        ensures answers { IfOk result (λ procs. all_answers procs.desks ≡ replicate (process_count (scripted procs.load).tables) []) }
    {
        let mut desks = Vec::new(alloc);
        for _name in load.tables.processes.as_slice() {
            desks.push(Desk::new(alloc))?;
        }
        Ok(ScriptedProcs { alloc, load, desks })
    }
}

impl Procs for ScriptedProcs {
    type Of = Scripted;

    ghost use Rattle.exec_rows.specs.Playing.{all_answers, all_rooms, all_looks};

    ghost load = { λ procs. procs.load };

    ghost answers = { λ procs. all_answers procs.desks };

    ghost rooms = { λ procs. all_rooms procs.desks };

    ghost looks = { λ procs. all_looks procs.desks };

    fn tables(&self) -> &Tables {
        &self.load.tables
    }

    fn ask(&mut self, process: u8) -> Result<Request, AllocError> {
        let answers = self.desks[usize::from(process)].answers();
        let place = place_of(self.load.bodies.as_slice(), process, answers);
        Ok(place.asked())
    }

    fn reserve(&mut self) -> Result<(), AllocError> {
        for place in 0..self.desks.len() {
            self.desks[place].reserve()?;
        }
        Ok(())
    }

    fn block(
        &mut self,
        process: u8,
        store: &[Value],
        writes: &mut Vec<(u16, Value)>,
    ) -> Result<u16, AllocError> {
        let answers = self.desks[usize::from(process)].answers();
        let place = place_of(self.load.bodies.as_slice(), process, answers);
        let Some((made, turns)) = place.block() else {
            return Err(AllocError);
        };
        let made = copy_writes(self.alloc, made)?;
        let seen = Listing::new(copy_values(self.alloc, store)?);
        *writes = made;
        self.desks[usize::from(process)].look(seen, turns);
        Ok(turns)
    }

    fn tell(&mut self, process: u8, answer: Answer) {
        self.desks[usize::from(process)].tell(answer);
    }
}
