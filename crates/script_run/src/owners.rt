ghost use Rattle.std.specs.Prelude.{◌≡◌, IfOk};
ghost use Rattle.hal_values.specs.Requests.{HasProcess};
ghost use Rattle.exec_model.specs.Moments.{answers_in};

use exec_model::Procs;
use hal_values::{Listing, Value};
use std::alloc::AllocError;

/// Processes that tell their own values.
pub trait Owners: Procs {
    /// The own values of a process after its answers, as the report's names give them.
    fn own(&self, process: u8) -> Result<Listing<Value>, AllocError>
        requires { HasProcess (Self.Of.tables (Self.load self.now)) process }
        ensures { IfOk result (λ values. values ≡ Self.Of.own (Self.load self.now) process (answers_in (Self.answers self.now) process)) };
}
