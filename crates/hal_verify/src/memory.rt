//! Memory by runs, in which a place is found in few steps.

ghost use Rattle.std.specs.Prelude.{◌≡◌};
ghost use Rattle.hal_verify.specs.Starts.{starts_of};

use crate::room::Room;
use hal_code::Run;

/// Memory by runs, with the number of the first place of each, or 2^64 - 1 where it is larger.
#[derive(Drop)]
pub(crate) struct Memory {
    pub runs: Vec<Run<Room>>,
    pub starts: Vec<u64>,
    ghost started: { starts.items ≡ starts_of 0 runs.items },
}
