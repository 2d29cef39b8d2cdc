//! Places of memory by their numbers.

ghost use Rattle.std.specs.Prelude.{◌≡◌, ◌≤◌, drop, length, slice_get, Some, IfOk};
ghost use Rattle.hal_code.specs.Images.{expanded};
ghost use Rattle.hal_verify.specs.Cursors.{seen_cursor};
ghost use Rattle.hal_verify.specs.Starts.{starts_of};

use crate::cursor::Cursor;
use crate::memory::Memory;
use crate::room::Room;
use hal_code::Run;
use std::alloc::{AllocError, Global};

/// The number of the first place of each run.
#[tactic(auto, using(crate::proofs::Expanded::behind, crate::proofs::Expanded::none_behind))]
fn starts_of(alloc: Global, runs: &[Run<Room>]) -> Result<Vec<u64>, AllocError>
    ensures { IfOk result (λ starts. starts.items ≡ starts_of 0 runs.now) }
{
    let mut starts = Vec::new(alloc);
    let mut count: u64 = 0;
    for run in runs {
        starts.push(count)?;
        count = count.saturating_add(u64::from(run.repeat));
    }
    Ok(starts)
}

/// The run in which the place with this number stands, or 0, found by halves. Another run that begins no later would do as well, and take longer.
fn run_at(starts: &[u64], number: u64) -> usize
    ensures { result ≤ length starts.now }
{
    let mut low = 0;
    let mut high = starts.len();
    while high - low > 1 {
        let middle = low + (high - low) / 2;
        if starts[middle] <= number {
            low = middle;
        } else {
            high = middle;
        }
    }
    low
}

impl Memory {
    /// The memory of these runs.
    pub(crate) fn new(alloc: Global, runs: Vec<Run<Room>>) -> Result<Memory, AllocError>
        ensures { IfOk result (λ memory. memory.runs.items ≡ runs.items) }
    {
        let starts = starts_of(alloc, &runs)?;
        Ok(Memory { runs, starts })
    }

    /// The beginning of a run, or the end.
    fn from(&self, run: usize) -> Cursor<'_>
        requires { run ≤ length self.now.runs.items }
        ensures { seen_cursor result ≡ expanded (drop run self.now.runs.items) }
    {
        Cursor::new(self.runs.as_slice().split_at(run).1)
    }

    /// The number of the first place of a run that may be there.
    fn start_of(&self, run: usize) -> Option<u64>
        ensures { result ≡ slice_get (starts_of 0 self.now.runs.items) run }
    {
        self.starts.get(run).copied()
    }

    /// The place with this number, or the end, from a run on that begins before it.
    #[tactic(auto, using(crate::proofs::Starts::at_start, crate::proofs::Starts::run_within))]
    fn at_from(&self, run: usize, start: u64, number: u32) -> Cursor<'_>
        requires there { slice_get (starts_of 0 self.now.runs.items) run ≡ Some start }
        requires before { start ≤ number }
        ensures { seen_cursor result ≡ drop number (expanded self.now.runs.items) }
    {
        self.from(run).skip((u64::from(number) - start) as u32)
    }

    /// The place with this number, or the end.
    pub(crate) fn at(&self, number: u32) -> Cursor<'_>
        ensures { seen_cursor result ≡ drop number (expanded self.now.runs.items) }
    {
        let run = run_at(&self.starts, u64::from(number));
        match self.start_of(run) {
            Some(start) if start <= u64::from(number) => self.at_from(run, start, number),
            _ => self.from(0).skip(number),
        }
    }
}
