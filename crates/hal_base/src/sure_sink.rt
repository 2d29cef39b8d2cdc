ghost use Rattle.std.specs.Prelude.{◌≡◌, length, None, Ok};

use crate::sink::{Sink, SinkFault};

/// A sink that takes each piece whole, keeps nothing and never fails.
#[derive(Clone, Copy, PartialEq, Eq)]
pub struct SureSink;

impl SureSink {
    pub fn new() -> SureSink {
        SureSink
    }
}

impl Sink for SureSink {
    ghost taken = { λ _. None };

    ghost faults = { λ _. 0 };

    fn put(&mut self, bytes: &[u8]) -> Result<usize, SinkFault>
        ensures { result ≡ Ok (length bytes.now) }
    {
        Ok(bytes.len())
    }
}
