ghost use Rattle.std.specs.Prelude.{◌≡◌, ◌<◌, ◌≤◌, length, None, Ok, IfOk, OnErr};
ghost use Rattle.hal_base.specs.Sink.{Takes, Keeps};
ghost use Rattle.hal_base.specs.Faults.{Rose, faults_after};

use crate::sink::{Sink, SinkFault};
use std::marker::Model;

/// The standard output. It tells no bytes, and its count of faults rises at each error, among
/// them a write that takes nothing.
#[derive(Drop)]
pub struct OutSink<'a, R: Print> {
    out: &'a R,
    faults: u64,
}

impl<'a, R: Print> Model for OutSink<'a, R> {
    ghost use Rattle.std.specs.Prelude.{ℕ};

    ghost Value = { ℕ };

    ghost view = { λ s. s.faults };
}

impl<'a, R: Print> OutSink<'a, R> {
    /// A sink with no fault so far.
    pub fn new(out: &'a R) -> OutSink<'a, R>
        ensures { result ≡ 0 }
    {
        OutSink { out, faults: 0 }
    }
}

impl<'a, R: Print> Sink for OutSink<'a, R> {
    ghost taken = { λ _. None };

    ghost faults = { λ s. s };

    fn put(&mut self, bytes: &[u8]) -> Result<usize, SinkFault>
        ensures empty { length bytes.now ≡ 0 → result ≡ Ok 0 }
        ensures progress { IfOk result (λ count. 0 < length bytes.now → 0 < count) }
        ensures within { IfOk result (λ count. count ≤ length bytes.now) }
        ensures grown { IfOk result (λ count. Takes None None bytes.now count) }
        ensures kept { OnErr result (Keeps None None) }
        ensures later { self.old ≤ self.new }
        ensures failed { OnErr result (Rose self.old self.new) }
        ensures counted { self.new ≡ faults_after self.old result }
    {
        if bytes.is_empty() {
            return Ok(0);
        }
        match self.out.write_some(bytes) {
            Ok(count) if count > 0 => Ok(count),
            _ => {
                self.faults = self.faults.saturating_add(1);
                Err(SinkFault)
            }
        }
    }
}
