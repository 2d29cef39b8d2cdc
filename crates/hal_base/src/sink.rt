ghost use Rattle.std.specs.Prelude.{◌≡◌, ℕ, ◌<◌, ◌≤◌, List, length, Option, Ok, IfOk, OnErr};
ghost use Rattle.hal_base.specs.Sink.{Takes, Keeps};
ghost use Rattle.hal_base.specs.Faults.{Rose};

use thiserror::Error;

/// A sink that took nothing of a piece.
#[derive(Debug, Drop, PartialEq, Eq, Error)]
#[error("the sink failed")]
pub struct SinkFault;

/// Where bytes go to.
pub trait Sink {
    /// The bytes taken so far, where the sink tells them.
    ghost taken: { Self → Option (List ℕ) };

    /// How many faults there were, a count of 64 bits that stands still at its last value.
    ghost faults: { Self → ℕ };

    /// Takes the first bytes of a piece, at least one if it has any, and answers how many.
    ///
    /// A fault comes only where the count of faults rose, and nothing is taken then. An empty piece
    /// is never a fault.
    fn put(&mut self, bytes: &[u8]) -> Result<usize, SinkFault>
        ensures empty { length bytes.now ≡ 0 → result ≡ Ok 0 }
        ensures progress { IfOk result (λ count. 0 < length bytes.now → 0 < count) }
        ensures within { IfOk result (λ count. count ≤ length bytes.now) }
        ensures grown { IfOk result (λ count. Takes (taken self.old) (taken self.new) bytes.now count) }
        ensures kept { OnErr result (Keeps (taken self.old) (taken self.new)) }
        ensures later { faults self.old ≤ faults self.new }
        ensures failed { OnErr result (Rose (faults self.old) (faults self.new)) };
}
