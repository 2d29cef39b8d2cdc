use crate::literal::Literal;
use std::alloc::{AllocError, Global};
use std::marker::Model;

/// A text literal on the heap, which a contract sees as the list of its bytes. So a word is small: a file has words by the
/// ten thousand, and few of them are texts.
#[derive(Drop)]
pub struct BoxedLiteral {
    inner: Box<Literal>,
}

impl Model for BoxedLiteral {
    ghost use Rattle.std.specs.Prelude.{ℕ, List};

    ghost Value = { List ℕ };

    ghost view = { λ b. b.inner.value };
}

impl BoxedLiteral {
    ghost use Rattle.std.specs.Prelude.{◌≡◌, IfOk};

    /// The literal on the heap, or want of memory.
    pub fn new(alloc: Global, literal: Literal) -> Result<BoxedLiteral, AllocError>
        ensures { IfOk result (λ boxed. boxed ≡ literal) }
    {
        match Box::new(alloc, literal) {
            Ok(inner) => Ok(BoxedLiteral { inner }),
            Err(_) => Err(AllocError),
        }
    }

    /// The literal.
    pub fn literal(&self) -> Literal
        ensures { result ≡ self.now }
    {
        *self.inner
    }
}
