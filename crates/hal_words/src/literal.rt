ghost use Rattle.std.specs.Prelude.{◌≡◌, ◌≤◌, length};

use crate::bounded::Bounded;
use hal_base::CHARACTER_LIMIT;
use std::marker::Model;

/// A text literal of at most 255 bytes, which a contract sees as the list of its bytes.
#[derive(Clone, Copy, PartialEq, Eq)]
pub struct Literal {
    text: Bounded<CHARACTER_LIMIT>,
}

impl Model for Literal {
    ghost use Rattle.std.specs.Prelude.{ℕ, List};

    ghost Value = { List ℕ };

    ghost view = { λ n. n.text };

    ghost inverse = { λ text. record { text = text } };
}

impl Literal {
    /// The literal of these bytes.
    pub fn new(text: &[u8]) -> Literal
        requires { length text.now ≤ 255 }
        ensures { result ≡ text.now }
    {
        Literal {
            text: Bounded::new(text),
        }
    }

    /// The bytes.
    pub fn bytes(&self) -> &[u8]
        ensures { result.now ≡ self.now }
    {
        self.text.bytes()
    }
}
