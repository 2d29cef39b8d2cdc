ghost use Rattle.std.specs.Prelude.{◌≡◌, ◌≤◌, length};

use crate::bounded::Bounded;
use hal_base::NAME_LIMIT;
use std::marker::Model;

/// A name of the source in capitals, which a contract sees as the list of its bytes.
#[derive(Clone, Copy, PartialEq, Eq, Hash)]
pub struct Name {
    text: Bounded<NAME_LIMIT>,
}

impl Model for Name {
    ghost use Rattle.std.specs.Prelude.{ℕ, List};

    ghost Value = { List ℕ };

    ghost view = { λ n. n.text };

    ghost inverse = { λ text. record { text = text } };
}

impl Name {
    /// The name that is written so.
    pub fn new(text: &[u8]) -> Name
        requires { length text.now ≤ 32 }
        ensures { result ≡ text.now }
    {
        Name {
            text: Bounded::new(text),
        }
    }

    /// The bytes of the name.
    pub fn bytes(&self) -> &[u8]
        ensures bytes { result.now ≡ self.now }
        ensures short { length self.now ≤ 32 }
    {
        self.text.bytes()
    }
}
