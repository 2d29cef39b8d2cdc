ghost use Rattle.std.specs.Prelude.{◌≡◌, ◌≤◌, ℕ, length};

use std::marker::Model;

/// A text of at most so many bytes, which lie in the value itself. A contract sees the list of its bytes.
#[derive(Clone, Copy, PartialEq, Eq, Hash)]
pub(crate) struct Bounded<const ROOM: usize> {
    bytes: [u8; ROOM],
    len: u8,
}

impl<const ROOM: usize> Model for Bounded<ROOM> {
    ghost use Rattle.std.specs.Prelude.{◌≡◌, ℕ, List, length, take};
    ghost use Rattle.hal_words.specs.Rooms.{filled, IsKept, restored};
    ghost use Rattle.hal_words.specs.declared.bounded.Bounded.TheInside.{Inside};

    ghost Value = { List ℕ };

    ghost view = { λ n. take n.len n.bytes };

    ghost invariant = { λ n. IsKept ROOM n.len n.bytes };

    ghost inverse = { λ text. record { bytes = filled ROOM text; len = length text } };

    ghost inverse_ok = { λ n kept. restored ROOM (λ b m. let made : Inside = record { bytes = b; len = m } in made) n.len n.bytes kept };
}

impl<const ROOM: usize> Bounded<ROOM> {
    /// The text of these bytes.
    pub(crate) fn new(text: &[u8]) -> Bounded<ROOM>
        requires fits { length text.now ≤ ROOM }
        requires short { length text.now ≤ 255 }
        ensures { result ≡ text.now }
    {
        let mut bytes = [0; ROOM];
        bytes[..text.len()].copy_from_slice(text);
        Bounded {
            bytes,
            len: text.len() as u8,
        }
    }

    /// The bytes.
    pub(crate) fn bytes(&self) -> &[u8]
        ensures bytes { result.now ≡ self.now }
        ensures short { length self.now ≤ ROOM }
    {
        &self.bytes[..self.len as usize]
    }
}
