use arrayvec::ArrayVec;
use hal_base::CHARACTER_LIMIT;
use std::marker::Model;

/// A text of at most 255 bytes. A contract sees the list of its bytes.
#[derive(Drop)]
pub struct Text {
    bytes: ArrayVec<u8, CHARACTER_LIMIT>,
}

impl Model for Text {
    ghost use Rattle.std.specs.Prelude.{ℕ, List};

    ghost Value = { List ℕ };

    ghost view = { λ text. text.bytes.items };
}

impl Text {
    ghost use Rattle.std.specs.Prelude.{◌≡◌, ◌<◌, ◌≤◌, ◌+◌, [], ◌∷◌, ◌++◌, length};
    ghost use Rattle.std.specs.Option.{SomeIff};

    /// The empty text.
    pub fn new() -> Text
        ensures { result ≡ [] }
    {
        Text {
            bytes: ArrayVec::new(),
        }
    }

    /// The text of these bytes, where they aren't too many.
    pub fn of(bytes: &[u8]) -> Option<Text>
        ensures { SomeIff result (length bytes.now ≤ 255) bytes.now }
    {
        let mut text = ArrayVec::new();
        match text.try_extend_from_slice(bytes) {
            Ok(()) => Some(Text { bytes: text }),
            Err(_) => None,
        }
    }

    /// The bytes.
    pub fn bytes(&self) -> &[u8]
        ensures bytes { result.now ≡ self.now }
        ensures fits { length result.now ≤ 255 }
    {
        self.bytes.as_slice()
    }

    /// Adds a byte at the end.
    pub fn push(&mut self, byte: u8)
        requires { length self.old < 255 }
        ensures { self.new ≡ self.old ++ byte ∷ [] }
    {
        self.bytes.push(byte);
    }

    /// Adds these bytes at the end.
    pub fn extend(&mut self, bytes: &[u8])
        requires { length self.old + length bytes.now ≤ 255 }
        ensures { self.new ≡ self.old ++ bytes.now }
    {
        let _all_fit = self.bytes.try_extend_from_slice(bytes).is_ok();
    }

    /// The same text once more.
    pub fn copy(&self) -> Text
        ensures { result ≡ self.now }
    {
        let mut bytes = ArrayVec::new();
        let _all_fit = bytes.try_extend_from_slice(self.bytes.as_slice()).is_ok();
        Text { bytes }
    }
}

impl PartialEq for Text {
    ghost use Rattle.std.specs.Prelude.{nat_eq};
    ghost use Rattle.std.specs.Cmp.{partial_equiv_from_equiv};
    ghost use Rattle.std.specs.Cmp.Lexicographic.{pointwise, nat_list_eq_equiv};

    ghost eq = { pointwise nat_eq };

    ghost laws = { partial_equiv_from_equiv nat_list_eq_equiv };

    fn eq(&self, other: &Self) -> bool {
        self.bytes.as_slice() == other.bytes.as_slice()
    }
}

impl Eq for Text {
    ghost use Rattle.std.specs.Cmp.Lexicographic.{nat_list_eq_equiv};

    ghost laws = { nat_list_eq_equiv };
}
