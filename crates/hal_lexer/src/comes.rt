//! What a word comes to, and the parts that stand in place of a name.

ghost use Rattle.std.specs.Prelude.{◌≡◌, All, List, map, Some};
ghost use Rattle.hal_words.specs.declared.word.Word.{Word};
ghost use Rattle.hal_lexer.specs.Compiled.{as_child};
ghost use Rattle.hal_lexer.specs.Summary.{IsHeld, IsKept, child_of, list_of, told};

/// A part of what stands in place of a name: the word with this number, or the parts of the name that
/// was summed up as the one with this number, which has at least two of them.
#[derive(Clone, Copy)]
pub(crate) enum Given {
    Word(u32),
    Name(u32),
}

/// What a word comes to: that isn't known, or to nothing, or to one part.
#[derive(Clone, Copy)]
pub(crate) enum Comes {
    Unknown,
    Nothing,
    One(Given),
}

/// The parts that stand in place of a name. Where they are fewer than two they need no memory of
/// their own.
#[derive(Drop)]
pub(crate) enum Parts {
    Nothing,
    One(Given),
    Many(Vec<Given>),
}

impl Parts {
    /// The parts as a slice.
    pub(crate) fn as_slice(&self) -> &[Given]
        ensures { result.now ≡ list_of self.now }
    {
        match self {
            Parts::Nothing => &[],
            Parts::One(one) => std::slice::from_ref(one),
            Parts::Many(many) => many.as_slice(),
        }
    }
}

/// What a name with these parts comes to, which is summed up as the one with this number.
pub(crate) fn comes_of(list: &[Given], number: u32) -> Comes
    ensures told { (words : List Word) → told words (Some result) ≡ Some (as_child number (map (child_of words) list.now)) }
    ensures held { (words : List Word) → All (IsHeld words) list.now → IsKept words result }
{
    match list {
        [] => Comes::Nothing,
        [one] => Comes::One(*one),
        [_, _, ..] => Comes::One(Given::Name(number)),
    }
}
