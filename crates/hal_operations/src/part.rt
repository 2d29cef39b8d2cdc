/// The component of a bit string or a text that a subscript chooses. Places count from 1, the leftmost.
#[derive(Clone, Copy, PartialEq, Eq)]
pub enum Part {
    /// One place.
    One(i32),
    /// From the first place to the last one.
    To { first: i32, last: i32 },
    /// So many places from the first one on.
    At { count: i32, first: i32 },
}

/// The places of a part that lies in a value: so many before it, and so many through its end.
#[derive(Clone, Copy)]
pub(crate) struct Span {
    pub(crate) from: u8,
    pub(crate) to: u8,
}

impl Part {
    ghost use Rattle.std.specs.Prelude.{◌≡◌};
    ghost use Rattle.hal_operations.specs.Parts.{first_place, last_place};

    /// Its first place.
    fn first(self) -> i64
        ensures { result ≡ first_place self }
    {
        match self {
            Part::One(place) => i64::from(place),
            Part::To { first, .. } => i64::from(first),
            Part::At { first, .. } => i64::from(first),
        }
    }

    /// Its last place.
    fn last(self) -> i64
        ensures { result ≡ last_place self }
    {
        match self {
            Part::One(place) => i64::from(place),
            Part::To { last, .. } => i64::from(last),
            Part::At { count, first } => i64::from(first) + i64::from(count) - 1,
        }
    }
}

ghost use Rattle.std.specs.Prelude.{◌≡◌, ◌≤◌, ◌<◌, IfSome, IfNone, true, false};
ghost use Rattle.hal_operations.specs.Parts.{first_place, last_place, is_place, is_string_part, is_text_part, mended_first, mended_last, before, through};

/// Whether the place lies in a value of so many places.
fn is_place(size: u8, place: i64) -> bool
    ensures { result ≡ is_place size place }
{
    1 <= place && place <= i64::from(size)
}

/// The places of a part that lies in a bit string of so many bits.
pub(crate) fn string_span(size: u8, part: Part) -> Option<Span>
    ensures inside { IfSome result (λ span. is_string_part size part ≡ true) }
    ensures from { IfSome result (λ span. span.from ≡ before (first_place part)) }
    ensures to { IfSome result (λ span. span.to ≡ through (last_place part)) }
    ensures some { IfSome result (λ span. span.from < span.to) }
    ensures bound { IfSome result (λ span. span.to ≤ size) }
    ensures outside { IfNone result (is_string_part size part ≡ false) }
{
    let (first, last) = (part.first(), part.last());
    if is_place(size, first) && is_place(size, last) && first <= last {
        Some(Span {
            from: (first - 1) as u8,
            to: last as u8,
        })
    } else {
        None
    }
}

/// The places of a part that lies in a text of so many bytes; it may be empty.
pub(crate) fn text_span(size: u8, part: Part) -> Option<Span>
    ensures inside { IfSome result (λ span. is_text_part size part ≡ true) }
    ensures from { IfSome result (λ span. span.from ≡ before (first_place part)) }
    ensures to { IfSome result (λ span. span.to ≡ through (last_place part)) }
    ensures order { IfSome result (λ span. span.from ≤ span.to) }
    ensures bound { IfSome result (λ span. span.to ≤ size) }
    ensures outside { IfNone result (is_text_part size part ≡ false) }
{
    let (first, last) = (part.first(), part.last());
    if is_place(size, first) && is_place(size, last) && first - 1 <= last {
        Some(Span {
            from: (first - 1) as u8,
            to: last as u8,
        })
    } else {
        None
    }
}

/// The nearest places in a value that has some.
pub(crate) fn nearest_span(size: u8, part: Part) -> Span
    requires { 1 ≤ size }
    ensures from { result.from ≡ before (mended_first size part) }
    ensures to { result.to ≡ through (mended_last size part) }
    ensures some { result.from < result.to }
    ensures bound { result.to ≤ size }
{
    let first = part.first().clamp(1, i64::from(size));
    let last = part.last().clamp(first, i64::from(size));
    Span {
        from: (first - 1) as u8,
        to: last as u8,
    }
}
