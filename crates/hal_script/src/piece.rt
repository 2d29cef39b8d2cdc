ghost use Rattle.std.specs.Prelude.{◌≡◌, ◌<◌, ◌≤◌, ◌∷◌, ◌++◌, [], List, ℕ, length, IfOk, IfSome, IfNone};
ghost use Rattle.std.specs.List.{position, position_or_len};
ghost use Rattle.hal_script.specs.DataTexts.{is_gap as is_gap_byte, given, plain as plain_text, quoted as quoted_text};
ghost use Rattle.hal_script.specs.DataPieces.{with_piece, is_end as is_end_text, closed};

use exec_model::Datum;
use hal_values::Listing;
use std::alloc::{AllocError, Global};

/// What the text of an INPUT line begins with.
#[derive(Drop)]
pub enum Piece {
    /// A blank or a comma.
    Gap,
    /// A datum, without its quotes.
    Datum(Datum),
    /// A datum in quotes with another byte than a blank or a comma directly behind.
    Malformed,
    /// A quote that isn't closed.
    Open,
}

/// The first piece of this byte and the text after it, and what stands behind the piece.
pub fn first_piece(alloc: Global, first: u8, after: &[u8]) -> Result<(Piece, &[u8]), AllocError>
    ensures piece { IfOk result (λ cut. given (first ∷ after.now) ≡ with_piece cut.0 (given cut.1.now)) }
    ensures shorter { IfOk result (λ cut. length cut.1.now ≤ length after.now) }
{
    if is_gap(first) {
        return Ok((Piece::Gap, after));
    }
    if first == b'\'' {
        return quoted(alloc, after);
    }
    plain(alloc, first, after)
}

/// Whether a byte parts data: a blank or a comma.
fn is_gap(byte: u8) -> bool
    ensures { result ≡ is_gap_byte byte }
{
    byte == b' ' || byte == b'\t' || byte == b','
}

/// The datum of this first byte, which has no quotes.
#[tactic(auto, using(crate::proofs::DataPieces::plain_cut))]
fn plain(alloc: Global, first: u8, after: &[u8]) -> Result<(Piece, &[u8]), AllocError>
    ensures piece { IfOk result (λ cut. plain_text (first ∷ []) after.now ≡ with_piece cut.0 (given cut.1.now)) }
    ensures shorter { IfOk result (λ cut. length cut.1.now ≤ length after.now) }
{
    let (others, behind) = after.split_at(end_of_plain(after));
    let mut datum = Vec::new(alloc);
    datum.push(first)?;
    datum.extend_from_slice(others)?;
    Ok((Piece::Datum(Listing::new(datum)), behind))
}

/// How many bytes stand before the first blank or comma.
fn end_of_plain(text: &[u8]) -> usize
    ensures value { result ≡ position_or_len is_gap_byte text.now }
    ensures within { result ≤ length text.now }
{
    match gap_at(text) {
        Some(end) => end,
        None => text.len(),
    }
}

/// Where the first blank or comma stands.
fn gap_at(text: &[u8]) -> Option<usize>
    ensures { result ≡ position is_gap_byte text.now }
{
    text.iter().position(|byte| is_gap(*byte))
}

/// The datum in quotes whose opening quote stood before this text.
fn quoted(alloc: Global, text: &[u8]) -> Result<(Piece, &[u8]), AllocError>
    ensures piece { IfOk result (λ cut. quoted_text [] text.now ≡ with_piece cut.0 (given cut.1.now)) }
    ensures shorter { IfOk result (λ cut. length cut.1.now ≤ length text.now) }
{
    let mut datum = Vec::new(alloc);
    let mut rest = text;
    'byte: while let Some((byte, after)) = quoted_byte(rest) {
        datum.push(byte)?;
        rest = after;
    }
    Ok(close(Listing::new(datum), rest))
}

/// The next byte of a datum in quotes, and what follows it; a doubled quote is one. None at the closing
/// quote and at the line's end.
fn quoted_byte(text: &[u8]) -> Option<(u8, &[u8])>
    ensures next { IfSome result (λ next. (datum : List ℕ) → quoted_text datum text.now ≡ quoted_text (datum ++ next.0 ∷ []) next.1.now) }
    ensures shorter { IfSome result (λ next. length next.1.now < length text.now) }
    ensures end { IfNone result ((datum : List ℕ) → quoted_text datum text.now ≡ closed datum text.now) }
{
    match text {
        [b'\'', b'\'', after @ ..] => Some((b'\'', after)),
        [b'\'', ..] | [] => None,
        [byte, after @ ..] => Some((*byte, after)),
    }
}

/// The datum in quotes whose closing quote this text begins with, and what stands behind that.
fn close(datum: Datum, text: &[u8]) -> (Piece, &[u8])
    ensures piece { closed datum text.now ≡ with_piece result.0 (given result.1.now) }
    ensures shorter { length result.1.now ≤ length text.now }
{
    let Some((_, behind)) = text.split_first() else {
        return (Piece::Open, text);
    };
    if is_end(behind) {
        (Piece::Datum(datum), behind)
    } else {
        (Piece::Malformed, behind)
    }
}

/// Whether a datum may end before this text.
fn is_end(text: &[u8]) -> bool
    ensures { result ≡ is_end_text text.now }
{
    match text.first() {
        None => true,
        Some(byte) => is_gap(*byte),
    }
}
