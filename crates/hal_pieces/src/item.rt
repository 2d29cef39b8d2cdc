ghost use Rattle.std.specs.Prelude.{◌≡◌, IfOk, IfErr, IfSome, IfNone};
ghost use Rattle.hal_base.specs.declared.refusal.Place.{Place};
ghost use Rattle.hal_words.specs.declared.word.Word.TheVariants as word;
ghost use Rattle.hal_words.specs.Pieces.{Wrong, literal};
ghost use Rattle.hal_words.specs.Lines.{item};
ghost use Rattle.hal_words.specs.Items.{main_item};
ghost use Rattle.hal_pieces.specs.Seen.{seen, seen_right};
ghost use Rattle.hal_pieces.specs.Faults.{IsBrokenAt, IsFaultItem};

use crate::literals::literal_in;
use crate::piece::Piece;
use hal_base::rules::MALFORMED_INCLUDE;
use hal_base::{Fault, Place, Refusal, Rule};
use hal_words::{BoxedLiteral, Literal, Reserved, Word};
use std::alloc::{AllocError, Global};

/// A piece that breaks no rule. A text literal is on the heap here, so that a piece is small: a file has pieces by the ten
/// thousand, and few of them are texts.
#[derive(Drop)]
pub enum RightPiece<'a> {
    Word(Word),
    /// The text of a definition, between two `"`.
    Replacement(&'a [u8]),
    /// A `"` that opens such a text, without another one on the line.
    Open,
}

/// A piece and the place of its first byte.
#[derive(Drop)]
pub struct Item<'a> {
    pub piece: RightPiece<'a>,
    pub place: Place,
}

/// The piece that stands at this place on a main line or in the text of a definition, where it breaks no rule. A text literal goes on the heap.
///
/// # Errors
///
/// The rule that the piece breaks (language document, Words), with its place; or memory is wanting.
pub fn right_piece<'a>(
    alloc: Global,
    piece: &Piece<'a>,
    place: Place,
) -> Result<RightPiece<'a>, Fault>
    ensures found { IfOk result (λ right. (at : Place) → main_item (seen piece.now) at ≡ item (seen_right right) at) }
    ensures broken { IfErr result (IsFaultItem (main_item (seen piece.now) place)) }
{
    if let Some(refusal) = include_refused(piece, place) {
        return Err(Fault::Broken(refusal));
    }
    kept(alloc, piece, place)
}

/// The refusal of the word INCLUDE, which is neither for main lines nor for the texts of definitions.
#[tactic(auto, using(crate::proofs::Texts::never_include))]
fn include_refused(piece: &Piece, place: Place) -> Option<Refusal>
    ensures found { IfNone result ((at : Place) → main_item (seen piece.now) at ≡ item (seen piece.now) at) }
    ensures broken { IfSome result (λ refusal. main_item (seen piece.now) place ≡ item (Wrong refusal.rule.0) refusal.place) }
{
    match piece {
        Piece::Word(Word::Reserved(Reserved::Include)) => Some(Refusal {
            rule: Rule(MALFORMED_INCLUDE),
            place: Place { column: 1, ..place },
        }),
        _ => None,
    }
}

/// The piece as an item keeps it, though it be INCLUDE; or the rule that it is, broken at this place.
fn kept<'a>(alloc: Global, piece: &Piece<'a>, place: Place) -> Result<RightPiece<'a>, Fault>
    ensures same { IfOk result (λ right. seen_right right ≡ seen piece.now) }
    ensures broken { IfErr result (IsFaultItem (item (seen piece.now) place)) }
{
    match piece {
        Piece::Word(word) => Ok(RightPiece::Word(word.copy(alloc).map_err(Fault::Memory)?)),
        Piece::Text(text) => kept_text(alloc, text, place),
        Piece::Replacement(bytes) => Ok(RightPiece::Replacement(bytes)),
        Piece::Open => Ok(RightPiece::Open),
        Piece::Wrong(rule) => Err(broken(rule.0, place)),
    }
}

/// The text literal behind the quote that begins it, or the rule that it breaks, broken at this place.
fn kept_text<'a>(alloc: Global, text: &[u8], place: Place) -> Result<RightPiece<'a>, Fault>
    ensures same { IfOk result (λ right. seen_right right ≡ (literal text.now).0) }
    ensures broken { IfErr result (IsFaultItem (item (literal text.now).0 place)) }
{
    match literal_in(text) {
        Ok(literal) => Ok(RightPiece::Word(text_word(alloc, literal).map_err(Fault::Memory)?)),
        Err(rule) => Err(broken(rule.0, place)),
    }
}

/// The word that is this literal.
fn text_word(alloc: Global, literal: Literal) -> Result<Word, AllocError>
    ensures { IfOk result (λ made. made ≡ word.Text literal) }
{
    Ok(Word::Text(BoxedLiteral::new(alloc, literal)?))
}

/// The fault of a rule that is broken at a place.
pub fn broken(rule: u16, place: Place) -> Fault
    ensures { IsBrokenAt rule place result }
{
    Fault::Broken(Refusal {
        rule: Rule(rule),
        place,
    })
}
