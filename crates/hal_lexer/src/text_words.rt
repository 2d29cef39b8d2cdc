//! The word that a piece is.

ghost use Rattle.std.specs.Prelude.{◌≡◌, ◌<◌, ◌∷◌, [], false, length, IfOk, IfErr, IfSome, IfNone};
ghost use Rattle.hal_base.specs.declared.refusal.Place.{Place};
ghost use Rattle.hal_words.specs.Pieces.{Is};
ghost use Rattle.hal_words.specs.Lines.{item};
ghost use Rattle.hal_words.specs.Items.{main_item};
ghost use Rattle.hal_words.specs.Replacing.{as_word, is_replace, text_items};
ghost use Rattle.hal_pieces.specs.Faults.{IsFaultItem};
ghost use Rattle.hal_pieces.specs.Seen.{seen, seen_right};
ghost use Rattle.hal_lexer.specs.Opened.{IsSpoilt};
ghost use Rattle.hal_lexer.specs.Texts.{IsNoMark, IsText};

use crate::fronts::front;
use hal_base::rules::{MALFORMED_REPLACE, STRAY_BYTE};
use hal_base::{Fault, Place};
use hal_pieces::{Piece, RightPiece, broken, right_piece};
use hal_words::{Reserved, Word};
use std::alloc::Global;

/// The word that a piece is. A text between two `"` stands only in a definition.
pub(crate) fn word_of(alloc: Global, piece: &RightPiece, place: Place) -> Result<Word, Fault>
    ensures word { IfOk result (λ word. seen_right piece.now ≡ Is word) }
    ensures broken { IfErr result (λ fault. IsFaultItem (as_word (seen_right piece.now) place) fault) }
{
    match piece {
        RightPiece::Word(word) => word.copy(alloc).map_err(Fault::Memory),
        RightPiece::Replacement(_) | RightPiece::Open => Err(broken(STRAY_BYTE, place)),
    }
}

/// The word that a piece of a text is.
fn word_of_text(alloc: Global, piece: &Piece, place: Place) -> Result<Word, Fault>
    requires { IsNoMark (seen piece.now) }
    ensures word { IfOk result (λ word. (at : Place) → main_item (seen piece.now) at ≡ item (Is word) at) }
    ensures broken { IfErr result (λ fault. IsFaultItem (main_item (seen piece.now) place) fault) }
{
    let right = right_piece(alloc, piece, place)?;
    word_of(alloc, &right, place)
}

/// Whether the word is REPLACE, which has no form within a text.
pub(crate) fn is_replace(word: &Word) -> bool
    ensures { result ≡ is_replace (Is word.now) }
{
    matches!(word, Word::Reserved(Reserved::Replace))
}

/// The word that a text goes on with, and what follows it; None where no word is left. What is wrong in
/// the text is so at this place.
pub(crate) fn next_word(
    alloc: Global,
    text: &[u8],
    place: Place,
) -> Result<Option<(Word, &[u8])>, Fault>
    requires { IsText text.now }
    ensures found { IfOk result (λ next. IfSome next (λ f. (at : Place) → text_items at text.now ≡ item (Is f.0) at ∷ text_items at f.1.now)) }
    ensures word { IfOk result (λ next. IfSome next (λ f. is_replace (Is f.0) ≡ false)) }
    ensures text { IfOk result (λ next. IfSome next (λ f. IsText f.1.now)) }
    ensures shorter { IfOk result (λ next. IfSome next (λ f. length f.1.now < length text.now)) }
    ensures none { IfOk result (λ next. IfNone next ((at : Place) → text_items at text.now ≡ [])) }
    ensures broken { IfErr result (IsSpoilt place text.now) }
{
    let Some((piece, rest)) = front(text) else {
        return Ok(None);
    };
    let word = word_of_text(alloc, &piece, place)?;
    if is_replace(&word) {
        return Err(broken(MALFORMED_REPLACE, place));
    }
    Ok(Some((word, rest)))
}
