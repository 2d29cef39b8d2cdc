//! What the text of a definition goes on with.

ghost use Rattle.std.specs.Prelude.{◌≡◌, ◌<◌, ◌∷◌, [], length, drop, IfSome, IfNone};
ghost use Rattle.hal_base.specs.declared.refusal.Place.{Place};
ghost use Rattle.hal_words.specs.Items.{begins_comment, main_item};
ghost use Rattle.hal_words.specs.Replacing.{text_items};
ghost use Rattle.hal_pieces.specs.Seen.{seen};
ghost use Rattle.hal_lexer.specs.Texts.{IsText, IsNoMark};

use hal_base::Rule;
use hal_base::rules::UNENDED_LITERAL_OR_COMMENT;
use hal_pieces::{Piece, comment_end, first_piece, is_blank};

/// The piece that the text goes on with, behind blanks and comments, and what follows it. None where no
/// piece is left.
pub(crate) fn front(text: &[u8]) -> Option<(Piece<'_>, &[u8])>
    requires { IsText text.now }
    ensures found { IfSome result (λ f. (place : Place) → text_items place text.now
        ≡ main_item (seen f.0) place ∷ text_items place f.1.now) }
    ensures word { IfSome result (λ f. IsNoMark (seen f.0)) }
    ensures text { IfSome result (λ f. IsText f.1.now) }
    ensures shorter { IfSome result (λ f. length f.1.now < length text.now) }
    ensures none { IfNone result ((place : Place) → text_items place text.now ≡ []) }
{
    let mut rest = text;
    'blank: while let [first, behind @ ..] = rest {
        if is_blank(*first) {
            rest = behind;
        } else if begins_comment(rest) {
            let inside = without(rest, 2);
            let Some(size) = comment_end(inside) else {
                return Some((Piece::Wrong(Rule(UNENDED_LITERAL_OR_COMMENT)), &[]));
            };
            rest = without(inside, size);
        } else {
            let (piece, size) = first_piece(rest);
            return Some((piece, without(behind, size.saturating_sub(1))));
        }
    }
    None
}

/// Whether the text begins with `/*`.
fn begins_comment(text: &[u8]) -> bool
    ensures { result ≡ begins_comment text.now }
{
    matches!(text, [b'/', b'*', ..])
}

/// The bytes without so many at their front.
fn without(bytes: &[u8], count: usize) -> &[u8]
    ensures { result.now ≡ drop count bytes.now }
{
    if count < bytes.len() {
        bytes.split_at(count).1
    } else {
        &[]
    }
}
