ghost use Rattle.std.specs.Prelude.{◌≡◌, [], false, map, Contains, IfSome, IfNone};
ghost use Rattle.hal_words.specs.Pieces.{Is};
ghost use Rattle.hal_words.specs.Words.{is_do, is_for, is_temporary, misplaced, word_item};

use hal_base::Place;
use hal_words::{Reserved, Token, Word};

/// The place of the first TEMPORARY that doesn't stand directly behind DO FOR.
pub(crate) fn misplaced(tokens: &[Token]) -> Option<Place>
    ensures none { IfNone result (misplaced false false (map word_item tokens.now) ≡ []) }
    ensures some { IfSome result (λ place. Contains (misplaced false false (map word_item tokens.now)) place) }
{
    let mut after_do_for = false;
    let mut after_do = false;
    for token in tokens {
        if is_temporary(token) && !after_do_for {
            return Some(token.place);
        }
        after_do_for = after_do && is_for(token);
        after_do = is_do(token);
    }
    None
}

fn is_temporary(token: &Token) -> bool
    ensures { result ≡ is_temporary (Is token.now.word) }
{
    matches!(token.word, Word::Reserved(Reserved::Temporary))
}

fn is_for(token: &Token) -> bool
    ensures { result ≡ is_for (Is token.now.word) }
{
    matches!(token.word, Word::Reserved(Reserved::For))
}

fn is_do(token: &Token) -> bool
    ensures { result ≡ is_do (Is token.now.word) }
{
    matches!(token.word, Word::Reserved(Reserved::Do))
}
