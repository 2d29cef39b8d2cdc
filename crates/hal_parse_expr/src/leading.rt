//! What the first words are.

ghost use Rattle.std.specs.Prelude.{◌≡◌};
ghost use Rattle.hal_parse_expr.specs.Reading.{is_reserved, is_symbol, past, past_symbol};
ghost use Rattle.hal_parse_expr.specs.Seen.{seen};

use hal_base::Place;
use hal_words::{Reserved, Symbol, Token, Word};

/// Whether a word is this reserved word.
#[tactic(auto, unfolding(crate::specs::Reading::is_reserved))]
fn is_reserved(word: &Word, wanted: Reserved) -> bool
    ensures { result ≡ is_reserved wanted word.now }
{
    match word {
        Word::Reserved(found) => *found == wanted,
        _ => false,
    }
}

/// Whether a word is this symbol.
#[tactic(auto, unfolding(crate::specs::Reading::is_symbol))]
fn is_symbol(word: &Word, wanted: Symbol) -> bool
    ensures { result ≡ is_symbol wanted word.now }
{
    match word {
        Word::Symbol(found) => *found == wanted,
        _ => false,
    }
}

/// The place of the first word, where it is this reserved word, and the words behind it.
#[tactic(auto, unfolding(crate::specs::Seen::seen, crate::specs::Reading::past, crate::specs::Reading::where_true))]
pub fn past(words: &[Token], wanted: Reserved) -> Option<(Place, &[Token])>
    ensures { seen result ≡ past wanted words.now }
{
    let Some((first, rest)) = words.split_first() else {
        return None;
    };
    if is_reserved(&first.word, wanted) {
        Some((first.place, rest))
    } else {
        None
    }
}

/// The place of the first word, where it is this symbol, and the words behind it.
#[tactic(auto, unfolding(crate::specs::Seen::seen, crate::specs::Reading::past_symbol, crate::specs::Reading::where_true))]
pub fn past_symbol(words: &[Token], wanted: Symbol) -> Option<(Place, &[Token])>
    ensures { seen result ≡ past_symbol wanted words.now }
{
    let Some((first, rest)) = words.split_first() else {
        return None;
    };
    if is_symbol(&first.word, wanted) {
        Some((first.place, rest))
    } else {
        None
    }
}
