//! Words of letters: reserved words, words that are left out, names, and bit literals by their bases.

ghost use Rattle.std.specs.Prelude.{◌≡◌, ◌<◌, ◌≤◌, ◌+◌, ◌^◌, length, map, take, Some};
ghost use Rattle.hal_words.specs.Letters.{capital};
ghost use Rattle.hal_words.specs.Reserved.{look_up, reserved_words, left_out_words};
ghost use Rattle.hal_words.specs.Pieces.{known, letters, with_base};
ghost use Rattle.hal_pieces.specs.Bases.{base_seen};
ghost use Rattle.hal_pieces.specs.Seen.{seen};

use crate::bit_literals::{Base, base_of, bits};
use crate::names::in_capitals;
use crate::piece::Piece;
use crate::runs::{Class, front};
use hal_base::rules::NAME_TOO_LONG;
use hal_base::{NAME_LIMIT, Rule};
use hal_words::{Name, Word, left_out, reserved_word};

/// The word that a letter begins, and its size.
#[tactic(auto, using(crate::proofs::LongRuns::letters_long, crate::proofs::LongRuns::letters_are))]
pub(crate) fn letters(text: &[u8]) -> (Piece<'_>, usize)
    ensures what { seen result.0 ≡ (letters text.now).0 }
    ensures size { result.1 ≡ (letters text.now).1 }
{
    let (run, after) = front(Class::NameByte, text);
    // Every listed word is shorter.
    if NAME_LIMIT < run.len() {
        return (Piece::Wrong(Rule(NAME_TOO_LONG)), run.len());
    }
    let name = in_capitals(run);
    match base_of(name.bytes()) {
        Some(base) => with_base(base, name.bytes(), after),
        None => (known(name.bytes()), run.len()),
    }
}

/// What the run, which is the base of a bit literal, is before this text: a bit literal, if a quote
/// follows, with blanks or none before it.
fn with_base<'a>(base: Base, run: &[u8], after: &[u8]) -> (Piece<'a>, usize)
    requires short { length run.now ≤ 32 }
    requires room { length run.now + length after.now < 2 ^ 63 }
    ensures what { seen result.0 ≡ (with_base (Some (base_seen base)) run.now after.now).0 }
    ensures size { result.1 ≡ (with_base (Some (base_seen base)) run.now after.now).1 }
{
    let (blanks, rest) = front(Class::Blank, after);
    match rest {
        [b'\'', text @ ..] => bits(base, run.len() + blanks.len(), text),
        _ => (known(run), run.len()),
    }
}

/// What a run of letters in capitals is.
fn known<'a>(run: &[u8]) -> Piece<'a>
    requires { length run.now ≤ 32 }
    ensures { seen result ≡ known (look_up reserved_words run.now) (look_up left_out_words run.now) run.now }
{
    if let Some(word) = reserved_word(run) {
        return Piece::Word(Word::Reserved(word));
    }
    match left_out(run) {
        Some(rule) => Piece::Wrong(Rule(rule)),
        None => Piece::Word(Word::Name(Name::new(run))),
    }
}
