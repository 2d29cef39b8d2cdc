//! Runs of letters, digits and underscores as names.

ghost use Rattle.std.specs.Prelude.{◌≡◌, ◌≤◌, ◌<◌, length, map, drop, bytes_eq};
ghost use Rattle.hal_words.specs.Letters.{capital, is_letter};
ghost use Rattle.hal_words.specs.Numbers.{begins};
ghost use Rattle.hal_words.specs.Pieces.{run_of, after_blanks};
ghost use Rattle.hal_words.specs.Lines.{can_be_name, gap, is_unknown};
ghost use Rattle.hal_words.specs.Reserved.{reserved_words, left_out_words, look_up};
ghost use Rattle.hal_pieces.specs.Names.{short};

use crate::bytes::capital;
use crate::runs::{Class, front};
use hal_base::NAME_LIMIT;
use hal_words::{Name, left_out, reserved_word};

/// With how many blanks a text begins.
pub fn blanks(text: &[u8]) -> usize
    ensures size { result ≡ gap text.now }
    ensures within { result ≤ length text.now }
{
    front(Class::Blank, text).0.len()
}

/// What follows the blanks that a text begins with.
pub fn behind_blanks(text: &[u8]) -> &[u8]
    ensures { result.now ≡ after_blanks text.now }
{
    front(Class::Blank, text).1
}

/// The letters, digits and underscores that a text begins with.
pub fn run_bytes(text: &[u8]) -> &[u8]
    ensures { map capital result.now ≡ run_of text.now }
{
    front(Class::NameByte, text).0
}

/// What follows them.
pub fn behind_run(text: &[u8]) -> &[u8]
    ensures { result.now ≡ drop (length (run_of text.now)) text.now }
{
    front(Class::NameByte, text).1
}

/// The name of a run, in capitals. None where it has more than 32 bytes.
pub fn short_name(run: &[u8]) -> Option<Name>
    ensures { result ≡ short (map capital run.now) }
{
    if run.len() > NAME_LIMIT {
        return None;
    }
    Some(in_capitals(run))
}

/// A run in capitals.
pub(crate) fn in_capitals(run: &[u8]) -> Name
    requires { length run.now ≤ 32 }
    ensures { result ≡ map capital run.now }
{
    let mut capitals = [0; NAME_LIMIT];
    for i in 0..run.len() {
        capitals[i] = capital(run[i]);
    }
    Name::new(&capitals[..run.len()])
}

/// Whether a run is this word.
pub fn is_word(run: &[u8], word: &str) -> bool
    requires short { length word.now ≤ 32 }
    ensures { result ≡ bytes_eq (map capital run.now) word.now }
{
    match short_name(run) {
        Some(name) => is_text(&name, word),
        None => false,
    }
}

/// Whether a name is this word.
fn is_text(name: &Name, word: &str) -> bool
    ensures { result ≡ bytes_eq name.now word.now }
{
    name.bytes() == word.as_bytes()
}

/// Whether a run can be a name: it begins with a letter, and is in none of the two lists.
pub fn is_namelike(run: &[u8]) -> bool
    ensures { result ≡ can_be_name (map capital run.now) }
{
    if !begins_letter(run) {
        return false;
    }
    match short_name(run) {
        Some(name) => is_in_no_list(&name),
        None => true,
    }
}

/// Whether a run begins with a letter.
fn begins_letter(run: &[u8]) -> bool
    ensures { result ≡ begins is_letter (map capital run.now) }
{
    match run {
        [first, ..] => capital(*first).is_ascii_uppercase(),
        [] => false,
    }
}

/// Whether a name is no reserved word, and none that is left out.
fn is_in_no_list(name: &Name) -> bool
    ensures { result ≡ is_unknown (look_up reserved_words name.now) (look_up left_out_words name.now) }
{
    reserved_word(name.bytes()).is_none() && left_out(name.bytes()).is_none()
}
