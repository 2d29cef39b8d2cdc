//! The words that stand in place of a name that is summed up.

ghost use Rattle.std.specs.Prelude.{◌≡◌, ◌<◌, ◌∷◌, [], ◌++◌, List, length, map, slice_get, IfOk, OnOk, IfErr};
ghost use Rattle.hal_words.specs.declared.word.Word.{Word};
ghost use Rattle.hal_words.specs.Pieces.{Is};
ghost use Rattle.hal_words.specs.Lines as lines;
ghost use Rattle.hal_words.specs.Lines.{item};
ghost use Rattle.hal_words.specs.Words.{word_item};
ghost use Rattle.hal_pieces.specs.Faults.{IsMemory};
ghost use Rattle.hal_lexer.specs.Compiled.{IsOrdered, children_at, gives};
ghost use Rattle.hal_lexer.specs.Faults.{Explains};
ghost use Rattle.hal_lexer.specs.Summary.{child_of, children_of, table_of, word_or};
ghost use Rattle.hal_lexer.specs.Walks.{kept, left_words, length_left};

use crate::comes::Given;
use crate::given_walk::GivenWalk;
use crate::order::Entry;
use crate::token_list::Tokens;
use hal_base::{Fault, Place};
use hal_words::{Symbol, Word};
use std::alloc::{AllocError, Global};

/// Puts a part in its place: a word, or the words of a name.
pub(crate) fn write_given(
    alloc: Global,
    words: &[Word],
    entries: &[Entry],
    tokens: &mut Tokens,
    one: Given,
    place: Place,
) -> Result<(), Fault>
    requires { IsOrdered (table_of words.now entries.now) }
    ensures written { OnOk result (map word_item tokens.new
        ≡ map word_item tokens.old ++ gives (table_of words.now entries.now) place (child_of words.now one ∷ [])) }
    ensures broken { IfErr result (λ fault. (rest : List lines.Item) →
        Explains (map word_item tokens.old ++ (gives (table_of words.now entries.now) place (child_of words.now one ∷ []) ++ rest)) fault) }
{
    match one {
        Given::Word(number) => write_word(alloc, words, number, tokens, place),
        Given::Name(number) => write_name(alloc, words, entries, tokens, number, place),
    }
}

/// Puts the words of the name that was summed up as the one with this number in their place.
fn write_name(
    alloc: Global,
    words: &[Word],
    entries: &[Entry],
    tokens: &mut Tokens,
    number: u32,
    place: Place,
) -> Result<(), Fault>
    requires { IsOrdered (table_of words.now entries.now) }
    ensures written { OnOk result (map word_item tokens.new
        ≡ map word_item tokens.old ++ gives (table_of words.now entries.now) place (children_at (table_of words.now entries.now) number)) }
    ensures broken { IfErr result (λ fault. (rest : List lines.Item) →
        Explains (map word_item tokens.old ++ (gives (table_of words.now entries.now) place (children_at (table_of words.now entries.now) number) ++ rest)) fault) }
{
    let mut walk = GivenWalk::new(alloc);
    if walk.push(parts_at(entries, number)).is_err() {
        return Err(Fault::Memory(AllocError));
    }
    'part: while walk.len() > 0 {
        write_part(alloc, words, entries, &mut walk, tokens, place)?;
    }
    Ok(())
}

/// Takes one part, and writes it or goes into it.
fn write_part<'a>(
    alloc: Global,
    words: &[Word],
    entries: &'a [Entry],
    walk: &mut GivenWalk<'a>,
    tokens: &mut Tokens,
    place: Place,
) -> Result<(), Fault>
    requires some { 0 < length walk.old }
    requires ordered { IsOrdered (table_of words.now entries.now) }
    ensures moved { OnOk result (map word_item tokens.new ++ left_words (table_of words.now entries.now) place (children_of words.now walk.new)
        ≡ map word_item tokens.old ++ left_words (table_of words.now entries.now) place (children_of words.now walk.old)) }
    ensures smaller { OnOk result (length_left (table_of words.now entries.now) (children_of words.now walk.new) < length_left (table_of words.now entries.now) (children_of words.now walk.old)) }
    ensures broken { IfErr result (λ fault. (rest : List lines.Item) →
        Explains (map word_item tokens.old ++ (left_words (table_of words.now entries.now) place (children_of words.now walk.old) ++ rest)) fault) }
{
    let Some(parts) = walk.pop() else {
        return Ok(());
    };
    let Some((first, rest)) = parts.split_first() else {
        return Ok(());
    };
    if keep(walk, rest).is_err() {
        return Err(Fault::Memory(AllocError));
    }
    match first {
        Given::Word(number) => write_word(alloc, words, *number, tokens, place),
        Given::Name(number) => enter(walk, parts_at(entries, *number)),
    }
}

/// The parts of the name that was summed up as the one with this number.
fn parts_at(entries: &[Entry], number: u32) -> &[Given]
    ensures { (words : List Word) → map (child_of words) result.now ≡ children_at (table_of words entries.now) number }
{
    match entries.get(number as usize) {
        Some(entry) => entry.parts.as_slice(),
        None => &[],
    }
}

/// Writes the word with this number.
fn write_word(
    alloc: Global,
    words: &[Word],
    number: u32,
    tokens: &mut Tokens,
    place: Place,
) -> Result<(), Fault>
    ensures written { OnOk result (map word_item tokens.new ≡ map word_item tokens.old ++ item (Is (word_or (slice_get words.now number))) place ∷ []) }
    ensures broken { IfErr result (λ fault. (rest : List lines.Item) →
        Explains (map word_item tokens.old ++ item (Is (word_or (slice_get words.now number))) place ∷ rest) fault) }
{
    match copy_at(alloc, words, number) {
        Ok(copy) => tokens.push(copy, place),
        Err(error) => Err(Fault::Memory(error)),
    }
}

/// A copy of the word with this number. There is one; a semicolon stands for none.
fn copy_at(alloc: Global, words: &[Word], number: u32) -> Result<Word, AllocError>
    ensures { IfOk result (λ copy. copy ≡ word_or (slice_get words.now number)) }
{
    match words.get(number as usize) {
        Some(word) => word.copy(alloc),
        None => Ok(Word::Symbol(Symbol::Semicolon)),
    }
}

/// Keeps the parts behind the first for later, if there are any: a walk into last parts leaves nothing
/// behind.
fn keep<'a>(walk: &mut GivenWalk<'a>, rest: &'a [Given]) -> Result<(), AllocError>
    ensures { OnOk result (walk.new ≡ kept rest.now walk.old) }
{
    if rest.is_empty() {
        return Ok(());
    }
    walk.push(rest)
}

/// Walks over these parts next.
fn enter<'a>(walk: &mut GivenWalk<'a>, parts: &'a [Given]) -> Result<(), Fault>
    ensures entered { OnOk result (walk.new ≡ parts.now ∷ walk.old) }
    ensures memory { IfErr result IsMemory }
{
    if walk.push(parts).is_err() {
        return Err(Fault::Memory(AllocError));
    }
    Ok(())
}
