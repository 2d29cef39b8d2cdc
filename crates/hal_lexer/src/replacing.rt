//! The definitions of a file, and the words that stand in place of a word of the file.

ghost use Rattle.std.specs.Prelude.{◌≡◌, ◌<◌, ◌∷◌, [], ◌++◌, List, length, map, OnOk, IfOk, IfErr, IsTrue, IsFalse};
ghost use Rattle.hal_words.specs.declared.word.Word.TheVariants as word;
ghost use Rattle.hal_words.specs.Pieces.{Is};
ghost use Rattle.hal_words.specs.Lines as lines;
ghost use Rattle.hal_words.specs.Lines.{item};
ghost use Rattle.hal_words.specs.Replacing as replacing;
ghost use Rattle.hal_words.specs.Replacing.{replaced_word};
ghost use Rattle.hal_words.specs.Words.{word_item};
ghost use Rattle.hal_pieces.specs.Faults.{IsMemory};
ghost use Rattle.hal_lexer.specs.Compiled.{IsOrdered, children_at, gives};
ghost use Rattle.hal_lexer.specs.Faults.{Explains};
ghost use Rattle.hal_lexer.specs.Sound.{IsSound};
ghost use Rattle.hal_lexer.specs.Texts.{IsText};
ghost use Rattle.hal_lexer.specs.Walks.{kept, left_words, length_left};

use crate::child::Child;
use crate::comes::Comes;
use crate::compiled::Compiled;
use crate::compiling::number;
use crate::definitions::Definitions;
use crate::summary::Summary;
use crate::text::Text;
use crate::text_words::is_replace;
use crate::token_list::Tokens;
use crate::walk::Walk;
use crate::writing::write_given;
use hal_base::rules::MALFORMED_REPLACE;
use hal_base::{Fault, Place};
use hal_pieces::broken;
use hal_words::{Name, Word};
use std::alloc::{AllocError, Global};

/// The definitions so far, and what names come to by them.
#[derive(Drop)]
pub(crate) struct Replacements<'a> {
    definitions: Definitions<'a>,
    summary: Summary,
}

impl<'a> Replacements<'a> {
    /// No definition.
    pub(crate) fn new(alloc: Global) -> Replacements<'a>
        ensures definitions { result.definitions ≡ [] }
        ensures sound { IsSound result.definitions result.summary }
    {
        Replacements {
            definitions: Definitions::new(alloc),
            summary: Summary::new(alloc),
        }
    }

    /// Adds a definition. Where it is by the text that the name has, nothing else is changed.
    pub(crate) fn define(&mut self, alloc: Global, name: Name, text: &'a [u8]) -> Result<(), Fault>
        requires text { IsText text.now }
        requires sound { IsSound self.old.definitions self.old.summary }
        ensures added { OnOk result (self.new.definitions ≡ (name, text.now) ∷ self.old.definitions) }
        ensures sound { OnOk result (IsSound self.new.definitions self.new.summary) }
        ensures memory { IfErr result IsMemory }
    {
        summarize(alloc, &mut self.summary, &self.definitions, name, text).map_err(Fault::Memory)?;
        self.definitions
            .push(name, Text::new(text))
            .map_err(Fault::Memory)?;
        Ok(())
    }

    /// Puts a word of the file in its place, with the words that stand there.
    pub(crate) fn put(
        &mut self,
        alloc: Global,
        tokens: &mut Tokens,
        word: Word,
        place: Place,
    ) -> Result<(), Fault>
        requires { IsSound self.old.definitions self.old.summary }
        ensures same { OnOk result (self.new.definitions ≡ self.old.definitions) }
        ensures sound { OnOk result (IsSound self.new.definitions self.new.summary) }
        ensures replaced { OnOk result (map word_item tokens.new
            ≡ map word_item tokens.old ++ replaced_word self.old.definitions (item (Is word) place)) }
        ensures broken { IfErr result (λ fault. (rest : List lines.Item) →
            Explains (map word_item tokens.old ++ (replaced_word self.old.definitions (item (Is word) place) ++ rest)) fault) }
    {
        if let Word::Name(name) = word {
            return self.put_name(alloc, tokens, name, place);
        }
        if is_replace(&word) {
            return Err(broken(MALFORMED_REPLACE, place));
        }
        tokens.push(word, place)
    }

    /// Puts a name of the file in its place.
    fn put_name(
        &mut self,
        alloc: Global,
        tokens: &mut Tokens,
        name: Name,
        place: Place,
    ) -> Result<(), Fault>
        requires { IsSound self.old.definitions self.old.summary }
        ensures same { OnOk result (self.new.definitions ≡ self.old.definitions) }
        ensures sound { OnOk result (IsSound self.new.definitions self.new.summary) }
        ensures replaced { OnOk result (map word_item tokens.new
            ≡ map word_item tokens.old ++ replaced_word self.old.definitions (item (Is (word.Name name)) place)) }
        ensures broken { IfErr result (λ fault. (rest : List lines.Item) →
            Explains (map word_item tokens.old ++ (replaced_word self.old.definitions (item (Is (word.Name name)) place) ++ rest)) fault) }
    {
        if self.definitions.lacks(&name) {
            return tokens.push(Word::Name(name), place);
        }
        if self.put_summed(alloc, tokens, &name, place)? {
            return Ok(());
        }
        put_read(alloc, &self.definitions, tokens, name, place)
    }

    /// Puts a name of the file in its place, if it is known what it comes to; false where it isn't.
    fn put_summed(
        &mut self,
        alloc: Global,
        tokens: &mut Tokens,
        name: &Name,
        place: Place,
    ) -> Result<bool, Fault>
        requires { IsSound self.old.definitions self.old.summary }
        ensures same { OnOk result (self.new.definitions ≡ self.old.definitions) }
        ensures sound { OnOk result (IsSound self.new.definitions self.new.summary) }
        ensures replaced { IfOk result (λ put. IsTrue put → map word_item tokens.new
            ≡ map word_item tokens.old ++ replaced_word self.old.definitions (item (Is (word.Name name.now)) place)) }
        ensures left { IfOk result (λ put. IsFalse put → tokens.new ≡ tokens.old) }
        ensures broken { IfErr result (λ fault. (rest : List lines.Item) →
            Explains (map word_item tokens.old ++ (replaced_word self.old.definitions (item (Is (word.Name name.now)) place) ++ rest)) fault) }
    {
        let Some(number) = self.summary.find(name) else {
            return Ok(false);
        };
        raise(alloc, &mut self.summary, number)?;
        match self.summary.comes(number) {
            Comes::Unknown => Ok(false),
            Comes::Nothing => Ok(true),
            Comes::One(one) => {
                self.summary.write(alloc, tokens, one, place)?;
                Ok(true)
            }
        }
    }
}

/// Sums names up no longer that may rest on a text of this name that is another than this one, and keeps
/// what is to be known of this one.
fn summarize(
    alloc: Global,
    summary: &mut Summary,
    definitions: &Definitions,
    name: Name,
    text: &[u8],
) -> Result<(), AllocError>
    requires text { IsText text.now }
    requires sound { IsSound definitions.now summary.old }
    ensures { OnOk result (IsSound ((name, text.now) ∷ definitions.now) summary.new) }
{
    if definitions.has(&name, text) {
        return Ok(());
    }
    summary.define(alloc, name, text)
}

/// Sums up the name with this number, if that is possible.
fn raise(alloc: Global, summary: &mut Summary, number: u32) -> Result<(), Fault>
    ensures sound { OnOk result ((definitions : replacing.Definitions) → IsSound definitions summary.old → IsSound definitions summary.new) }
    ensures words { summary.new.words.items ≡ summary.old.words.items }
    ensures memory { IfErr result IsMemory }
{
    summary.raise(alloc, number).map_err(Fault::Memory)
}

/// Puts a name in its place, whose text is read anew, to tell which rule it breaks.
fn put_read(
    alloc: Global,
    definitions: &Definitions,
    tokens: &mut Tokens,
    name: Name,
    place: Place,
) -> Result<(), Fault>
    ensures replaced { OnOk result (map word_item tokens.new
        ≡ map word_item tokens.old ++ replaced_word definitions.now (item (Is (word.Name name)) place)) }
    ensures broken { IfErr result (λ fault. (rest : List lines.Item) →
        Explains (map word_item tokens.old ++ (replaced_word definitions.now (item (Is (word.Name name)) place) ++ rest)) fault) }
{
    let mut compiled = Compiled::new(alloc);
    let found = number(alloc, definitions, &mut compiled, name, place)?;
    match found {
        Some(number) => write(alloc, &compiled, tokens, number, place),
        None => tokens.push(Word::Name(name), place),
    }
}

/// Puts the words of the name with this number in their place.
fn write(
    alloc: Global,
    compiled: &Compiled,
    tokens: &mut Tokens,
    number: usize,
    place: Place,
) -> Result<(), Fault>
    requires { IsOrdered compiled.now }
    ensures written { OnOk result (map word_item tokens.new
        ≡ map word_item tokens.old ++ gives compiled.now place (children_at compiled.now number)) }
    ensures broken { IfErr result (λ fault. (rest : List lines.Item) →
        Explains (map word_item tokens.old ++ (gives compiled.now place (children_at compiled.now number) ++ rest)) fault) }
{
    let mut walk = Walk::new(alloc);
    if walk.push(compiled.children(number)).is_err() {
        return Err(Fault::Memory(AllocError));
    }
    'child: while walk.len() > 0 {
        write_child(alloc, compiled, &mut walk, tokens, place)?;
    }
    Ok(())
}

/// Takes one child, and writes it or goes into it.
fn write_child<'a>(
    alloc: Global,
    compiled: &'a Compiled,
    walk: &mut Walk<'a>,
    tokens: &mut Tokens,
    place: Place,
) -> Result<(), Fault>
    requires some { 0 < length walk.old }
    requires ordered { IsOrdered compiled.now }
    ensures moved { OnOk result (map word_item tokens.new ++ left_words compiled.now place walk.new
        ≡ map word_item tokens.old ++ left_words compiled.now place walk.old) }
    ensures smaller { OnOk result (length_left compiled.now walk.new < length_left compiled.now walk.old) }
    ensures broken { IfErr result (λ fault. (rest : List lines.Item) →
        Explains (map word_item tokens.old ++ (left_words compiled.now place walk.old ++ rest)) fault) }
{
    let Some(children) = walk.pop() else {
        return Ok(());
    };
    let Some((first, rest)) = children.split_first() else {
        return Ok(());
    };
    if keep(walk, rest).is_err() {
        return Err(Fault::Memory(AllocError));
    }
    match first {
        Child::Word(word) => write_word(alloc, word, tokens, place),
        Child::Name(number) => enter(walk, compiled.children(*number)),
    }
}

/// Writes a copy of a word.
fn write_word(alloc: Global, word: &Word, tokens: &mut Tokens, place: Place) -> Result<(), Fault>
    ensures written { OnOk result (map word_item tokens.new ≡ map word_item tokens.old ++ item (Is word.now) place ∷ []) }
    ensures broken { IfErr result (λ fault. (rest : List lines.Item) →
        Explains (map word_item tokens.old ++ item (Is word.now) place ∷ rest) fault) }
{
    match word.copy(alloc) {
        Ok(copy) => tokens.push(copy, place),
        Err(error) => Err(Fault::Memory(error)),
    }
}

/// Keeps the children behind the first for later, if there are any: a walk into last children leaves
/// nothing behind.
fn keep<'a>(walk: &mut Walk<'a>, rest: &'a [Child]) -> Result<(), AllocError>
    ensures { OnOk result (walk.new ≡ kept rest.now walk.old) }
{
    if rest.is_empty() {
        return Ok(());
    }
    walk.push(rest)
}

/// Walks over these children next.
fn enter<'a>(walk: &mut Walk<'a>, children: &'a [Child]) -> Result<(), Fault>
    ensures entered { OnOk result (walk.new ≡ children.now ∷ walk.old) }
    ensures memory { IfErr result IsMemory }
{
    if walk.push(children).is_err() {
        return Err(Fault::Memory(AllocError));
    }
    Ok(())
}
