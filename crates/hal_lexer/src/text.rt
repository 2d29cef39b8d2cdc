//! The text of a definition, and its words.

ghost use Rattle.std.specs.Prelude.{◌≡◌, ◌<◌, ◌∷◌, [], ◌++◌, ℕ, List, length, OnOk, IfOk, IfSome, IfNone};
ghost use Rattle.hal_base.specs.declared.refusal.Place.{Place};
ghost use Rattle.hal_words.specs.Replacing.{text_items};
ghost use Rattle.hal_lexer.specs.Parts.{AreParts, GoOn};
ghost use Rattle.hal_lexer.specs.Texts.{IsText};

use crate::text_words::next_word;
use hal_base::{Fault, Place};
use hal_words::Word;
use std::alloc::{AllocError, Global};
use std::marker::Model;

/// Where a text is cut doesn't matter, since a fault in it is told where it is used.
const SOMEWHERE: Place = Place {
    unit: 0,
    line: 0,
    column: 0,
};

/// The text of a definition, which a contract sees as its bytes.
#[derive(Drop)]
pub(crate) struct Text<'a> {
    bytes: &'a [u8],
}

impl<'a> Model for Text<'a> {
    ghost use Rattle.std.specs.Prelude.{List, ℕ};
    ghost use Rattle.hal_lexer.specs.Texts.{IsText};

    ghost Value = { List ℕ };

    ghost view = { λ t. t.bytes.now };

    ghost invariant = { λ t. IsText t.bytes.now };
}

impl<'a> Text<'a> {
    /// This text.
    pub(crate) fn new(bytes: &'a [u8]) -> Text<'a>
        requires { IsText bytes.now }
        ensures { result ≡ bytes.now }
    {
        Text { bytes }
    }

    /// The text.
    pub(crate) fn bytes(&self) -> &'a [u8]
        ensures bytes { result.now ≡ self.now }
        ensures text { IsText result.now }
    {
        self.bytes
    }
}

/// The words of a text; None where it breaks a rule.
pub(crate) fn words_of(alloc: Global, text: &[u8]) -> Result<Option<Vec<Word>>, AllocError>
    requires { IsText text.now }
    ensures { IfOk result (λ found. IfSome found (λ parts. AreParts text.now parts.items)) }
{
    let mut parts = Vec::new(alloc);
    match read_parts(alloc, text, &mut parts) {
        Ok(()) => Ok(Some(parts)),
        Err(Fault::Broken(_)) => Ok(None),
        Err(Fault::Memory(error)) => Err(error),
    }
}

/// Adds the words of a text to none.
fn read_parts(alloc: Global, text: &[u8], parts: &mut Vec<Word>) -> Result<(), Fault>
    requires text { IsText text.now }
    requires none { parts.old.items ≡ [] }
    ensures parts { OnOk result (AreParts text.now parts.new.items) }
{
    let mut rest = text;
    'word: while let Some(behind) = add_part(alloc, rest, parts)? {
        rest = behind;
    }
    Ok(())
}

/// Adds the next word of a text. The result is what follows it; None where no word is left.
fn add_part<'a>(
    alloc: Global,
    text: &'a [u8],
    parts: &mut Vec<Word>,
) -> Result<Option<&'a [u8]>, Fault>
    requires { IsText text.now }
    ensures on { IfOk result (λ next. IfSome next (λ rest. GoOn text.now parts.old.items rest.now parts.new.items)) }
    ensures shorter { IfOk result (λ next. IfSome next (λ rest. length rest.now < length text.now)) }
    ensures text { IfOk result (λ next. IfSome next (λ rest. IsText rest.now)) }
    ensures none { IfOk result (λ next. IfNone next ((place : Place) → text_items place text.now ≡ [])) }
    ensures added_none { IfOk result (λ next. IfNone next (parts.new.items ≡ parts.old.items)) }
{
    let Some((word, behind)) = next_word(alloc, text, SOMEWHERE)? else {
        return Ok(None);
    };
    if parts.push(word).is_err() {
        return Err(Fault::Memory(AllocError));
    }
    Ok(Some(behind))
}
