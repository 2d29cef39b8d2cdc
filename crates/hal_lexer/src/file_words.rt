ghost use Rattle.std.specs.Prelude.{◌≡◌, ◌<◌, ◌≤◌, drop, ◌∷◌, [], ◌++◌, ℕ, List, false, length, map, All, OnOk, IfOk, IfErr, IfSome, IfNone, IsSomeAnd};
ghost use Rattle.std.specs.Option.{option_map};
ghost use Rattle.hal_base.specs.declared.limits.TheConstants.{TOKEN_LIMIT};
ghost use Rattle.hal_words.specs.Lines as lines;
ghost use Rattle.hal_words.specs.Replacing.{are_parameters, defined, definition, fault_of, formless, is_replace, replaced};
ghost use Rattle.hal_words.specs.Words.{misplaced, word_item};
ghost use Rattle.hal_pieces.specs.Seen.{seen_right};
ghost use Rattle.hal_pieces.specs.Faults.{seen_item};
ghost use Rattle.hal_lexer.specs.Sound.{IsSound};
ghost use Rattle.hal_lexer.specs.Texts.{HoldsText, IsText, IsTextOf};
ghost use Rattle.hal_lexer.specs.Faults.{Explains, Blames};

use crate::replacing::Replacements;
use crate::temporaries::misplaced;
use crate::text_words::word_of;
use crate::token_list::Tokens;
use hal_base::rules::{MALFORMED_REPLACE, MISPLACED_TEMPORARY, REPLACE_PARAMETERS_LEFT_OUT};
use hal_base::{Fault, Place};
use hal_pieces::{Item, RightPiece, broken};
use hal_words::{Name, Reserved, Symbol, Word};
use std::alloc::{AllocError, Global};

/// The words of a file with these items.
pub(crate) fn words<'a>(alloc: Global, items: &[Item<'a>]) -> Result<Tokens, Fault>
    requires { All HoldsText (map seen_item items.now) }
    ensures words { IfOk result (λ tokens. replaced 0 [] (map seen_item items.now) ≡ map word_item tokens) }
    ensures few { IfOk result (λ tokens. length tokens ≤ TOKEN_LIMIT) }
    ensures temporaries { IfOk result (λ tokens. misplaced false false (replaced 0 [] (map seen_item items.now)) ≡ []) }
    ensures broken { IfErr result (Blames (replaced 0 [] (map seen_item items.now))) }
{
    let tokens = replaced_words(alloc, items)?;
    if let Some(place) = misplaced(tokens.as_slice()) {
        return Err(broken(MISPLACED_TEMPORARY, place));
    }
    Ok(tokens)
}

/// The words of a file with these items, wherever a TEMPORARY stands among them.
fn replaced_words<'a>(alloc: Global, items: &[Item<'a>]) -> Result<Tokens, Fault>
    requires { All HoldsText (map seen_item items.now) }
    ensures words { IfOk result (λ tokens. replaced 0 [] (map seen_item items.now) ≡ map word_item tokens) }
    ensures broken { IfErr result (Explains (replaced 0 [] (map seen_item items.now))) }
{
    let mut tokens = match Tokens::with_capacity(alloc, items.len()) {
        Ok(tokens) => tokens,
        Err(error) => return Err(Fault::Memory(error)),
    };
    let mut replacements = Replacements::new(alloc);
    let mut from = 0;
    'item: while from < items.len() {
        from += take(
            alloc,
            &mut replacements,
            &mut tokens,
            items.split_at(from).1,
        )?;
    }
    Ok(tokens)
}

/// Takes the first of these items: a word is put in its place, and REPLACE with the items behind it
/// defines a name. The result is how many items that takes.
fn take<'a>(
    alloc: Global,
    replacements: &mut Replacements<'a>,
    tokens: &mut Tokens,
    items: &[Item<'a>],
) -> Result<usize, Fault>
    requires some { 0 < length items.now }
    requires texts { All HoldsText (map seen_item items.now) }
    requires sound { IsSound replacements.old.definitions replacements.old.summary }
    ensures taken { IfOk result (λ count. map word_item tokens.new ++ replaced 0 replacements.new.definitions (map seen_item (drop count items.now))
        ≡ map word_item tokens.old ++ replaced 0 replacements.old.definitions (map seen_item items.now)) }
    ensures sound { OnOk result (IsSound replacements.new.definitions replacements.new.summary) }
    ensures some { IfOk result (λ count. 0 < count) }
    ensures within { IfOk result (λ count. count ≤ length items.now) }
    ensures broken { IfErr result (Explains (map word_item tokens.old ++ replaced 0 replacements.old.definitions (map seen_item items.now))) }
{
    let [one, behind @ ..] = items else {
        return Ok(0);
    };
    if is_replace(&one.piece) {
        define(alloc, replacements, one.place, behind)?;
        return Ok(5);
    }
    let word = word_of(alloc, &one.piece, one.place)?;
    replacements.put(alloc, tokens, word, one.place)?;
    Ok(1)
}

/// Whether the piece is the word REPLACE.
fn is_replace(piece: &RightPiece) -> bool
    ensures { result ≡ is_replace (seen_right piece.now) }
{
    matches!(piece, RightPiece::Word(Word::Reserved(Reserved::Replace)))
}

/// Adds the definition that stands behind REPLACE at this place.
fn define<'a>(
    alloc: Global,
    replacements: &mut Replacements<'a>,
    place: Place,
    behind: &[Item<'a>],
) -> Result<(), Fault>
    requires texts { All HoldsText (map seen_item behind.now) }
    requires sound { IsSound replacements.old.definitions replacements.old.summary }
    ensures added { OnOk result (IsSomeAnd (definition (map seen_item behind.now)) (λ one. replacements.new.definitions ≡ one ∷ replacements.old.definitions)) }
    ensures sound { OnOk result (IsSound replacements.new.definitions replacements.new.summary) }
    ensures long { OnOk result (4 ≤ length behind.now) }
    ensures broken { IfErr result (λ fault. (done rest : List lines.Item) →
        Explains (done ++ (fault_of (definition (map seen_item behind.now)) (formless (map seen_item behind.now)) place ++ rest)) fault) }
{
    let Some((name, text)) = definition(behind) else {
        return Err(broken(formless(behind), place));
    };
    if replacements.define(alloc, name, text).is_err() {
        return Err(Fault::Memory(AllocError));
    }
    Ok(())
}

/// The name and the text of the definition that stands behind REPLACE.
fn definition<'a>(behind: &[Item<'a>]) -> Option<(Name, &'a [u8])>
    requires { All HoldsText (map seen_item behind.now) }
    ensures found { option_map (λ d. (d.0, d.1.now)) result ≡ definition (map seen_item behind.now) }
    ensures text { IfSome result (λ d. IsText d.1.now) }
    ensures long { IfSome result (λ d. 4 ≤ length behind.now) }
{
    match behind {
        [name, by, text, end, ..] => defined(&name.piece, &by.piece, &text.piece, &end.piece),
        _ => None,
    }
}

/// The name and the text of a definition, from the four pieces behind REPLACE.
fn defined<'a>(
    name: &RightPiece<'a>,
    by: &RightPiece<'a>,
    text: &RightPiece<'a>,
    end: &RightPiece<'a>,
) -> Option<(Name, &'a [u8])>
    requires { IsTextOf (seen_right text.now) }
    ensures text { IfSome result (λ d. IsText d.1.now) }
    ensures found { option_map (λ d. (d.0, d.1.now)) result
        ≡ defined (seen_right name.now) (seen_right by.now) (seen_right text.now) (seen_right end.now) }
{
    match (name, by, text, end) {
        (
            RightPiece::Word(Word::Name(name)),
            RightPiece::Word(Word::Reserved(Reserved::By)),
            RightPiece::Replacement(bytes),
            RightPiece::Word(Word::Symbol(Symbol::Semicolon)),
        ) => Some((*name, *bytes)),
        _ => None,
    }
}

/// The rule that a REPLACE without its form breaks: a definition with parameters has a rule of its own.
fn formless(behind: &[Item]) -> u16
    ensures { result ≡ formless (map seen_item behind.now) }
{
    match behind {
        [first, second, ..] if are_parameters(&first.piece, &second.piece) =>
            REPLACE_PARAMETERS_LEFT_OUT,
        _ => MALFORMED_REPLACE,
    }
}

/// A name and `(`.
fn are_parameters(first: &RightPiece, second: &RightPiece) -> bool
    ensures { result ≡ are_parameters (seen_right first.now) (seen_right second.now) }
{
    matches!(
        (first, second),
        (
            RightPiece::Word(Word::Name(_)),
            RightPiece::Word(Word::Symbol(Symbol::LeftParenthesis))
        )
    )
}
