//! A name is compiled: its text is read once, and with it the text of each name in it that isn't compiled
//! yet. A fault in one of these texts is a fault among the items of the file, so it is answered at once,
//! even where the limit of words would come before it: of several broken rules any may be answered.

ghost use Rattle.std.specs.Prelude.{◌≡◌, ◌<◌, ◌∷◌, [], ◌++◌, ◌⊎◌, ℕ, List, true, false, length, None, Some, OnOk, IfOk, IfErr, IfSome, IfNone};
ghost use Rattle.std.specs.Option.{option_map, option_to_list};
ghost use Rattle.hal_base.specs.declared.refusal.Place.{Place};
ghost use Rattle.hal_words.specs.declared.word.Word.TheVariants as word;
ghost use Rattle.hal_words.specs.Pieces.{Is};
ghost use Rattle.hal_words.specs.Lines as lines;
ghost use Rattle.hal_words.specs.Lines.{item};
ghost use Rattle.hal_words.specs.Replacing.{is_among, is_replace, replaced_word};
ghost use Rattle.hal_words.specs.Reserved.{look_up};
ghost use Rattle.hal_pieces.specs.Faults.{IsBrokenAt, IsMemory, Tells};
ghost use Rattle.hal_lexer.specs.declared.child.Child.TheVariants as child;
ghost use Rattle.hal_lexer.specs.declared.child.Child as parts;
ghost use Rattle.hal_lexer.specs.Compiled.{GoesOn, IsCompiled, Stays, as_child, number_of, word_children};
ghost use Rattle.hal_lexer.specs.Opened.{AreOpened, IsSpoilt, Leads, begun, is_seen, names_of, opened, opened_of, work};
ghost use Rattle.hal_lexer.specs.Texts.{IsText};

use crate::child::Child;
use crate::compiled::Compiled;
use crate::definitions::Definitions;
use crate::frames::{Frames, Part};
use crate::text_words::next_word;
use hal_base::rules::RECURSIVE_REPLACEMENT;
use hal_base::{Fault, Place};
use hal_pieces::broken;
use hal_words::{Name, Word};
use std::alloc::{AllocError, Global};

/// The number of a name that has a text, which is compiled if it isn't yet. None where it has no text.
pub(crate) fn number<'a>(
    alloc: Global,
    definitions: &Definitions<'a>,
    compiled: &mut Compiled,
    name: Name,
    place: Place,
) -> Result<Option<usize>, Fault>
    requires { IsCompiled definitions.now compiled.old }
    ensures compiled { OnOk result (IsCompiled definitions.now compiled.new) }
    ensures some { IfOk result (λ found. IfSome found (λ number. number_of compiled.new name ≡ Some number)) }
    ensures none { IfOk result (λ found. IfNone found (look_up definitions.now name ≡ None)) }
    ensures broken { IfErr result (Tells (replaced_word definitions.now (item (Is (word.Name name)) place))) }
{
    if let Some(number) = compiled.number(&name) {
        return Ok(Some(number));
    }
    let Some(text) = definitions.text(&name) else {
        return Ok(None);
    };
    compile(alloc, definitions, compiled, name, text, place)?;
    Ok(compiled.number(&name))
}

/// Compiles a name with this text, which is used at this place.
fn compile<'a>(
    alloc: Global,
    definitions: &Definitions<'a>,
    compiled: &mut Compiled,
    name: Name,
    text: &'a [u8],
    place: Place,
) -> Result<(), Fault>
    requires text { IsText text.now }
    requires defined { look_up definitions.now name ≡ Some text.now }
    requires new { number_of compiled.old name ≡ None }
    requires compiled { IsCompiled definitions.now compiled.old }
    ensures compiled { OnOk result (IsCompiled definitions.now compiled.new) }
    ensures named { OnOk result (is_seen compiled.new [] name ≡ true) }
    ensures broken { IfErr result (Tells (replaced_word definitions.now (item (Is (word.Name name)) place))) }
{
    let mut frames = Frames::new(alloc);
    open(alloc, &mut frames, name, text, place)?;
    'word: while frames.len() > 0 {
        step(alloc, definitions, compiled, &mut frames, place)?;
    }
    Ok(())
}

/// Opens the text of a name in the innermost one, which is used at this place.
fn open<'a>(
    alloc: Global,
    frames: &mut Frames<'a>,
    name: Name,
    text: &'a [u8],
    place: Place,
) -> Result<(), Fault>
    requires { IsText text.now }
    ensures other { OnOk result (is_among (names_of frames.old) name ≡ false) }
    ensures opened { OnOk result (frames.new ≡ begun name text.now ∷ frames.old) }
    ensures broken { IfErr result (λ fault. IsMemory fault ⊎ ((is_among (names_of frames.old) name ≡ true) × IsBrokenAt 205 place fault)) }
{
    if frames.has(&name) {
        return Err(broken(RECURSIVE_REPLACEMENT, place));
    }
    let part = Part {
        rest: text,
        children: Vec::new(alloc),
    };
    if frames.push(name, part).is_err() {
        return Err(Fault::Memory(AllocError));
    }
    Ok(())
}

/// Reads the innermost text on: to its end, and then its name is compiled; or to a name that isn't, whose
/// text is opened, and when that is read the name is met again. A name without a text is a word.
fn step<'a>(
    alloc: Global,
    definitions: &Definitions<'a>,
    compiled: &mut Compiled,
    frames: &mut Frames<'a>,
    place: Place,
) -> Result<(), Fault>
    requires some { 0 < length frames.old }
    requires compiled { IsCompiled definitions.now compiled.old }
    requires opened { AreOpened definitions.now compiled.old frames.old }
    ensures compiled { OnOk result (IsCompiled definitions.now compiled.new) }
    ensures opened { OnOk result (AreOpened definitions.now compiled.new frames.new) }
    ensures seen { OnOk result ((name : List ℕ) → is_seen compiled.old frames.old name ≡ true → is_seen compiled.new frames.new name ≡ true) }
    ensures leads { OnOk result ((whole : List lines.Item) → Leads definitions.now place whole frames.old → Leads definitions.now place whole frames.new) }
    ensures smaller { OnOk result (work definitions.now compiled.new frames.new < work definitions.now compiled.old frames.old) }
    ensures broken { IfErr result (λ fault. (whole : List lines.Item) → Leads definitions.now place whole frames.old → Tells whole fault) }
{
    let Some((name, part)) = frames.pop() else {
        return Ok(());
    };
    let mut children = part.children;
    let rest = read_on(alloc, compiled, part.rest, &mut children, place)?;
    match next_word(alloc, rest, place) {
        Err(fault) => Err(fault),
        Ok(None) => close(compiled, name, children),
        Ok(Some((one, behind))) => match uncompiled(definitions, compiled, &one) {
            Some((inner, text)) => {
                enter(
                    alloc,
                    frames,
                    name,
                    Part { rest, children },
                    inner,
                    text,
                    place,
                )
            }
            None => pass(alloc, compiled, frames, name, children, one, behind),
        },
    }
}

/// Reads a text as far as its words are known, and adds their children. The result is what is left.
fn read_on<'a>(
    alloc: Global,
    compiled: &Compiled,
    text: &'a [u8],
    children: &mut Vec<Child>,
    place: Place,
) -> Result<&'a [u8], Fault>
    requires { IsText text.now }
    ensures on { IfOk result (λ rest. GoesOn compiled.now text.now children.old.items rest.now children.new.items) }
    ensures text { IfOk result (λ rest. IsText rest.now) }
    ensures broken { IfErr result (IsSpoilt place text.now) }
{
    let mut rest = text;
    'word: while let Some(behind) = read_known(alloc, compiled, rest, children, place)? {
        rest = behind;
    }
    Ok(rest)
}

/// Reads the next word of a text and adds its children. The result is what follows it; None where no word
/// is left, or the word is a name that isn't compiled yet.
fn read_known<'a>(
    alloc: Global,
    compiled: &Compiled,
    text: &'a [u8],
    children: &mut Vec<Child>,
    place: Place,
) -> Result<Option<&'a [u8]>, Fault>
    requires { IsText text.now }
    ensures on { IfOk result (λ next. IfSome next (λ rest. GoesOn compiled.now text.now children.old.items rest.now children.new.items)) }
    ensures shorter { IfOk result (λ next. IfSome next (λ rest. length rest.now < length text.now)) }
    ensures text { IfOk result (λ next. IfSome next (λ rest. IsText rest.now)) }
    ensures none { IfOk result (λ next. IfNone next (children.new.items ≡ children.old.items)) }
    ensures broken { IfErr result (IsSpoilt place text.now) }
{
    match next_word(alloc, text, place) {
        Err(fault) => Err(fault),
        Ok(None) => Ok(None),
        Ok(Some((one, behind))) => {
            let Some(child) = known(alloc, compiled, one)? else {
                return Ok(None);
            };
            add(children, child)?;
            Ok(Some(behind))
        }
    }
}

/// The child that stands for a word, or that none does. None where the word is a name that isn't compiled
/// yet.
fn known(alloc: Global, compiled: &Compiled, one: Word) -> Result<Option<Option<Child>>, Fault>
    requires { is_replace (Is one) ≡ false }
    ensures known { IfOk result (λ known. option_map option_to_list known ≡ word_children compiled.now one) }
    ensures memory { IfErr result IsMemory }
{
    match one {
        Word::Name(name) => known_name(alloc, compiled, &name),
        other => Ok(Some(Some(Child::Word(other)))),
    }
}

/// The same for a name.
fn known_name(
    alloc: Global,
    compiled: &Compiled,
    name: &Name,
) -> Result<Option<Option<Child>>, Fault>
    ensures known { IfOk result (λ known. option_map option_to_list known ≡ word_children compiled.now (word.Name name.now)) }
    ensures memory { IfErr result IsMemory }
{
    let Some(number) = compiled.number(name) else {
        return Ok(None);
    };
    let child = as_child(alloc, number, compiled.children(number))?;
    Ok(Some(child))
}

/// Puts a name back with its text, and opens the text of a name in it.
fn enter<'a>(
    alloc: Global,
    frames: &mut Frames<'a>,
    name: Name,
    part: Part<'a>,
    inner: Name,
    text: &'a [u8],
    place: Place,
) -> Result<(), Fault>
    requires closed { is_among (names_of frames.old) name ≡ false }
    requires rest { IsText part.rest.now }
    requires text { IsText text.now }
    ensures other { OnOk result (is_among (name ∷ names_of frames.old) inner ≡ false) }
    ensures opened { OnOk result (frames.new ≡ begun inner text.now ∷ opened_of (name, part.entry) ∷ frames.old) }
    ensures broken { IfErr result (λ fault. IsMemory fault ⊎ ((is_among (name ∷ names_of frames.old) inner ≡ true) × IsBrokenAt 205 place fault)) }
{
    if frames.push(name, part).is_err() {
        return Err(Fault::Memory(AllocError));
    }
    open(alloc, frames, inner, text, place)
}

/// Puts a name back with what follows a word of its text, for which children are added.
fn pass<'a>(
    alloc: Global,
    compiled: &mut Compiled,
    frames: &mut Frames<'a>,
    name: Name,
    mut children: Vec<Child>,
    one: Word,
    behind: &'a [u8],
) -> Result<(), Fault>
    requires closed { is_among (names_of frames.old) name ≡ false }
    requires behind { IsText behind.now }
    requires word { is_replace (Is one) ≡ false }
    ensures passed { OnOk result ((first : List parts.Child) × (word_children compiled.new one ≡ Some first) × (frames.new ≡ opened name behind.now (children.items ++ first) ∷ frames.old)) }
    ensures stays { OnOk result (Stays one compiled.old compiled.new) }
    ensures memory { IfErr result IsMemory }
{
    read(alloc, compiled, &mut children, one)?;
    let part = Part {
        rest: behind,
        children,
    };
    if frames.push(name, part).is_err() {
        return Err(Fault::Memory(AllocError));
    }
    Ok(())
}

/// Adds a name whose text is read to its end.
fn close(compiled: &mut Compiled, name: Name, children: Vec<Child>) -> Result<(), Fault>
    ensures closed { OnOk result (compiled.new ≡ (name, children.items) ∷ compiled.old) }
    ensures memory { IfErr result IsMemory }
{
    if compiled.push(name, children).is_err() {
        return Err(Fault::Memory(AllocError));
    }
    Ok(())
}

/// A word that is a name with a text, which isn't compiled yet, and its text.
fn uncompiled<'a>(
    definitions: &Definitions<'a>,
    compiled: &Compiled,
    one: &Word,
) -> Option<(Name, &'a [u8])>
    ensures name { IfSome result (λ f. one.now ≡ word.Name f.0) }
    ensures new { IfSome result (λ f. number_of compiled.now f.0 ≡ None) }
    ensures text { IfSome result (λ f. IsText f.1.now) }
    ensures defined { IfSome result (λ f. look_up definitions.now f.0 ≡ Some f.1.now) }
    ensures none { IfNone result ((name : List ℕ) → one.now ≡ word.Name name → number_of compiled.now name ≡ None → look_up definitions.now name ≡ None) }
{
    let Word::Name(name) = one else {
        return None;
    };
    if compiled.number(name).is_some() {
        return None;
    }
    let text = definitions.text(name)?;
    Some((*name, text))
}

/// Adds the children that stand for a word, which is no name with a text that isn't compiled yet.
fn read(
    alloc: Global,
    compiled: &mut Compiled,
    children: &mut Vec<Child>,
    one: Word,
) -> Result<(), Fault>
    requires { is_replace (Is one) ≡ false }
    ensures read { OnOk result ((first : List parts.Child) × (word_children compiled.new one ≡ Some first) × (children.new.items ≡ children.old.items ++ first)) }
    ensures stays { OnOk result (Stays one compiled.old compiled.new) }
    ensures memory { IfErr result IsMemory }
{
    match one {
        Word::Name(name) => read_name(alloc, compiled, children, &name),
        other => add(children, Some(Child::Word(other))),
    }
}

/// Adds the children that stand for a name. One that isn't compiled yet has no text, and is a word.
fn read_name(
    alloc: Global,
    compiled: &mut Compiled,
    children: &mut Vec<Child>,
    name: &Name,
) -> Result<(), Fault>
    ensures read { OnOk result ((first : List parts.Child) × (word_children compiled.new (word.Name name.now) ≡ Some first) × (children.new.items ≡ children.old.items ++ first)) }
    ensures stays { OnOk result (Stays (word.Name name.now) compiled.old compiled.new) }
    ensures memory { IfErr result IsMemory }
{
    if let Some(number) = compiled.number(name) {
        let child = as_child(alloc, number, compiled.children(number))?;
        return add(children, child);
    }
    leave(alloc, compiled, *name)?;
    add(children, Some(Child::Word(Word::Name(*name))))
}

/// Adds a child, if there is one.
fn add(children: &mut Vec<Child>, child: Option<Child>) -> Result<(), Fault>
    ensures added { OnOk result (children.new.items ≡ children.old.items ++ option_to_list child) }
    ensures memory { IfErr result IsMemory }
{
    let Some(one) = child else {
        return Ok(());
    };
    if children.push(one).is_err() {
        return Err(Fault::Memory(AllocError));
    }
    Ok(())
}

/// The child that stands for a name with this number and these children. Where they are fewer than two
/// the name itself is none, so that a walk over children takes few steps more than it gives words.
fn as_child(alloc: Global, number: usize, children: &[Child]) -> Result<Option<Child>, Fault>
    ensures child { IfOk result (λ child. option_to_list child ≡ as_child number children.now) }
    ensures memory { IfErr result IsMemory }
{
    match children {
        [] => Ok(None),
        [one] => match one.copy(alloc) {
            Ok(copy) => Ok(Some(copy)),
            Err(error) => Err(Fault::Memory(error)),
        },
        _ => Ok(Some(Child::Name(number))),
    }
}

/// Adds a name without a text, which is a word.
fn leave(alloc: Global, compiled: &mut Compiled, name: Name) -> Result<(), Fault>
    ensures left { OnOk result (compiled.new ≡ (name, child.Word (word.Name name) ∷ []) ∷ compiled.old) }
    ensures memory { IfErr result IsMemory }
{
    let mut children = Vec::new(alloc);
    if children.push(Child::Word(Word::Name(name))).is_err() {
        return Err(Fault::Memory(AllocError));
    }
    close(compiled, name, children)
}
