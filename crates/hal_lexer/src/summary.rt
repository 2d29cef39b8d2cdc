//! What the words of all texts come to. Each word has a number; a name has one wherever it stands, and
//! another word has one each time. So what a name comes to is found without its letters, from the
//! numbers of the words in its text, and where a text changes only names that were summed up behind it
//! are summed up anew, in the same order.

ghost use Rattle.std.specs.Prelude.{◌≡◌, ◌<◌, ◌++◌, ◌∷◌, [], ◌⊎◌, List, None, Some, true, is_some, length, map, slice_get, slice_set, IfOk, IfErr, OnOk, IfSome, IsTrue, IsFalse};
ghost use Rattle.hal_lexer.specs.declared.summary.Cut.TheVariants as cut;
ghost use Rattle.hal_lexer.specs.declared.comes.Given.{Given};
ghost use Rattle.hal_lexer.specs.Defined.{found};
ghost use Rattle.hal_lexer.specs.Summary.{Amounts, Gathers, IsAmount, IsPlain, IsSaid, Keeps, Stands, given_of, list_of};
ghost use Rattle.hal_lexer.specs.Texts.{IsText};

use crate::comes::{Comes, Given, Parts, comes_of};
use crate::cut::cut_of;
use crate::number_list::Numbers;
use crate::order::{Entry, Order};
use crate::plan::Plan;
use crate::token_list::Tokens;
use crate::writing::write_given;
use hal_base::{Fault, Place};
use hal_words::{Name, Word};
use indexmap::IndexMap;
use std::alloc::{AllocError, Global};

/// More parts than so many aren't gathered again for a name that may not be needed any more.
const FEW: usize = 64;

/// What is kept of the text of a name: it has none, or one in which a rule is broken, or the numbers of
/// its words.
#[derive(Drop)]
pub(crate) enum Cut {
    Undefined,
    Broken,
    Word(u32),
    Words(Numbers),
}

/// The words with what they come to, and the names that are summed up, each behind those in its text.
#[derive(Drop)]
pub(crate) struct Summary {
    words: Vec<Word>,
    numbers: IndexMap<Name, u32>,
    comes: Vec<Comes>,
    cuts: Vec<Cut>,
    done: Order,
    plan: Plan,
}

impl Summary {
    ghost use Rattle.hal_words.specs.Replacing.{Definitions};
    ghost use Rattle.hal_words.specs.declared.word.Word.TheVariants as word;
    ghost use Rattle.hal_words.specs.Lines as lines;
    ghost use Rattle.hal_words.specs.Words.{word_item};
    ghost use Rattle.hal_lexer.specs.Compiled.{IsOrdered, gives};
    ghost use Rattle.hal_lexer.specs.Faults.{Explains};
    ghost use Rattle.hal_lexer.specs.Summary.{child_of, table_of};
    ghost use Rattle.hal_lexer.specs.Sound.{IsSound};

    /// No word.
    #[tactic(auto, using(crate::proofs::Growing::none_kept, crate::proofs::Lexicons::no_names))]
    pub(crate) fn new(alloc: Global) -> Summary
        ensures { IsSound [] result }
    {
        Summary {
            words: Vec::new(alloc),
            numbers: IndexMap::new(alloc),
            comes: Vec::new(alloc),
            cuts: Vec::new(alloc),
            done: Order::new(alloc),
            plan: Plan::new(alloc),
        }
    }

    /// What the word with this number comes to.
    pub(crate) fn comes(&self, number: u32) -> Comes
        ensures { given_of (Some result) ≡ given_of (slice_get self.now.comes.items number) }
    {
        known_at(self.comes.as_slice(), number)
    }

    /// Whether it is known what the word with this number comes to.
    fn is_known(&self, number: u32) -> bool
        ensures { result ≡ is_some (given_of (slice_get self.now.comes.items number)) }
    {
        match self.comes.get(number as usize) {
            Some(Comes::Nothing) => true,
            Some(Comes::One(_)) => true,
            _ => false,
        }
    }

    /// The number of a name that stood in a text or has one.
    pub(crate) fn find(&self, name: &Name) -> Option<u32>
        ensures { result ≡ found self.now.numbers.entries name.now }
    {
        match self.numbers.get(name) {
            Some(number) => Some(*number),
            None => None,
        }
    }

    /// A number for one more word, which comes to this.
    fn add(&mut self, word: Word, known: Comes) -> Result<u32, AllocError>
        ensures last { IfOk result (λ n. n ≡ length self.old.words.items) }
        ensures words { OnOk result (self.new.words.items ≡ self.old.words.items ++ word ∷ []) }
        ensures comes { OnOk result (self.new.comes.items ≡ self.old.comes.items ++ known ∷ []) }
        ensures cuts { OnOk result (self.new.cuts.items ≡ self.old.cuts.items ++ cut.Undefined ∷ []) }
        ensures done { self.new.done ≡ self.old.done }
        ensures numbers { self.new.numbers.entries ≡ self.old.numbers.entries }
    {
        let number = numbered(self.words.len())?;
        if self.words.push(word).is_err() {
            return Err(AllocError);
        }
        self.comes.push(known)?;
        if self.cuts.push(Cut::Undefined).is_err() {
            return Err(AllocError);
        }
        Ok(number)
    }

    /// The number of a name, which it gets where it has none.
    pub(crate) fn number(&mut self, name: Name) -> Result<u32, AllocError>
        ensures named { IfOk result (λ n. (definitions : Definitions) → IsSound definitions self.old → slice_get self.new.words.items n ≡ Some (word.Name name)) }
        ensures sound { OnOk result ((definitions : Definitions) → IsSound definitions self.old → IsSound definitions self.new) }
        ensures keeps { OnOk result (Keeps self.old.words.items self.new.words.items) }
    {
        if let Some(number) = self.find(&name) {
            return Ok(number);
        }
        let number = self.add(Word::Name(name), Comes::Unknown)?;
        match self.numbers.insert(name, number) {
            Ok(_) => Ok(number),
            Err(_) => Err(AllocError),
        }
    }

    /// The number of a word of a text.
    pub(crate) fn number_of(&mut self, word: Word) -> Result<u32, AllocError>
        requires { IsSaid word }
        ensures has { IfOk result (λ n. (definitions : Definitions) → IsSound definitions self.old → slice_get self.new.words.items n ≡ Some word) }
        ensures sound { OnOk result ((definitions : Definitions) → IsSound definitions self.old → IsSound definitions self.new) }
        ensures keeps { OnOk result (Keeps self.old.words.items self.new.words.items) }
    {
        match word {
            Word::Name(name) => self.number(name),
            other => self.add_plain(other),
        }
    }

    /// A number for a word that is no name.
    fn add_plain(&mut self, word: Word) -> Result<u32, AllocError>
        requires plain { IsPlain word }
        requires said { IsSaid word }
        ensures has { IfOk result (λ n. slice_get self.new.words.items n ≡ Some word) }
        ensures sound { OnOk result ((definitions : Definitions) → IsSound definitions self.old → IsSound definitions self.new) }
        ensures keeps { OnOk result (Keeps self.old.words.items self.new.words.items) }
    {
        let number = numbered(self.words.len())?;
        self.add(word, Comes::One(Given::Word(number)))?;
        Ok(number)
    }

    /// Adds a definition.
    pub(crate) fn define(
        &mut self,
        alloc: Global,
        name: Name,
        text: &[u8],
    ) -> Result<(), AllocError>
        requires { IsText text.now }
        ensures { OnOk result ((definitions : Definitions) → IsSound definitions self.old → IsSound ((name, text.now) ∷ definitions) self.new) }
    {
        let number = self.number(name)?;
        let cut = cut_of(alloc, self, text)?;
        self.forget(number);
        set_cut(&mut self.cuts, number, cut);
        Ok(())
    }

    /// Sums up the name with this number no longer, nor those that were summed up behind it.
    #[inline(never)]
    fn forget(&mut self, number: u32)
        ensures sound { (definitions : Definitions) → IsSound definitions self.old → IsSound definitions self.new }
        ensures forgotten { (given_of (slice_get self.new.comes.items number) ≡ None) ⊎ (self.new.done ≡ []) }
        ensures words { self.new.words.items ≡ self.old.words.items }
        ensures cuts { self.new.cuts.items ≡ self.old.cuts.items }
        ensures numbers { self.new.numbers.entries ≡ self.old.numbers.entries }
    {
        'name: while self.is_known(number) {
            if !self.undo() {
                return;
            }
        }
    }

    /// Sums up the last name no longer; false where there is none.
    fn undo(&mut self) -> bool
        ensures sound { (definitions : Definitions) → IsSound definitions self.old → IsSound definitions self.new }
        ensures less { IsTrue result → length self.new.done < length self.old.done }
        ensures none { IsFalse result → self.new.done ≡ [] }
        ensures words { self.new.words.items ≡ self.old.words.items }
        ensures cuts { self.new.cuts.items ≡ self.old.cuts.items }
        ensures numbers { self.new.numbers.entries ≡ self.old.numbers.entries }
    {
        let Some(number) = self.done.pop() else {
            return false;
        };
        set_comes(&mut self.comes, number, Comes::Unknown);
        true
    }

    /// Sums up the name with this number, and before it those that its text needs. Where it isn't known
    /// afterwards what it comes to, its text breaks a rule, or needs one that does, or itself. Those that were
    /// summed up before are tried in their order first, and then those that are wanting are gone into.
    pub(crate) fn raise(&mut self, alloc: Global, number: u32) -> Result<(), AllocError>
        ensures sound { OnOk result ((definitions : Definitions) → IsSound definitions self.old → IsSound definitions self.new) }
        ensures words { self.new.words.items ≡ self.old.words.items }
    {
        if self.is_known(number) {
            return Ok(());
        }
        self.look_again(number)?;
        self.raise_again(alloc, number)?;
        self.raise_rest(alloc, number)
    }

    /// Looks again which names the one with this number needs, where that is due.
    fn look_again(&mut self, number: u32) -> Result<(), AllocError>
        ensures sound { OnOk result ((definitions : Definitions) → IsSound definitions self.old → IsSound definitions self.new) }
        ensures words { self.new.words.items ≡ self.old.words.items }
    {
        if self.plan.is_due(number) {
            return self.look_through(number);
        }
        Ok(())
    }

    /// Leaves out those names that were summed up, and aren't any more, which the one with this number doesn't need.
    fn look_through(&mut self, number: u32) -> Result<(), AllocError>
        ensures sound { OnOk result ((definitions : Definitions) → IsSound definitions self.old → IsSound definitions self.new) }
        ensures words { self.new.words.items ≡ self.old.words.items }
    {
        mark(
            self.cuts.as_slice(),
            self.done.left(),
            number,
            &mut self.plan,
        )?;
        self.done.leave_needed(&self.plan);
        Ok(())
    }

    /// Sums up the name with this number, if it isn't, where its text is gone into.
    fn raise_rest(&mut self, alloc: Global, number: u32) -> Result<(), AllocError>
        ensures sound { OnOk result ((definitions : Definitions) → IsSound definitions self.old → IsSound definitions self.new) }
        ensures words { self.new.words.items ≡ self.old.words.items }
    {
        if self.is_known(number) {
            return Ok(());
        }
        self.plan.renew();
        self.raise_anew(alloc, number, usize::MAX)
    }

    /// Sums up names in the order in which they were, up to the one with this number.
    fn raise_again(&mut self, alloc: Global, number: u32) -> Result<(), AllocError>
        ensures sound { OnOk result ((definitions : Definitions) → IsSound definitions self.old → IsSound definitions self.new) }
        ensures words { self.new.words.items ≡ self.old.words.items }
    {
        self.plan.renew();
        self.take_all(alloc, number)?;
        self.done.take_back();
        Ok(())
    }

    /// Takes names in the order in which they were summed up, up to the one with this number.
    #[inline(never)]
    fn take_all(&mut self, alloc: Global, number: u32) -> Result<(), AllocError>
        ensures sound { OnOk result ((definitions : Definitions) → IsSound definitions self.old → IsSound definitions self.new) }
        ensures words { self.new.words.items ≡ self.old.words.items }
    {
        'name: for _ in 0..usize::MAX {
            if self.is_known(number) {
                return Ok(());
            }
            let Some(next) = self.done.next() else {
                return Ok(());
            };
            self.take_again(alloc, next)?;
        }
        Ok(())
    }

    /// Sums up the name with this number, which has few parts, and before it those that its text needs now.
    /// Where that isn't possible it is left for later.
    fn take_again(&mut self, alloc: Global, number: u32) -> Result<(), AllocError>
        ensures sound { OnOk result ((definitions : Definitions) → IsSound definitions self.old → IsSound definitions self.new) }
        ensures words { self.new.words.items ≡ self.old.words.items }
    {
        if self.sum_up(alloc, number, FEW)? {
            return Ok(());
        }
        self.take_late(alloc, number)
    }

    /// Sums up the name with this number, and before it those that its text needs now. Where that isn't
    /// possible it is left for later; one that isn't needed isn't summed up.
    #[inline(never)]
    fn take_late(&mut self, alloc: Global, number: u32) -> Result<(), AllocError>
        ensures sound { OnOk result ((definitions : Definitions) → IsSound definitions self.old → IsSound definitions self.new) }
        ensures words { self.new.words.items ≡ self.old.words.items }
    {
        if !self.plan.is_needed(number) {
            return Ok(());
        }
        self.raise_anew(alloc, number, FEW)?;
        if !self.is_known(number) {
            self.done.put_aside(number);
        }
        Ok(())
    }

    /// Sums up the name with this number behind those in its text, which are gone into first. None of them
    /// has many more parts than so many.
    #[inline(never)]
    fn raise_anew(&mut self, alloc: Global, number: u32, most: usize) -> Result<(), AllocError>
        ensures sound { OnOk result ((definitions : Definitions) → IsSound definitions self.old → IsSound definitions self.new) }
        ensures words { self.new.words.items ≡ self.old.words.items }
    {
        self.plan.begin(number)?;
        'name: for _ in 0..usize::MAX {
            let Some((next, from)) = self.plan.next_left() else {
                return Ok(());
            };
            if !self.go_on(alloc, next, from, most)? {
                return Ok(());
            }
        }
        Ok(())
    }

    /// Goes into the next name in the text of this one that isn't summed up, from this place on, or sums
    /// this one up where there is none; false where neither is possible.
    fn go_on(
        &mut self,
        alloc: Global,
        number: u32,
        from: u32,
        most: usize,
    ) -> Result<bool, AllocError>
        ensures sound { OnOk result ((definitions : Definitions) → IsSound definitions self.old → IsSound definitions self.new) }
        ensures words { self.new.words.items ≡ self.old.words.items }
    {
        match self.unknown_from(number, from) {
            Some((at, inner)) => self.go_into(number, at, inner),
            None => self.sum_up(alloc, number, most),
        }
    }

    /// Goes into a name that stands at this place in the text of another one; false where that needs itself.
    fn go_into(&mut self, number: u32, at: u32, inner: u32) -> Result<bool, AllocError>
        ensures sound { (definitions : Definitions) → IsSound definitions self.old → IsSound definitions self.new }
        ensures words { self.new.words.items ≡ self.old.words.items }
    {
        self.plan.leave(number, at.saturating_add(1))?;
        self.plan.open(inner)
    }

    /// The first word in the text of a name, from this place on, of which it isn't known what it comes to:
    /// its place and its number.
    fn unknown_from(&self, number: u32, from: u32) -> Option<(u32, u32)> {
        match self.cuts.get(number as usize) {
            Some(Cut::Word(one)) => first_unknown(
                self.comes.as_slice(),
                std::slice::from_ref(one),
                from,
            ),
            Some(Cut::Words(numbers)) => first_unknown(
                self.comes.as_slice(),
                numbers.items.as_slice(),
                from,
            ),
            _ => None,
        }
    }

    /// Puts a part in its place.
    pub(crate) fn write(
        &self,
        alloc: Global,
        tokens: &mut Tokens,
        one: Given,
        place: Place,
    ) -> Result<(), Fault>
        requires { IsOrdered (table_of self.now.words.items self.now.done) }
        ensures written { OnOk result (map word_item tokens.new
            ≡ map word_item tokens.old ++ gives (table_of self.now.words.items self.now.done) place (child_of self.now.words.items one ∷ [])) }
        ensures broken { IfErr result (λ fault. (rest : List lines.Item) →
            Explains (map word_item tokens.old ++ (gives (table_of self.now.words.items self.now.done) place (child_of self.now.words.items one ∷ []) ++ rest)) fault) }
    {
        write_given(
            alloc,
            self.words.as_slice(),
            self.done.as_slice(),
            tokens,
            one,
            place,
        )
    }

    /// Sums up the name with this number; false where it isn't known of each word in its text what that
    /// comes to, or where there are many more parts than so many, or the name is summed up already.
    #[inline(always)]
    fn sum_up(&mut self, alloc: Global, number: u32, most: usize) -> Result<bool, AllocError>
        ensures sound { OnOk result ((definitions : Definitions) → IsSound definitions self.old → IsSound definitions self.new) }
        ensures words { self.new.words.items ≡ self.old.words.items }
    {
        if self.is_known(number) {
            return Ok(false);
        }
        if let Some(one) = self.only_word(number) {
            return self.follow(number, one);
        }
        self.sum_up_words(alloc, number, most)
    }

    /// Sums up the name with this number, whose text may have more words than one.
    #[inline(never)]
    fn sum_up_words(&mut self, alloc: Global, number: u32, most: usize) -> Result<bool, AllocError>
        ensures sound { OnOk result ((definitions : Definitions) → IsSound definitions self.old → given_of (slice_get self.old.comes.items number) ≡ None → IsSound definitions self.new) }
        ensures words { self.new.words.items ≡ self.old.words.items }
    {
        match self.few(number) {
            Comes::Unknown => self.sum_up_many(alloc, number, most),
            Comes::Nothing => self.keep(number, Parts::Nothing, Comes::Nothing),
            Comes::One(one) => self.keep(number, Parts::One(one), Comes::One(one)),
        }
    }

    /// The number of the word that is the text of the name with this number, where it is one word.
    fn only_word(&self, number: u32) -> Option<u32>
        ensures { IfSome result (λ one. slice_get self.now.cuts.items number ≡ Some (cut.Word one)) }
    {
        match self.cuts.get(number as usize) {
            Some(Cut::Word(one)) => Some(*one),
            _ => None,
        }
    }

    /// Sums up the name with this number, whose text is this word; false where it isn't known what that comes to.
    #[inline(always)]
    fn follow(&mut self, number: u32, one: u32) -> Result<bool, AllocError>
        ensures sound { OnOk result ((definitions : Definitions) → IsSound definitions self.old → given_of (slice_get self.old.comes.items number) ≡ None
            → slice_get self.old.cuts.items number ≡ Some (cut.Word one) → IsSound definitions self.new) }
        ensures words { self.new.words.items ≡ self.old.words.items }
    {
        match known_at(self.comes.as_slice(), one) {
            Comes::Nothing => self.keep(number, Parts::Nothing, Comes::Nothing),
            Comes::One(part) => self.keep(number, Parts::One(part), Comes::One(part)),
            _ => Ok(false),
        }
    }

    /// What the name with this number comes to, where that is known of each word in its text and there is
    /// at most one part.
    fn few(&self, number: u32) -> Comes
        ensures { (all : List Given) → given_of (Some result) ≡ Some all → IsAmount self.now.comes.items self.now.cuts.items number all }
    {
        match self.cuts.get(number as usize) {
            Some(cut) => few_at(self.comes.as_slice(), cut, number),
            None => Comes::Unknown,
        }
    }

    /// Sums up the name with this number, in whose place there may be more parts than one.
    #[inline(never)]
    fn sum_up_many(&mut self, alloc: Global, number: u32, most: usize) -> Result<bool, AllocError>
        ensures sound { OnOk result ((definitions : Definitions) → IsSound definitions self.old → given_of (slice_get self.old.comes.items number) ≡ None → IsSound definitions self.new) }
        ensures words { self.new.words.items ≡ self.old.words.items }
    {
        let mut list = Vec::new(alloc);
        let Some(cut) = self.cuts.get(number as usize) else {
            return Ok(false);
        };
        if !gather(self.comes.as_slice(), cut, number, most, &mut list)? {
            return Ok(false);
        }
        let count = numbered(self.done.len())?;
        let parts = list.as_slice();
        let known = comes_of(parts, count);
        self.keep(number, Parts::Many(list), known)
    }

    /// These parts stand in place of the name with this number from now on, which comes to this then.
    #[inline(always)]
    fn keep(&mut self, number: u32, parts: Parts, known: Comes) -> Result<bool, AllocError>
        ensures sound { OnOk result ((definitions : Definitions) → IsSound definitions self.old → given_of (slice_get self.old.comes.items number) ≡ None
            → IsAmount self.old.comes.items self.old.cuts.items number (list_of parts) → Stands known (length self.old.done) (list_of parts) → IsSound definitions self.new) }
        ensures words { self.new.words.items ≡ self.old.words.items }
    {
        self.done.push(Entry { number, parts })?;
        set_comes(&mut self.comes, number, known);
        Ok(true)
    }
}

/// The number of the next one behind so many. Memory is wanting where they are too many for numbers of 32 bits.
fn numbered(count: usize) -> Result<u32, AllocError>
    ensures { IfOk result (λ number. number ≡ count) }
{
    match u32::try_from(count) {
        Ok(number) => Ok(number),
        Err(_) => Err(AllocError),
    }
}

/// The word with this number comes to this from now on.
#[tactic(auto, using(crate::proofs::Places::set_past))]
fn set_comes(comes: &mut Vec<Comes>, number: u32, known: Comes)
    ensures { comes.new.items ≡ slice_set comes.old.items number known }
{
    if (number as usize) < comes.len() {
        comes[number as usize] = known;
    }
}

/// This is kept of the text of the name with this number from now on.
#[tactic(auto, using(crate::proofs::Places::set_past))]
fn set_cut(cuts: &mut Vec<Cut>, number: u32, cut: Cut)
    ensures { cuts.new.items ≡ slice_set cuts.old.items number cut }
{
    if (number as usize) < cuts.len() {
        cuts[number as usize] = cut;
    }
}

/// The first of these words, from this place on, of which it isn't known what it comes to.
fn first_unknown(comes: &[Comes], numbers: &[u32], from: u32) -> Option<(u32, u32)> {
    'place: for at in from..u32::MAX {
        let number = *numbers.get(at as usize)?;
        if matches!(comes.get(number as usize), Some(Comes::Unknown)) {
            return Some((at, number));
        }
    }
    None
}

/// Marks the name with this number as needed, and of these names those that it needs, where each stands
/// before those in its text.
fn mark(cuts: &[Cut], names: &[u32], number: u32, plan: &mut Plan) -> Result<(), AllocError> {
    plan.look();
    plan.need(number)?;
    mark_text(cuts, number, plan)?;
    'name: for name in names {
        if *name != number && plan.is_needed(*name) {
            mark_text(cuts, *name, plan)?;
        }
    }
    Ok(())
}

/// Marks the words in the text of a name as needed.
fn mark_text(cuts: &[Cut], name: u32, plan: &mut Plan) -> Result<(), AllocError> {
    match cuts.get(name as usize) {
        Some(Cut::Word(one)) => plan.need(*one),
        Some(Cut::Words(numbers)) => mark_words(numbers.items.as_slice(), plan),
        _ => Ok(()),
    }
}

/// Marks the words with these numbers as needed.
fn mark_words(numbers: &[u32], plan: &mut Plan) -> Result<(), AllocError> {
    'word: for number in numbers {
        plan.need(*number)?;
    }
    Ok(())
}

/// What the name with this number comes to, of whose text this is kept, where that is known of each word
/// and there is at most one part.
fn few_at(comes: &[Comes], cut: &Cut, number: u32) -> Comes
    ensures { (all : List Given) → given_of (Some result) ≡ Some all → Amounts comes.now cut.now number all }
{
    match cut {
        Cut::Undefined => Comes::One(Given::Word(number)),
        Cut::Broken => Comes::Unknown,
        Cut::Word(one) => alone(comes, *one, &[]),
        Cut::Words(numbers) => few_of(comes, numbers.items.as_slice()),
    }
}

/// What the words with these numbers come to, where that is known of each of them and there is at most
/// one part.
#[tactic(auto, using(crate::proofs::Summing::nothing_before))]
fn few_of(comes: &[Comes], numbers: &[u32]) -> Comes
    ensures { (all : List Given) → given_of (Some result) ≡ Some all → Gathers comes.now numbers.now all }
{
    match past_nothing(comes, numbers) {
        [] => Comes::Nothing,
        [one, rest @ ..] => alone(comes, *one, rest),
    }
}

/// What the word with this number comes to, where those behind it come to nothing.
#[tactic(auto, using(crate::proofs::Summing::alone_gathers))]
fn alone(comes: &[Comes], one: u32, behind: &[u32]) -> Comes
    ensures { (all : List Given) → given_of (Some result) ≡ Some all → Gathers comes.now (one ∷ behind.now) all }
{
    match past_nothing(comes, behind) {
        [] => known_at(comes, one),
        _ => Comes::Unknown,
    }
}

/// These words from the first one on of which it isn't known that it comes to nothing.
fn past_nothing<'a>(comes: &[Comes], numbers: &'a [u32]) -> &'a [u32]
    ensures { (all : List Given) → Gathers comes.now result.now all → Gathers comes.now numbers.now all }
{
    let mut left = numbers;
    'word: while let [first, rest @ ..] = left {
        if !is_nothing(comes, *first) {
            return left;
        }
        left = rest;
    }
    left
}

/// Whether it is known that the word with this number comes to nothing.
fn is_nothing(comes: &[Comes], number: u32) -> bool
    ensures { IsTrue result → given_of (slice_get comes.now number) ≡ Some [] }
{
    match comes.get(number as usize) {
        Some(Comes::Nothing) => true,
        _ => false,
    }
}

/// The parts that stand in place of the name with this number, of whose text this is kept; false where
/// they aren't known, or more than so many.
fn gather(
    comes: &[Comes],
    cut: &Cut,
    number: u32,
    most: usize,
    parts: &mut Vec<Given>,
) -> Result<bool, AllocError>
    ensures { IfOk result (λ known. IsTrue known → Amounts comes.now cut.now number parts.new.items) }
{
    parts.clear();
    match cut {
        Cut::Undefined => add(parts, Given::Word(number)),
        Cut::Broken => Ok(false),
        Cut::Word(one) => gather_words(comes, std::slice::from_ref(one), most, parts),
        Cut::Words(numbers) => gather_words(comes, numbers.items.as_slice(), most, parts),
    }
}

/// The parts that the words with these numbers come to; false where that isn't known of one of them, or
/// where there are more than so many.
fn gather_words(
    comes: &[Comes],
    numbers: &[u32],
    most: usize,
    parts: &mut Vec<Given>,
) -> Result<bool, AllocError>
    requires { parts.old.items ≡ [] }
    ensures { IfOk result (λ known. IsTrue known → Gathers comes.now numbers.now parts.new.items) }
{
    'word: for number in numbers {
        if parts.len() > most {
            return Ok(false);
        }
        if !take(comes, *number, parts)? {
            return Ok(false);
        }
    }
    Ok(true)
}

/// Adds the parts that the word with this number comes to; false where that isn't known.
fn take(comes: &[Comes], number: u32, parts: &mut Vec<Given>) -> Result<bool, AllocError>
    ensures { IfOk result (λ known. IsTrue known → (first : List Given) × (given_of (slice_get comes.now number) ≡ Some first) × (parts.new.items ≡ parts.old.items ++ first)) }
{
    match known_at(comes, number) {
        Comes::Unknown => Ok(false),
        Comes::Nothing => Ok(true),
        Comes::One(one) => add(parts, one),
    }
}

/// What the word with this number comes to.
fn known_at(comes: &[Comes], number: u32) -> Comes
    ensures { given_of (Some result) ≡ given_of (slice_get comes.now number) }
{
    match comes.get(number as usize) {
        Some(known) => *known,
        None => Comes::Unknown,
    }
}

/// Adds a part.
fn add(parts: &mut Vec<Given>, one: Given) -> Result<bool, AllocError>
    ensures added { OnOk result (parts.new.items ≡ parts.old.items ++ one ∷ []) }
    ensures yes { IfOk result (λ known. known ≡ true) }
{
    match parts.push(one) {
        Ok(()) => Ok(true),
        Err(_) => Err(AllocError),
    }
}
