//! How the values of constants become known.

ghost use Rattle.std.specs.Prelude.{◌≡◌, IfOk, IsFalse, IsTrue, None, OnOk, Some, map, replicate, slice_get, slice_set};
ghost use Rattle.hal_phrases.specs.SeenPhrases.{seen_node, seen_phrase};
ghost use Rattle.hal_names.specs.SeenNames.{seen_names};
ghost use Rattle.hal_constants.specs.Naming as naming;
ghost use Rattle.hal_constants.specs.Known as facts;
ghost use Rattle.hal_constants.specs.SeenKnown.{seen_known, seen_value};

use crate::constant::Constant;
use crate::known::Known;
use crate::naming::{is_compool_at, is_value_item};
use crate::valued::declared_value;
use hal_names::Names;
use hal_phrases::{Node, Phrase};
use hal_values::Value;
use std::alloc::{AllocError, Global};

impl Known {
    /// The values of the constants of a set of files (language document, Constant expressions).
    #[tactic(auto, unfolding(crate::specs::Known::rounds))]
    pub fn of(alloc: Global, names: &Names<'_>) -> Result<Known, AllocError>
        ensures { IfOk result (λ k. seen_known k ≡ facts.known (seen_names names.now)) }
    {
        let mut known = Known::nothing(alloc, names)?;
        let mut changes = true;
        let phrases = names.phrases();
        for phrase in phrases {
            if changes && starts_round(names, phrase) {
                changes = known.round(alloc, names)?;
            }
        }
        Ok(known)
    }

    /// No value is known.
    fn nothing(alloc: Global, names: &Names<'_>) -> Result<Known, AllocError>
        ensures { IfOk result (λ k. seen_known k ≡ facts.nothing_known (seen_names names.now)) }
    {
        Known::unknown(alloc, names.phrases().len())
    }

    /// No value of so many phrases.
    #[tactic(auto, using(crate::proofs::Slots::one_more, crate::proofs::Slots::none_behind))]
    fn unknown(alloc: Global, count: usize) -> Result<Known, AllocError>
        ensures { IfOk result (λ k. seen_known k ≡ replicate count None) }
    {
        let mut values = Vec::with_capacity(alloc, count)?;
        let mut left = count;
        while let Some(fewer) = left.checked_sub(1) {
            values.push(None)?;
            left = fewer;
        }
        Ok(Known { values })
    }

    /// The values where those of all phrases are known, one after another. False where none has changed.
    #[tactic(auto, unfolding(crate::specs::Known::round))]
    fn round(&mut self, alloc: Global, names: &Names<'_>) -> Result<bool, AllocError>
        ensures known { OnOk result (seen_known self.new ≡ facts.round (seen_names names.now) (seen_known self.old) (seen_names names.now)) }
        ensures same { IfOk result (λ changes. IsFalse changes → seen_known self.new ≡ seen_known self.old) }
    {
        let mut changes = false;
        let phrases = names.phrases();
        for phrase in phrases {
            let value = declared_value(names, self, phrase);
            if self.note(alloc, phrase.number, value)? {
                changes = true;
            }
        }
        Ok(changes)
    }

    /// Notes the value of the phrase with this number. False where it was noted before.
    #[tactic(auto, using(crate::proofs::Slots::set_same, crate::proofs::Slots::map_set))]
    fn note(
        &mut self,
        alloc: Global,
        number: usize,
        value: Option<Value>,
    ) -> Result<bool, AllocError>
        ensures known { OnOk result (seen_known self.new ≡ slice_set (seen_known self.old) number value) }
        ensures same { IfOk result (λ changes. IsFalse changes → seen_known self.new ≡ seen_known self.old) }
    {
        if self.has(number, &value) {
            return Ok(false);
        }
        let slot = boxed(alloc, value)?;
        self.put(number, slot);
        Ok(true)
    }

    /// Whether this value is noted of the phrase with this number, or none where there is none.
    #[tactic(auto, using(crate::proofs::Slots::get_mapped))]
    fn has(&self, number: usize, value: &Option<Value>) -> bool
        ensures { IsTrue result → slice_get (seen_known self.now) number ≡ Some value.now }
    {
        match (self.values.get(number), value) {
            (Some(None), None) => true,
            (Some(Some(noted)), Some(value)) => is_same(noted, value),
            _ => false,
        }
    }

    /// Replaces what stands at this place, if there is such a place.
    fn put(&mut self, place: usize, slot: Option<Box<Value>>)
        ensures { self.new.values.items ≡ slice_set self.old.values.items place slot }
    {
        if place < self.values.len() {
            self.values[place] = slot;
        }
    }

    /// The value of the constant that the phrase with this number declares, where it is known (language document, Constant expressions).
    pub fn value(&self, number: usize) -> Option<Value>
        ensures { result ≡ naming.value_at (seen_known self.now) number }
    {
        let slot = self.values.get(number)?;
        match slot {
            None => None,
            Some(value) => Some(value.copy()),
        }
    }

    /// The constant that the phrase with this number declares.
    #[tactic(auto, unfolding(crate::specs::Naming::constant_known))]
    pub(crate) fn constant(&self, number: usize) -> Constant
        ensures { result ≡ naming.constant_known (naming.value_at (seen_known self.now) number) }
    {
        let Some(slot) = self.values.get(number) else {
            return Constant::Open;
        };
        match slot {
            None => Constant::Open,
            Some(value) => Constant::Worth(value.copy()),
        }
    }
}

/// Whether two values are the same.
fn is_same(one: &Value, other: &Value) -> bool
    ensures { IsTrue result → one.now ≡ other.now }
{
    one == other
}

/// A value on the heap, where there is one.
fn boxed(alloc: Global, value: Option<Value>) -> Result<Option<Box<Value>>, AllocError>
    ensures { IfOk result (λ slot. seen_value slot ≡ value) }
{
    match value {
        None => Ok(None),
        Some(value) => Ok(Some(Box::new(alloc, value)?)),
    }
}

/// Whether a phrase is a constant that is its value, in a COMPOOL.
#[tactic(auto, unfolding(crate::specs::Known::is_pooled))]
fn is_pooled(of_compool: bool, node: Node<'_>) -> bool
    ensures { result ≡ facts.is_pooled of_compool (seen_node node.entry) }
{
    match node {
        Node::Item { common, item } => is_value_item(common, item) && of_compool,
        _ => false,
    }
}

/// Whether a round begins with a phrase: with a file, and with a constant of a COMPOOL.
fn starts_round(names: &Names<'_>, phrase: &Phrase<'_>) -> bool
    ensures { result ≡ facts.starts_round (seen_names names.now) (seen_phrase phrase.now) }
{
    is_file(phrase.node) || is_pooled(is_compool_at(names, phrase.around.home), phrase.node)
}

/// Whether a phrase is a file.
#[tactic(auto, unfolding(crate::specs::Known::is_file))]
fn is_file(node: Node<'_>) -> bool
    ensures { result ≡ facts.is_file (seen_node node.entry) }
{
    match node {
        Node::File { .. } => true,
        _ => false,
    }
}
