use crate::text::Text;
use hal_words::Name;
use indexmap::IndexMap;
use std::alloc::{AllocError, Global};
use std::marker::Model;

/// The text that stands in place of a name.
#[derive(Drop)]
pub(crate) struct Definition<'a> {
    name: Name,
    text: Text<'a>,
}

/// The definitions so far; of two with one name the later one holds. A contract sees the list, the
/// latest first.
#[derive(Drop)]
pub(crate) struct Definitions<'a> {
    list: Vec<Definition<'a>>,
    latest: IndexMap<Name, usize>,
}

impl<'a> Model for Definitions<'a> {
    ghost use Rattle.std.specs.Prelude.{reverse, map};
    ghost use Rattle.hal_words.specs.Replacing as replacing;
    ghost use Rattle.hal_lexer.specs.Defined.{pair_of, IsIndex};

    ghost Value = { replacing.Definitions };

    ghost view = { λ d. reverse (map pair_of d.list.items) };

    ghost invariant = { λ d. IsIndex d.latest.entries (map pair_of d.list.items) };
}

impl<'a> Definitions<'a> {
    ghost use Rattle.std.specs.Prelude.{◌≡◌, ◌∷◌, [], Some, IsTrue, OnOk, IfSome, is_none};
    ghost use Rattle.std.specs.Option.{option_map};
    ghost use Rattle.hal_words.specs.Reserved.{look_up};
    ghost use Rattle.hal_lexer.specs.Texts.{IsText};

    /// No definition.
    pub(crate) fn new(alloc: Global) -> Definitions<'a>
        ensures { result ≡ [] }
    {
        Definitions {
            list: Vec::new(alloc),
            latest: IndexMap::new(alloc),
        }
    }

    /// Adds a definition.
    pub(crate) fn push(&mut self, name: Name, text: Text<'a>) -> Result<(), AllocError>
        requires { IsText text }
        ensures { OnOk result (self.new ≡ (name, text.entry) ∷ self.old) }
    {
        let number = self.list.len();
        if self.list.push(Definition { name, text }).is_err() {
            return Err(AllocError);
        }
        let Ok(_) = self.latest.insert_full(name, number) else {
            self.list.pop();
            return Err(AllocError);
        };
        Ok(())
    }

    /// Whether this text stands in place of this name.
    pub(crate) fn has(&self, name: &Name, text: &[u8]) -> bool
        ensures { IsTrue result → look_up self.now name.now ≡ Some text.now }
    {
        match self.text(name) {
            Some(known) => known == text,
            None => false,
        }
    }

    /// Whether no text stands in place of this name, which takes no search where nothing is defined.
    pub(crate) fn lacks(&self, name: &Name) -> bool
        ensures { result ≡ is_none (look_up self.now name.now) }
    {
        self.list.is_empty() || self.latest_of(name).is_none()
    }

    /// The text that stands in place of this name.
    pub(crate) fn text(&self, name: &Name) -> Option<&'a [u8]>
        ensures found { option_map (λ text. text.now) result ≡ look_up self.now name.now }
        ensures text { IfSome result (λ text. IsText text.now) }
    {
        match self.latest_of(name) {
            Some(text) => Some(text.bytes()),
            None => None,
        }
    }

    /// The text that stands in place of this name, with its words.
    pub(crate) fn latest_of(&self, name: &Name) -> Option<&Text<'a>>
        ensures { option_map (λ text. text.now) result ≡ look_up self.now name.now }
    {
        let index = self.latest.get(name)?;
        let definition = self.list.get(*index)?;
        Some(&definition.text)
    }
}
