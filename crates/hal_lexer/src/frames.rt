use crate::child::Child;
use hal_words::Name;
use indexmap::IndexMap;
use std::alloc::{AllocError, Global};
use std::marker::Model;

/// What is left of a text, and the children that stand for what was read of it.
#[derive(Drop)]
pub(crate) struct Part<'a> {
    pub(crate) rest: &'a [u8],
    pub(crate) children: Vec<Child>,
}

/// The names whose texts are being read, each in the text of the one before it. A contract sees the list,
/// the innermost first.
#[derive(Drop)]
pub(crate) struct Frames<'a> {
    open: IndexMap<Name, Part<'a>>,
}

impl<'a> Model for Frames<'a> {
    ghost use Rattle.std.specs.Prelude.{List, reverse, map};
    ghost use Rattle.hal_lexer.specs.Opened.{Opened, opened_of, AreTexts};

    ghost Value = { List Opened };

    ghost view = { λ f. reverse (map opened_of f.«open».entries) };

    ghost invariant = { λ f. AreTexts f.«open».entries };
}

impl<'a> Frames<'a> {
    ghost use Rattle.std.specs.Prelude.{◌≡◌, ◌∷◌, [], false, OnOk, IfSome, IfNone, length};
    ghost use Rattle.hal_words.specs.Replacing.{is_among};
    ghost use Rattle.hal_lexer.specs.Texts.{IsText};
    ghost use Rattle.hal_lexer.specs.Opened.{names_of, opened_of};

    /// No name.
    pub(crate) fn new(alloc: Global) -> Frames<'a>
        ensures { result ≡ [] }
    {
        Frames {
            open: IndexMap::new(alloc),
        }
    }

    /// How many names there are.
    pub(crate) fn len(&self) -> usize
        ensures { result ≡ length self.now }
    {
        self.open.len()
    }

    /// Whether the text of this name is being read.
    pub(crate) fn has(&self, name: &Name) -> bool
        ensures { result ≡ is_among (names_of self.now) name.now }
    {
        self.open.contains_key(name)
    }

    /// Opens a text in the innermost one.
    pub(crate) fn push(&mut self, name: Name, part: Part<'a>) -> Result<(), AllocError>
        requires closed { is_among (names_of self.old) name ≡ false }
        requires text { IsText part.rest.now }
        ensures { OnOk result (self.new ≡ opened_of (name, part.entry) ∷ self.old) }
    {
        if self.open.insert(name, part).is_err() {
            return Err(AllocError);
        }
        Ok(())
    }

    /// Takes the innermost text.
    pub(crate) fn pop(&mut self) -> Option<(Name, Part<'a>)>
        ensures some { IfSome result (λ frame. self.old ≡ opened_of frame ∷ self.new) }
        ensures closed { IfSome result (λ frame. is_among (names_of self.new) frame.0 ≡ false) }
        ensures text { IfSome result (λ frame. IsText frame.1.rest.now) }
        ensures none { IfNone result (self.old ≡ []) }
    {
        self.open.pop()
    }
}
