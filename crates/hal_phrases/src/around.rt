//! What stands around a phrase.

ghost use Rattle.std.specs.Prelude.{◌≡◌};
ghost use Rattle.hal_phrases.specs.Surroundings as surroundings;

/// What stands around a phrase. Phrases are named by their numbers.
#[derive(Clone, Copy)]
pub struct Around {
    /// The phrase that this one is a part of.
    pub parent: usize,
    /// The phrase that opens the innermost scope: a file, a template, a unit, or a DO FOR group with TEMPORARY.
    pub block: usize,
    /// The phrase of the file, template or unit to which declarations and labels belong here.
    pub home: usize,
    /// How many prefaces of the file stand before.
    pub prefaces: usize,
    /// The innermost DO group around, within the unit or UPDATE block.
    pub group: Option<usize>,
    /// The UPDATE block around.
    pub update: Option<usize>,
    /// Whether the phrase stands directly in the body of a unit or of an UPDATE block.
    pub direct: bool,
}

impl Around {
    /// What stands around the parts of a file.
    pub(crate) fn file(number: usize) -> Around
        ensures { result ≡ surroundings.in_file number }
    {
        Around {
            parent: number,
            block: number,
            home: number,
            prefaces: 0,
            group: None,
            update: None,
            direct: false,
        }
    }

    /// The same behind so many prefaces.
    pub(crate) fn behind(self, prefaces: usize) -> Around
        ensures { result ≡ surroundings.behind prefaces self }
    {
        Around { prefaces, ..self }
    }

    /// What stands around the parts of a phrase.
    pub(crate) fn under(self, number: usize) -> Around
        ensures { result ≡ surroundings.under number self }
    {
        Around {
            parent: number,
            ..self
        }
    }

    /// What stands around the body of a unit or a template.
    pub(crate) fn opened(self, number: usize) -> Around
        ensures { result ≡ surroundings.opened number self }
    {
        Around {
            parent: number,
            block: number,
            home: number,
            prefaces: self.prefaces,
            group: None,
            update: None,
            direct: true,
        }
    }

    /// What stands around a statement within another one.
    pub(crate) fn inside(self) -> Around
        ensures { result ≡ surroundings.inside self }
    {
        Around {
            direct: false,
            ..self
        }
    }

    /// What stands around the statements of a DO group.
    pub(crate) fn grouped(self, number: usize) -> Around
        ensures { result ≡ surroundings.grouped number self }
    {
        Around {
            parent: number,
            group: Some(number),
            direct: false,
            ..self
        }
    }

    /// The same where the group has a TEMPORARY variable.
    pub(crate) fn scoped(self, number: usize) -> Around
        ensures { result ≡ surroundings.scoped number self }
    {
        Around {
            block: number,
            ..self
        }
    }

    /// What stands around the statements of an UPDATE block.
    pub(crate) fn updated(self, number: usize) -> Around
        ensures { result ≡ surroundings.updated number self }
    {
        Around {
            parent: number,
            group: None,
            update: Some(number),
            direct: true,
            ..self
        }
    }
}
