//! The key under which a name is found.

ghost use Rattle.std.specs.Prelude.{◌∷◌, ◌++◌, []};
ghost use Rattle.std.specs.Hash as fed;
ghost use Rattle.hal_names.specs.KeyHash.{alike};

use hal_words::Name;
use std::hash::{Hash, Hasher};

/// What a name is the name of.
#[derive(Clone, Copy, PartialEq, Eq)]
pub enum Space {
    /// The unit of a file, found from any file of the set.
    Unit,
    /// A block, data, a structure template or a label; or the TEMPORARY variable of a group.
    Declared,
    /// A parameter in the head of its block.
    Parameter,
    /// A part of a structure.
    Part,
}

/// A name among those that one phrase owns.
#[derive(Clone, Copy, PartialEq, Eq)]
pub struct Key {
    pub space: Space,
    /// The number of the phrase that owns the name: of the block, of the group, of the structure or part; 0 for a unit.
    pub owner: usize,
    pub name: Name,
}

// The bytes of the name are written at once, without those behind it, and its kind isn't: few keys differ in that alone.
impl Hash for Key {
    ghost hash_input = { λ k. fed.usize k.owner ++ k.name ∷ [] };

    ghost respects_eq = { alike.fed };

    fn hash<H: Hasher>(&self, state: &mut H) {
        state.write_usize(self.owner);
        state.write(self.name.bytes());
    }
}
