//! Laws: functions that run nothing, whose contract is proved of the definitions.

ghost use Rattle.std.specs.Prelude.{◌≡◌, ◌<◌, ◌≤◌, ℕ, List, Some, None, length};
ghost use Rattle.hal_grammar.specs.Units.{File};
ghost use Rattle.hal_phrases.specs.GatheredUnits.{phrases_of};
ghost use Rattle.hal_names.specs.declared.key.Key.{Key};
ghost use Rattle.hal_names.specs.Keys.{own};
ghost use Rattle.hal_names.specs.Means.{means, nearest};
ghost use Rattle.hal_names.specs.Laws.{IsCounted, BeginsInABlock, LeadsToAFile, declared_or_around, IsFirst, IsUndeclared, IsDeclaration};

/// A phrase's number is its place in the list of the phrases of a set of files.
pub fn phrases_are_counted()
    ensures { (files : List File) → IsCounted (phrases_of files) }
{}

/// The block around a phrase begins before it, so the blocks around it lead to a file.
pub fn blocks_lead_to_a_file()
    ensures before { (files : List File) → BeginsInABlock (phrases_of files) }
    ensures to_a_file { (files : List File) (block : ℕ) → block < length (phrases_of files) → LeadsToAFile (phrases_of files) block }
{}

/// The search for a name up the blocks never runs out: to look at more blocks than there are phrases finds the same, so what a name means in a
/// block is what the block declares, else what the name means in the block around it.
pub fn the_search_never_runs_out()
    ensures deeper { (files : List File) (depth block : ℕ) (name : List ℕ) → length (phrases_of files) ≤ depth
        → nearest (phrases_of files) depth block name ≡ means (phrases_of files) block name }
    ensures outward { (files : List File) (block : ℕ) (name : List ℕ) → means (phrases_of files) block name ≡ declared_or_around (phrases_of files) block name }
{}

/// A key is found at the first phrase that declares it, or none does.
pub fn a_key_is_found_at_its_first_declaration()
    ensures found { (files : List File) (q : Key) (n : ℕ) → own (phrases_of files) q ≡ Some n → IsFirst (phrases_of files) q n }
    ensures lacking { (files : List File) (q : Key) → own (phrases_of files) q ≡ None → IsUndeclared (phrases_of files) q }
{}

/// What a name means declares that name.
pub fn what_is_meant_declares_the_name()
    ensures { (files : List File) (block : ℕ) (name : List ℕ) (n : ℕ) → means (phrases_of files) block name ≡ Some n → IsDeclaration (phrases_of files) name n }
{}
