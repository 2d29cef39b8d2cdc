//! Laws: functions that run nothing, whose contract is proved of the definitions.

ghost use Rattle.std.specs.Prelude.{◌≡◌, ℕ, List};
ghost use Rattle.hal_base.specs.declared.refusal.Refusal.{Refusal};
ghost use Rattle.hal_grammar.specs.Units.{File};
ghost use Rattle.hal_compile.specs.Texts.{Breaks, HasMeaning};

/// A set of texts has one meaning at most.
pub fn a_set_has_one_meaning()
    ensures { (texts : List (List ℕ)) (files others : List File) → HasMeaning texts files → HasMeaning texts others → files ≡ others }
{}

/// A set of texts with a meaning breaks no rule.
pub fn a_set_with_a_meaning_breaks_nothing()
    ensures { (texts : List (List ℕ)) (files : List File) (refusal : Refusal) → HasMeaning texts files → Breaks texts refusal → ⊥ }
{}
