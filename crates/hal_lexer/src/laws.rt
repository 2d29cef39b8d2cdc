//! Laws: functions that run nothing, whose contract is proved of the definitions.

ghost use Rattle.std.specs.Prelude.{ℕ, List};
ghost use Rattle.hal_base.specs.declared.refusal.Place.{Place};
ghost use Rattle.hal_words.specs.declared.word.Token.{Token};
ghost use Rattle.hal_words.specs.Words.{BreaksWordRule, IsCut};

/// A text that has words breaks no rule of words, so that `tokens` answers words exactly where none is
/// broken, or memory was wanting.
pub fn a_text_with_words_breaks_nothing()
    ensures { (unit : ℕ) (text : List ℕ) (tokens : List Token) (rule : ℕ) (place : Place)
        → IsCut unit text tokens → BreaksWordRule unit text rule place → ⊥ }
{}
