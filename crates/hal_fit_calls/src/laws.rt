//! What holds of units that are called.

ghost use Rattle.std.specs.Prelude.{◌≡◌, ℕ, true, List, Some};
ghost use Rattle.std.specs.Option.{is_some};
ghost use Rattle.hal_phrases.specs.Phrases.{Phrase};
ghost use Rattle.hal_scope.specs.Rules.{IsAmong, IsSound};
ghost use Rattle.hal_meaning.specs.Bodies.{callee, callees};
ghost use Rattle.hal_meaning.specs.Places.{unit_numbers};
ghost use Rattle.hal_reach.specs.Places.{is_among};
ghost use Rattle.hal_locks.specs.Rules.{lock_rows};
ghost use Rattle.hal_fit_calls.specs.Harmless.{AllHarmless, IsHarmless};

/// Where a set breaks no rule of locks, what a phrase in an UPDATE block calls does nothing that an UPDATE block may not do, nor does what that calls in turn (language
/// document, UPDATE blocks).
pub fn what_update_blocks_call_is_harmless()
    ensures called { (ps : List Phrase) → IsSound lock_rows ps → (p : Phrase) (q : ℕ) → IsAmong p ps → is_some p.around.update ≡ true → callee ps p ≡ Some q → AllHarmless ps q }
    ensures itself { (ps : List Phrase) (q : ℕ) → AllHarmless ps q → IsHarmless ps q }
    ensures on { (ps : List Phrase) (q r : ℕ) → is_among (unit_numbers ps) q ≡ true → is_among (callees ps q) r ≡ true → AllHarmless ps q → AllHarmless ps r }
{}
