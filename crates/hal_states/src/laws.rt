//! What is made to keep a limit keeps it.

ghost use Rattle.std.specs.Prelude.{ℤ};
ghost use Rattle.hal_values.specs.Kinds.{IsOfKind};
ghost use Rattle.hal_values.specs.Requests.{IsTime};
ghost use Rattle.hal_values.specs.declared.value.Kind.{Kind};
ghost use Rattle.hal_values.specs.declared.value.Value.{Value};
ghost use Rattle.hal_states.specs.OfKinds.{of_kind};
ghost use Rattle.hal_states.specs.Times.{limited};

/// A value that is made to be of a kind is of it, whatever value it was.
pub fn a_made_value_is_of_its_kind()
    ensures { (k : Kind) (v : Value) → IsOfKind k (of_kind k v) }
{}

/// A time that is made to be within the limit is within it, whatever time it was.
pub fn a_made_time_is_within_the_limit()
    ensures { (t : ℤ) → IsTime (limited t) }
{}
