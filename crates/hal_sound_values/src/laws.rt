//! Laws of the values: functions that run nothing, whose contract is a theorem about the definitions.

ghost use Rattle.std.specs.Prelude.{◌≡◌, IfOk, Ok};
ghost use Rattle.hal_values.specs.declared.value.Kind.{Kind};
ghost use Rattle.hal_values.specs.declared.value.Value.{Value};
ghost use Rattle.hal_values.specs.Kinds.{IsKind, IsOfKind, IsDatum};
ghost use Rattle.hal_operations.specs.declared.operation.Op1.{Op1};
ghost use Rattle.hal_operations.specs.declared.operation.Op2.{Op2};
ghost use Rattle.hal_operations.specs.declared.part.Part.{Part};
ghost use Rattle.hal_operations.specs.Mended.{mended_of_one, mended_of_two};
ghost use Rattle.hal_operations.specs.Operands.{IsStorable, Takes, TakesBoth};
ghost use Rattle.hal_operations.specs.Parts.{picked, patched, mended_pick, mended_patch};
ghost use Rattle.hal_operations.specs.Stores.{stored, mended_store};
ghost use Rattle.hal_operations.specs.Values.{value_of_one, value_of_two};
ghost use Rattle.hal_sound_values.specs.Right.{IsRight, IsAlso, IsPart};
ghost use Rattle.hal_sound_values.specs.Given.{IsGivenByOne, IsGivenByTwo};

/// Each operation gives right values from right ones, also after an ignored error.
pub fn operations_give_right_values()
    ensures one { (op : Op1) (v : Value) → IsRight v → IfOk (value_of_one op v) IsRight }
    ensures mended_one { (op : Op1) (v : Value) → IsRight v → IsRight (mended_of_one op v) }
    ensures two { (op : Op2) (v w : Value) → IsRight v → IsRight w → IfOk (value_of_two op v w) IsRight }
    ensures mended_two { (op : Op2) (v w : Value) → IsRight v → IsRight w → IsRight (mended_of_two op v w) }
{}

/// What a cell holds after a store is of the cell's kind, also after an ignored error; and a value of the kind stays as it is.
pub fn cells_hold_values_of_their_kinds()
    ensures stored { (k : Kind) (v : Value) → IsRight v → IsStorable k v → IfOk (stored k v) (IsOfKind k) }
    ensures mended { (k : Kind) (v : Value) → IsRight v → IsStorable k v → IsOfKind k (mended_store k v) }
    ensures stays { (k : Kind) (v : Value) → IsOfKind k v → stored k v ≡ Ok v }
{}

/// A part of a right value is a right one of the same sort, with as many places as the part chooses; after an ignored error it is right
/// too, and of the same sort.
pub fn parts_are_right_values()
    ensures chosen { (v : Value) (part : Part) → IsRight v → IfOk (picked v part) (IsPart part v) }
    ensures mended { (v : Value) (part : Part) → IsRight v → IsAlso v (mended_pick v part) }
{}

/// A value whose part was replaced is of the kind that it was of, also after an ignored error.
pub fn replaced_parts_keep_kinds()
    ensures replaced { (k : Kind) (v new : Value) (part : Part) → IsOfKind k v → IfOk (patched v part new) (IsOfKind k) }
    ensures mended { (k : Kind) (v new : Value) (part : Part) → IsKind k → IsOfKind k v → IsOfKind k (mended_patch v part new) }
{}

/// The right values are those of the kinds that a declaration can have; and a datum that READ takes can be stored.
pub fn right_values_have_kinds()
    ensures right { (k : Kind) (v : Value) → IsKind k → IsOfKind k v → IsRight v }
    ensures kind { (v : Value) → IsRight v → (k : Kind) × IsKind k × IsOfKind k v }
    ensures datum { (k : Kind) (v : Value) → IsKind k → IsDatum k v → IsRight v × IsStorable k v }
{}

/// Of operands that it takes an operation gives a value of its kind, also after an ignored error: a comparison one bit, a sum an integer,
/// and so on.
pub fn operations_give_values_of_their_kinds()
    ensures one { (op : Op1) (v : Value) → IsRight v → Takes op v → IfOk (value_of_one op v) (IsGivenByOne op v) }
    ensures mended_one { (op : Op1) (v : Value) → IsRight v → Takes op v → IsGivenByOne op v (mended_of_one op v) }
    ensures two { (op : Op2) (v w : Value) → IsRight v → TakesBoth op v w → IfOk (value_of_two op v w) (IsGivenByTwo op v w) }
    ensures mended_two { (op : Op2) (v w : Value) → IsRight v → TakesBoth op v w → IsGivenByTwo op v w (mended_of_two op v w) }
{}
