//! Laws of the table: functions that run nothing, whose contract is a theorem about the definitions.

ghost use Rattle.std.specs.Prelude.{◌≡◌, ◌⊎◌, ℕ, List};
ghost use Rattle.hal_operations.specs.declared.operation.Op2.TheVariants.{And, Or, Xor, Less, LessOrEqual, Equal};
ghost use Rattle.hal_operations.specs.Laws.{MakesDividend, IsSmall, IsReduced, IsCongruent, ShiftsBack, ComesBack, IsSymmetric, ChoosesReplacedBits, ChoosesReplacedBytes, Holds};

use crate::part::Part;

/// DIV, REMAINDER and MOD fit together.
pub fn divisions_fit_together(a: i32, b: i32)
    ensures dividend { MakesDividend a b }
    ensures small { IsSmall a b }
    ensures reduced { IsReduced a b }
    ensures congruent { IsCongruent a b }
{
    let _only_named = (a, b);
}

/// SHR undoes a SHL that lost nothing.
pub fn shifts_come_back(a: i32, n: i32)
    ensures { ShiftsBack a n }
{
    let _only_named = (a, n);
}

/// INTEGER undoes BIT.
pub fn bits_come_back(a: i32)
    ensures { ComesBack a }
{
    let _only_named = a;
}

/// AND, OR and XOR are symmetric.
pub fn bitwise_operations_are_symmetric()
    ensures and { IsSymmetric And }
    ensures or { IsSymmetric Or }
    ensures xor { IsSymmetric Xor }
{}

/// The part that was replaced is the new one, cut or filled.
pub fn a_replaced_part_is_chosen(part: Part)
    ensures bits { ChoosesReplacedBits part }
    ensures bytes { ChoosesReplacedBytes part }
{
    let _only_named = part;
}

/// Comparisons are a total order on texts.
pub fn comparisons_order_texts()
    ensures irreflexive { (x : List ℕ) → Holds Less x x → ⊥ }
    ensures transitive { (x y z : List ℕ) → Holds Less x y → Holds Less y z → Holds Less x z }
    ensures total { (x y : List ℕ) → Holds Less x y ⊎ (x ≡ y) ⊎ Holds Less y x }
    ensures equal { (x y : List ℕ) → Holds Equal x y → x ≡ y }
    ensures or_equal { (x y : List ℕ) → Holds LessOrEqual x y → Holds Less x y ⊎ (x ≡ y) }
{}
