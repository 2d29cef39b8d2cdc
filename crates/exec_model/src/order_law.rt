ghost use Rattle.std.specs.Prelude.{◌≡◌, ◌≢◌, ℕ, ◌<◌, ◌≤◌, ◌⊎◌, ◌↔◌, true, false, List, length, slice_get, Some, Contains};
ghost use Rattle.exec_model.specs.declared.row.Row.{Row};
ghost use Rattle.exec_model.specs.Order.{goes_before, IsInFirst, first};
ghost use Rattle.exec_model.specs.Rows.{row_in};

/// A law of the order in which Ready rows are taken: no process goes before itself, what goes before
/// one that goes before a third goes before the third, and of two processes one goes before the other.
/// The list of the first rows has just the first rows, none twice, in this order, and no more than there
/// are lanes.
pub fn first_is_an_order()
    ensures irreflexive { (p : ℕ) (row : Row) → goes_before p row p row ≡ false }
    ensures transitive { (p o r : ℕ) (a b c : Row)
        → goes_before p a o b ≡ true
        → goes_before o b r c ≡ true
        → goes_before p a r c ≡ true }
    ensures total { (p o : ℕ) (a b : Row) → p ≢ o → (goes_before p a o b ≡ true) ⊎ (goes_before o b p a ≡ true) }
    ensures members { (lanes : ℕ) (rows : List Row) (p : ℕ) → Contains (first lanes rows) p ↔ IsInFirst lanes rows p }
    ensures no_repeats { (lanes : ℕ) (rows : List Row) (i j p : ℕ)
        → slice_get (first lanes rows) i ≡ Some p
        → slice_get (first lanes rows) j ≡ Some p
        → i ≡ j }
    ensures sorted { (lanes : ℕ) (rows : List Row) (i j p o : ℕ)
        → slice_get (first lanes rows) i ≡ Some p
        → slice_get (first lanes rows) j ≡ Some o
        → i < j
        → goes_before p (row_in rows p) o (row_in rows o) ≡ true }
    ensures few { (lanes : ℕ) (rows : List Row) → length (first lanes rows) ≤ lanes }
{}
