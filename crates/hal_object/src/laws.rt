//! What holds of the bytes of images.

ghost use Rattle.std.specs.Prelude.{◌≡◌, ◌++◌, ℕ, List};
ghost use Rattle.hal_values.specs.declared.tables.Cell.{Cell};
ghost use Rattle.hal_values.specs.declared.tables.Item.{Item};
ghost use Rattle.hal_values.specs.declared.tables.ReportName.{ReportName};
ghost use Rattle.hal_values.specs.declared.value.Kind.{Kind};
ghost use Rattle.hal_code.specs.declared.image.ImageParts.{ImageParts};
ghost use Rattle.hal_code.specs.declared.instr.Instr.{Instr};
ghost use Rattle.hal_code.specs.declared.row.Block.{Block};
ghost use Rattle.hal_code.specs.declared.row.OwnPlace.{OwnPlace};
ghost use Rattle.hal_code.specs.declared.row.Process.{Process};
ghost use Rattle.hal_code.specs.declared.row.View.{View};
ghost use Rattle.hal_object.specs.Instructions.{instr_bytes, FitsInstr};
ghost use Rattle.hal_object.specs.Images.{image_bytes, IsSpelled};
ghost use Rattle.hal_object.specs.Kinds.{kind_bytes, FitsKind, cell_bytes, FitsCell, place_bytes, FitsPlace};
ghost use Rattle.hal_object.specs.Rows.{process_bytes, FitsProcess, view_bytes, FitsView, item_bytes, FitsItem, block_bytes, FitsBlock, name_bytes, FitsName};

/// Two images with the same bytes are one, and the bytes of none begin those of another (image document, Bytes).
pub fn images_have_one_spelling()
    ensures { (one other : ImageParts) (x y : List ℕ) → IsSpelled one → IsSpelled other → image_bytes one ++ x ≡ image_bytes other ++ y → (one ≡ other) × (x ≡ y) }
{}

/// The same of the rows of tables, whatever follows them.
pub fn rows_have_one_spelling()
    ensures kinds { (one other : Kind) (x y : List ℕ) → FitsKind one → FitsKind other → kind_bytes one ++ x ≡ kind_bytes other ++ y → (one ≡ other) × (x ≡ y) }
    ensures cells { (one other : Cell) (x y : List ℕ) → FitsCell one → FitsCell other → cell_bytes one ++ x ≡ cell_bytes other ++ y → (one ≡ other) × (x ≡ y) }
    ensures places { (one other : OwnPlace) (x y : List ℕ) → FitsPlace one → FitsPlace other → place_bytes one ++ x ≡ place_bytes other ++ y → (one ≡ other) × (x ≡ y) }
    ensures processes { (one other : Process) (x y : List ℕ) → FitsProcess one → FitsProcess other → process_bytes one ++ x ≡ process_bytes other ++ y → (one ≡ other) × (x ≡ y) }
    ensures views { (one other : View) (x y : List ℕ) → FitsView one → FitsView other → view_bytes one ++ x ≡ view_bytes other ++ y → (one ≡ other) × (x ≡ y) }
    ensures items { (one other : Item) (x y : List ℕ) → FitsItem one → FitsItem other → item_bytes one ++ x ≡ item_bytes other ++ y → (one ≡ other) × (x ≡ y) }
    ensures blocks { (one other : Block) (x y : List ℕ) → FitsBlock one → FitsBlock other → block_bytes one ++ x ≡ block_bytes other ++ y → (one ≡ other) × (x ≡ y) }
    ensures names { (one other : ReportName) (x y : List ℕ) → FitsName one → FitsName other → name_bytes one ++ x ≡ name_bytes other ++ y → (one ≡ other) × (x ≡ y) }
    ensures instructions { (one other : Instr) (x y : List ℕ) → FitsInstr one → FitsInstr other → instr_bytes one ++ x ≡ instr_bytes other ++ y → (one ≡ other) × (x ≡ y) }
{}
