//! Rows as laws: functions that run nothing, whose contract the checker computes from the definitions.

ghost use Rattle.std.specs.Prelude.{◌≡◌, ◌∷◌, [], codes};
ghost use Rattle.hal_words.specs.declared.reserved.Reserved.TheVariants as reserved;
ghost use Rattle.hal_words.specs.declared.word.Symbol.TheVariants as symbol;
ghost use Rattle.hal_words.specs.declared.word.Word.TheVariants as word;
ghost use Rattle.hal_words.specs.Pieces.{Is, Open, Replacement, Wrong, piece};
ghost use Rattle.hal_words.specs.Lines.{item, place_at};
ghost use Rattle.hal_words.specs.Items.{file_items};
ghost use Rattle.hal_words.specs.Words.{file_words};

/// What stands at a byte.
#[tactic(auto, unfolding(crate::specs::Reserved::reserved_words, crate::specs::Reserved::left_out_words))]
pub fn pieces_of_texts()
    ensures name { piece (codes "Step_2 + 1") ≡ (Is (word.Name (codes "STEP_2")), 6) }
    ensures reserved { piece (codes "close P;") ≡ (Is (word.Reserved reserved.Close), 5) }
    ensures left_out { piece (codes "SCALAR") ≡ (Wrong 301, 6) }
    ensures integer { piece (codes "007;") ≡ (Is (word.Integer 7), 3) }
    ensures runs_on { piece (codes "12AB") ≡ (Wrong 208, 2) }
    ensures large { piece (codes "2147483648") ≡ (Wrong 204, 10) }
    ensures decimal { piece (codes "0.04,") ≡ (Is (word.Decimal 40), 4) }
    ensures point { piece (codes ".5") ≡ (Is (word.Decimal 500), 2) }
    ensures text { piece (codes "'DON''T' X") ≡ (Is (word.Text (codes "DON'T")), 8) }
    ensures open { piece (codes "'DON''T") ≡ (Wrong 202, 7) }
    ensures bits { piece (codes "HEX 'FF'") ≡ (Is (word.Bits 8 255), 8) }
    ensures decimal_bits { piece (codes "DEC'010'") ≡ (Is (word.Bits 4 10), 8) }
    ensures power { piece (codes "**2") ≡ (Is (word.Symbol symbol.Power), 2) }
    ensures cat { piece (codes "||") ≡ (Is (word.Reserved reserved.Cat), 2) }
{}

/// The items of a file of four lines.
#[tactic(auto, unfolding(crate::specs::Reserved::reserved_words, crate::specs::Reserved::left_out_words))]
pub fn items_of_a_file()
    ensures { file_items 0 (codes " P: /* A\nC IN\n B */ 5.\nE  2\n") ≡
        item (Is (word.Name (codes "P"))) (place_at 0 1 2)
        ∷ item (Is (word.Symbol symbol.Colon)) (place_at 0 1 3)
        ∷ item (Is (word.Decimal 5000)) (place_at 0 3 7)
        ∷ item (Wrong 101) (place_at 0 4 1)
        ∷ [] }
{}

/// The words of files with REPLACE.
#[tactic(auto, unfolding(crate::specs::Reserved::reserved_words, crate::specs::Reserved::left_out_words))]
pub fn words_of_files()
    ensures replaced { file_words 0 (codes " REPLACE STEP BY \"N + 2\"; N = STEP;") ≡
        item (Is (word.Name (codes "N"))) (place_at 0 1 27)
        ∷ item (Is (word.Symbol symbol.Equals)) (place_at 0 1 29)
        ∷ item (Is (word.Name (codes "N"))) (place_at 0 1 31)
        ∷ item (Is (word.Symbol symbol.Plus)) (place_at 0 1 31)
        ∷ item (Is (word.Integer 2)) (place_at 0 1 31)
        ∷ item (Is (word.Symbol symbol.Semicolon)) (place_at 0 1 35)
        ∷ [] }
    ensures in_turn { file_words 0 (codes " REPLACE A BY \"B\"; REPLACE B BY \"7\"; A REPLACE B BY \"8\"; A") ≡
        item (Is (word.Integer 7)) (place_at 0 1 38)
        ∷ item (Is (word.Integer 8)) (place_at 0 1 58)
        ∷ [] }
    ensures in_its_own { file_words 0 (codes " REPLACE A BY \"B\"; REPLACE B BY \"1 A\"; A") ≡
        item (Is (word.Integer 1)) (place_at 0 1 40)
        ∷ item (Wrong 205) (place_at 0 1 40)
        ∷ [] }
    ensures formless { file_words 0 (codes " REPLACE A \"B\";") ≡
        item (Wrong 207) (place_at 0 1 2)
        ∷ item (Is (word.Name (codes "A"))) (place_at 0 1 10)
        ∷ item (Wrong 201) (place_at 0 1 12)
        ∷ item (Is (word.Symbol symbol.Semicolon)) (place_at 0 1 15)
        ∷ [] }
{}

/// A `"` that opens no text of a definition begins no word, and hides no comment and no literal behind it.
#[tactic(auto, unfolding(crate::specs::Reserved::reserved_words, crate::specs::Reserved::left_out_words))]
pub fn marks_that_open_no_text()
    ensures comment { file_items 0 (codes " \"/*\"*/") ≡ item (Wrong 201) (place_at 0 1 2) ∷ [] }
    ensures literal { file_items 0 (codes " \"'\"1A") ≡
        item (Wrong 201) (place_at 0 1 2)
        ∷ item (Wrong 202) (place_at 0 1 3)
        ∷ [] }
{}
