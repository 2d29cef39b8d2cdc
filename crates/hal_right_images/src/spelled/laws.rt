//! What holds of files that right words spell.

ghost use Rattle.std.specs.Prelude.{ℕ, List, []};
ghost use Rattle.hal_words.specs.declared.word.Token.{Token};
ghost use Rattle.hal_words.specs.Words.{IsCut};
ghost use Rattle.hal_grammar.specs.SpellsFiles.{SpellsFile};
ghost use Rattle.hal_grammar.specs.Units.{File};
ghost use Rattle.hal_phrases.specs.GatheredUnits.{phrases_of};
ghost use Rattle.hal_fit_names.specs.Spelled.{AreSpelled};
ghost use Rattle.hal_fit_names.specs.Suited.{HasFitLiterals};
ghost use Rattle.hal_right_images.specs.rows.Nested.{AllNested};
ghost use Rattle.hal_right_images.specs.rows.Parts.{HaveParts};
ghost use Rattle.hal_right_images.specs.spelled.Words.{AreAllSpelled, AreRightWords, IsSpelled};

/// The phrases of files that right words spell have literals that values can be, lists that aren't empty, decimals that are times, and structures with parts; and units stand in units that may
/// hold them (language document, Words and Grammar).
pub fn what_right_words_spell_is_spelled()
    ensures literals { (files : List File) → AreAllSpelled files → HasFitLiterals (phrases_of files) }
    ensures lists { (files : List File) → AreAllSpelled files → AreSpelled (phrases_of files) }
    ensures nested { (files : List File) → AreAllSpelled files → AllNested files }
    ensures parts { (files : List File) → AreAllSpelled files → HaveParts (phrases_of files) }
{}

/// The words of a text are right: numbers, texts and bits are within their limits, and thousandths are a time; so right words spell its file (language document, Words).
pub fn the_words_of_a_text_are_right()
    ensures file { (unit : ℕ) (text : List ℕ) (tokens : List Token) (file : File) → IsCut unit text tokens → SpellsFile file tokens [] → IsSpelled file }
    ensures words { (unit : ℕ) (text : List ℕ) (tokens : List Token) → IsCut unit text tokens → AreRightWords tokens }
{}
