//! The laws of the grammar: functions that run nothing, whose contract is the law.

ghost use Rattle.std.specs.Prelude.{◌≡◌, ◌<◌, [], length};
ghost use Rattle.hal_grammar.specs.Expressions.{Expression, place_of};
ghost use Rattle.hal_grammar.specs.Declarations.{Declaration};
ghost use Rattle.hal_grammar.specs.Statements.{Statement, place_of_statement};
ghost use Rattle.hal_grammar.specs.Units.{Block, File};
ghost use Rattle.hal_grammar.specs.Words.{Words, At};
ghost use Rattle.hal_grammar.specs.GoesOn.{Outcome};
ghost use Rattle.hal_grammar.specs.SpellsExpressions.{SpellsExpression};
ghost use Rattle.hal_grammar.specs.SpellsDeclarations.{SpellsDeclaration};
ghost use Rattle.hal_grammar.specs.SpellsStatements.{SpellsStatement};
ghost use Rattle.hal_grammar.specs.SpellsFiles.{SpellsBlock, SpellsFile};

/// Each phrase takes a word at least.
pub fn takes_a_word()
    ensures expression { (t : Expression) (words after : Words) → SpellsExpression t words after → length after < length words }
    ensures declaration { (d : Declaration) (words after : Words) → SpellsDeclaration d words after → length after < length words }
    ensures statement { (s : Statement) (words after : Words) → SpellsStatement s words after → length after < length words }
    ensures unit { (u : Block) (words after : Words) → SpellsBlock u words after → length after < length words }
    ensures file { (f : File) (words after : Words) → SpellsFile f words after → length after < length words }
{}

/// A tree's place is that of the first word that spells it.
pub fn stands_at_its_first_word()
    ensures expression { (t : Expression) (words after : Words) → SpellsExpression t words after → At (place_of t) words }
    ensures statement { (s : Statement) (words after : Words) → SpellsStatement s words after → At (place_of_statement s) words }
{}

/// Words up to the same end spell one expression at most.
pub fn one_expression()
    ensures { (t u : Expression) (words after : Words) → SpellsExpression t words after → SpellsExpression u words after → t ≡ u }
{}

/// The same words spell one expression, or one of two expressions ends sooner, at a word with which it goes on.
pub fn expression_goes_on()
    ensures { (t u : Expression) (words a b : Words) → SpellsExpression t words a → SpellsExpression u words b → Outcome 2 t a u b }
{}

/// The same words spell one declaration at most.
pub fn one_declaration()
    ensures { (d e : Declaration) (words a b : Words) → SpellsDeclaration d words a → SpellsDeclaration e words b → (d ≡ e) × (a ≡ b) }
{}

/// The same words spell one statement at most.
pub fn one_statement()
    ensures { (s t : Statement) (words a b : Words) → SpellsStatement s words a → SpellsStatement t words b → (s ≡ t) × (a ≡ b) }
{}

/// The same words spell one unit at most.
pub fn one_unit()
    ensures { (u v : Block) (words a b : Words) → SpellsBlock u words a → SpellsBlock v words b → (u ≡ v) × (a ≡ b) }
{}

/// The words of a file are spelled by one tree at most, and no file goes on behind its unit.
pub fn one_tree()
    ensures whole { (f g : File) (words : Words) → SpellsFile f words [] → SpellsFile g words [] → f ≡ g }
    ensures front { (f g : File) (words a b : Words) → SpellsFile f words a → SpellsFile g words b → (f ≡ g) × (a ≡ b) }
{}
