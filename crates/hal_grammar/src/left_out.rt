//! Laws of the parts that may be left out: what the grammar lets follow them begins with another word than they do, so the relation's conditions on
//! what follows refuse nothing. The ELSE of an IF
//! and the name alone are no such parts: there the condition is the choice.

ghost use Rattle.std.specs.Prelude.{ℕ, List, Option, Bool};
ghost use Rattle.hal_base.specs.declared.refusal.Place.{Place};
ghost use Rattle.hal_words.specs.declared.reserved.Reserved.TheVariants as reserved;
ghost use Rattle.hal_words.specs.declared.word.Symbol.TheVariants as symbol;
ghost use Rattle.hal_grammar.specs.Leaves.{Naming, LiteralValue};
ghost use Rattle.hal_grammar.specs.Expressions.{Expression, Reference};
ghost use Rattle.hal_grammar.specs.Declarations.{Attribute};
ghost use Rattle.hal_grammar.specs.Statements.{Guard, Cycle, Response, Statement, Basic, Group};
ghost use Rattle.hal_grammar.specs.Units.{Mode, Precision, Returns, Elements};
ghost use Rattle.hal_grammar.specs.Words.{Words, symbol_then, name_then, reserved_then, BeginsReserved, BeginsSymbol};
ghost use Rattle.hal_grammar.specs.SpellsExpressions.{SpellsLiteral};
ghost use Rattle.hal_grammar.specs.SpellsDeclarations.{SpellsAttributes};
ghost use Rattle.hal_grammar.specs.SpellsStatements.{SpellsReceivers, SpellsGuard, SpellsPriority, SpellsDependent, SpellsCycle, SpellsResponse, SpellsStatement, SpellsBasic, SpellsGroup, BeginsLabel};
ghost use Rattle.hal_grammar.specs.SpellsFiles.{SpellsOutputs, SpellsModeEnd, SpellsPrecisionEnd, SpellsReturnsEnd, SpellsElements};

/// What follows a part of a declaration that is left out.
pub fn left_out_of_declarations()
    ensures copies { (xs : List Attribute) (b a : Words) → SpellsAttributes xs b a → ¬ BeginsSymbol symbol.LeftParenthesis b }
    ensures copies_of_result { (x : Option Precision) (m : Option Mode) (b a : Words) → SpellsPrecisionEnd x m b a → ¬ BeginsSymbol symbol.LeftParenthesis b }
    ensures sign { (l : LiteralValue) (p : Place) (b a : Words) → SpellsLiteral l p b a → ¬ BeginsSymbol symbol.Plus b × ¬ BeginsSymbol symbol.Minus b }
    ensures sign_of_name { (n : List ℕ) (p : Place) (a : Words) → ¬ BeginsSymbol symbol.Plus (name_then n p a) × ¬ BeginsSymbol symbol.Minus (name_then n p a) }
{}

/// What follows a part of a statement that is left out.
pub fn left_out_of_statements()
    ensures arguments { (xs : List Reference) (p : Place) (b a : Words) → SpellsReceivers xs b (symbol_then symbol.Semicolon p a) → ¬ BeginsSymbol symbol.LeftParenthesis b }
    ensures receivers { (p : Place) (a : Words) → ¬ BeginsReserved reserved.Assign (symbol_then symbol.Semicolon p a) }
    ensures guard { (p : Place) (a : Words) → ¬ BeginsReserved reserved.While (symbol_then symbol.Semicolon p a) × ¬ BeginsReserved reserved.Until (symbol_then symbol.Semicolon p a) }
    ensures step { (g : Option Guard) (p : Place) (b a : Words) → SpellsGuard g b (symbol_then symbol.Semicolon p a) → ¬ BeginsReserved reserved.By b }
    ensures selector { (s : Statement) (b a : Words) → SpellsStatement s b a → ¬ BeginsSymbol symbol.Dollar b }
    ensures selector_of_response { (r : Response) (b a : Words) → SpellsResponse r b a → ¬ BeginsSymbol symbol.Dollar b }
    ensures selector_of_off { (p : Place) (a : Words) → ¬ BeginsSymbol symbol.Dollar (symbol_then symbol.Semicolon p a) }
    ensures temporary { (n : List ℕ) (p : Place) (a : Words) → ¬ BeginsReserved reserved.Temporary (name_then n p a) }
    ensures alternative_of_case { (g : Group) (b a : Words) → SpellsGroup g b a → ¬ BeginsReserved reserved.Else b }
    ensures labels { (x : Basic) (b a : Words) → SpellsBasic x b a → ¬ BeginsLabel b }
{}

/// What follows a part of SCHEDULE that is left out.
pub fn left_out_of_schedules()
    ensures start { (t : Option Expression) (d : Bool) (c : Option Cycle) (g : Option Guard) (p : Place) (rank depends cycle guard a : Words) →
        SpellsPriority t rank depends → SpellsDependent d depends cycle → SpellsCycle c cycle guard → SpellsGuard g guard (symbol_then symbol.Semicolon p a) →
        ¬ BeginsReserved reserved.At rank × ¬ BeginsReserved reserved.In rank × ¬ BeginsReserved reserved.On rank }
    ensures priority { (d : Bool) (c : Option Cycle) (g : Option Guard) (p : Place) (depends cycle guard a : Words) → SpellsDependent d depends cycle →
        SpellsCycle c cycle guard → SpellsGuard g guard (symbol_then symbol.Semicolon p a) → ¬ BeginsReserved reserved.Priority depends }
    ensures dependent { (c : Option Cycle) (g : Option Guard) (p : Place) (cycle guard a : Words) → SpellsCycle c cycle guard →
        SpellsGuard g guard (symbol_then symbol.Semicolon p a) → ¬ BeginsReserved reserved.Dependent cycle }
    ensures cycle { (g : Option Guard) (p : Place) (b a : Words) → SpellsGuard g b (symbol_then symbol.Semicolon p a) →
        ¬ BeginsSymbol symbol.Comma b × ¬ BeginsReserved reserved.Repeat b × ¬ BeginsReserved reserved.Every b × ¬ BeginsReserved reserved.After b }
    ensures comma { (p : Place) (a : Words) → ¬ BeginsSymbol symbol.Comma (reserved_then reserved.Repeat p a) }
{}

/// What follows a part of a unit that is left out.
pub fn left_out_of_units()
    ensures inputs { (ns : List Naming) (m : Option Mode) (b middle a : Words) → SpellsOutputs ns b middle → SpellsModeEnd m middle a → ¬ BeginsSymbol symbol.LeftParenthesis b }
    ensures inputs_of_function { (r : Returns) (m : Option Mode) (b a : Words) → SpellsReturnsEnd r m b a → ¬ BeginsSymbol symbol.LeftParenthesis b }
    ensures outputs { (m : Option Mode) (b a : Words) → SpellsModeEnd m b a → ¬ BeginsReserved reserved.Assign b }
    ensures declarations { (es : Elements) (c : Option Naming) (b a : Words) → SpellsElements es c b a → ¬ BeginsReserved reserved.Declare b × ¬ BeginsReserved reserved.Structure b }
    ensures declarations_of_template { (p : Place) (a : Words) → ¬ BeginsReserved reserved.Declare (reserved_then reserved.Close p a) × ¬ BeginsReserved reserved.Structure (reserved_then reserved.Close p a) }
{}
