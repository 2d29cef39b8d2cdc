//! Rows as laws: trees and the words that spell them, at any places.

ghost use Rattle.std.specs.Prelude.{false, ◌≡◌, ◌∷◌, [], Some, None, codes};
ghost use Rattle.hal_base.specs.declared.refusal.Place.{Place};
ghost use Rattle.hal_words.specs.declared.reserved.Reserved.TheVariants as reserved;
ghost use Rattle.hal_words.specs.declared.word.Symbol.TheVariants as symbol;
ghost use Rattle.hal_words.specs.declared.word.Word.TheVariants as word;
ghost use Rattle.hal_grammar.specs.Leaves.{naming, Plus, Minus, Equal, Integer, Text};
ghost use Rattle.hal_grammar.specs.Expressions.{Decimal, Expression, nesting, ByInteger, Compare, Sum, Product, Power, Not, Literal, Referred, Parenthesis, NoExpressions, MoreExpressions, NoTerms, MoreTerms, Refers, Unsubscripted, ByParts, NoSubscripts, MoreSubscripts, One, FromEnd};
ghost use Rattle.hal_grammar.specs.Declarations.{Dimensions, InitialValues, MoreInitials, NoInitials, ListTimes, NameTimes, Value, Typed, IntegerKind, declared_of, Declare};
ghost use Rattle.hal_grammar.specs.Statements.{Scheduled, scheduling, StartOn, CyclicEvery, While, OnErrorStatement, GroupErrors, Write, nesting_of_basic, Groups, Do, Update, Return, NoStatements, MoreStatements, Labelled, Null, Assignment, If, NoAlternative, Otherwise};
ghost use Rattle.hal_grammar.specs.Units.{Include, Templates, template_of, Function, Compool, HasKind, DoublePrecision, nesting_of_block, Program, BlockOf, NoElements, StatementFirst, file_of};
ghost use Rattle.hal_grammar.specs.Words.{token, Words, reserved_then, symbol_then, name_then, integer_then};
ghost use Rattle.hal_grammar.specs.SpellsExpressions.{SpellsExpression};
ghost use Rattle.hal_grammar.specs.SpellsDeclarations.{SpellsDeclaration};
ghost use Rattle.hal_grammar.specs.SpellsStatements.{SpellsStatement};
ghost use Rattle.hal_grammar.specs.SpellsFiles.{SpellsFile};

/// What some words spell.
pub fn words_of_trees()
    // `2 (3 + 4) 5` is one product
    ensures product { (a b c d e f g : Place) → SpellsExpression
        (Product a (Literal a (Integer 2)) (MoreExpressions
        (Parenthesis b (Sum c None (Literal c (Integer 3)) (MoreTerms d Plus (Literal e (Integer 4)) NoTerms)))
        (MoreExpressions (Literal g (Integer 5)) NoExpressions)))
        (integer_then 2 a (symbol_then symbol.LeftParenthesis b (integer_then 3 c (symbol_then symbol.Plus d (integer_then 4 e
        (symbol_then symbol.RightParenthesis f (integer_then 5 g [])))))))
        [] }
    // `-2**2` negates the power
    ensures power { (a b c d : Place) → SpellsExpression
        (Sum a (Some Minus) (Power b (Literal b (Integer 2)) (Literal d (Integer 2))) NoTerms)
        (symbol_then symbol.Minus a (integer_then 2 b (symbol_then symbol.Power c (integer_then 2 d []))))
        [] }
    // `A$(#-1)` is the place before the last
    ensures from_end { (a b c d e f g : Place) → SpellsExpression
        (Referred (Refers a (codes "A") [] (ByParts b NoSubscripts NoSubscripts
        (MoreSubscripts (One (FromEnd d (MoreTerms e Minus (Literal f (Integer 1)) NoTerms))) NoSubscripts))))
        (name_then (codes "A") a (symbol_then symbol.Dollar b (symbol_then symbol.LeftParenthesis c (symbol_then symbol.Number d (symbol_then symbol.Minus e
        (integer_then 1 f (symbol_then symbol.RightParenthesis g [])))))))
        [] }
    // `NOT A = B` compares what NOT gives
    ensures comparison { (a b c d : Place) → SpellsExpression
        (Compare a (Not a (Referred (Refers b (codes "A") [] Unsubscripted))) Equal (Referred (Refers d (codes "B") [] Unsubscripted)))
        (reserved_then reserved.Not a (name_then (codes "A") b (symbol_then symbol.Equals c (name_then (codes "B") d []))))
        [] }
    // `IF A THEN IF B THEN ; ELSE ;` has its ELSE in the inner IF
    ensures nearest { (a b c d e f g h i : Place) → SpellsStatement
        (Labelled [] (If a (Referred (Refers b (codes "A") [] Unsubscripted))
        (Labelled [] (If d (Referred (Refers e (codes "B") [] Unsubscripted)) (Labelled [] (Null g)) (Otherwise (Labelled [] (Null i)))))
        NoAlternative))
        (reserved_then reserved.If a (name_then (codes "A") b (reserved_then reserved.Then c (reserved_then reserved.If d (name_then (codes "B") e
        (reserved_then reserved.Then f (symbol_then symbol.Semicolon g (reserved_then reserved.Else h (symbol_then symbol.Semicolon i [])))))))))
        [] }
    // `P: PROGRAM; DECLARE N INTEGER; N = 1; CLOSE P;`
    ensures program { (a b c d e f g h i j k l m n o : Place) → SpellsFile
        (file_of [] (BlockOf (naming a (codes "P")) (Program c) (Declare e [] (declared_of (naming f (codes "N")) (Typed (IntegerKind g) ∷ []) ∷ []) ∷ [])
        (StatementFirst (Labelled [] (Assignment i (Refers i (codes "N") [] Unsubscripted ∷ []) (Literal k (Integer 1)))) NoElements)
        (Some (naming n (codes "P")))))
        (name_then (codes "P") a (symbol_then symbol.Colon b (reserved_then reserved.Program c (symbol_then symbol.Semicolon d
        (reserved_then reserved.Declare e (name_then (codes "N") f (reserved_then reserved.Integer g (symbol_then symbol.Semicolon h
        (name_then (codes "N") i (symbol_then symbol.Equals j (integer_then 1 k (symbol_then symbol.Semicolon l
        (reserved_then reserved.Close m (name_then (codes "P") n (symbol_then symbol.Semicolon o [])))))))))))))))
        [] }
    // no expression begins with `A ( +`
    ensures open { (a b c : Place) (t : Expression) (after : Words) →
        SpellsExpression t (name_then (codes "A") a (symbol_then symbol.LeftParenthesis b (symbol_then symbol.Plus c []))) after → ⊥ }
{}

/// How deep some trees are nested.
pub fn nesting_of_trees()
    // `NOT (1)`
    ensures not { (a b c : Place) → nesting (Not a (Parenthesis b (Literal c (Integer 1)))) ≡ 2 }
    // `A$1`
    ensures subscript { (a b c : Place) → nesting (Referred (Refers a (codes "A") [] (ByInteger b c 1))) ≡ 1 }
    // `DO; END;`
    ensures empty_group { (a : Place) → nesting_of_basic (Do a (Groups NoStatements None)) ≡ 0 }
    // `DO; ; END;`
    ensures group { (a b : Place) → nesting_of_basic (Do a (Groups (MoreStatements (Labelled [] (Null b)) NoStatements) None)) ≡ 1 }
    // `UPDATE; CLOSE;`
    ensures update { (a : Place) → nesting_of_basic (Update a NoStatements None) ≡ 1 }
    // `P: PROGRAM; ; CLOSE;`
    ensures unit { (a b c : Place) → nesting_of_block (BlockOf (naming a (codes "P")) (Program b) [] (StatementFirst (Labelled [] (Null c)) NoElements) None) ≡ 1 }
    // `P: PROGRAM; IF 1 THEN RETURN (1); CLOSE;`: the unit, the statement after THEN, and its parenthesis
    ensures path { (a b c d e : Place) → nesting_of_block (BlockOf (naming a (codes "P")) (Program b) []
        (StatementFirst (Labelled [] (If c (Literal d (Integer 1)) (Labelled [] (Return e (Some (Parenthesis d (Literal d (Integer 1)))))) NoAlternative)) NoElements) None) ≡ 3 }
{}

/// What some more words spell: factored attributes and lists in initial values, a schedule, a statement for errors, a file with a template.
pub fn words_of_larger_trees()
    // `DECLARE INTEGER, A ARRAY(3) INITIAL(2#(1), 2#-B);`
    ensures declaration { (a b c d e f g h i j k l m n o p q r s t u v : Place) → SpellsDeclaration
        (Declare a (Typed (IntegerKind b) ∷ []) (declared_of (naming d (codes "A"))
        (Dimensions e (MoreExpressions (Literal g (Integer 3)) NoExpressions)
        ∷ InitialValues i (MoreInitials (ListTimes k 2 (MoreInitials (Value (Literal n (Integer 1))) NoInitials))
        (MoreInitials (NameTimes q 2 (Some Minus) (naming t (codes "B"))) NoInitials))
        ∷ []) ∷ []))
        (reserved_then reserved.Declare a (reserved_then reserved.Integer b (symbol_then symbol.Comma c (name_then (codes "A") d
        (reserved_then reserved.Array e (symbol_then symbol.LeftParenthesis f (integer_then 3 g (symbol_then symbol.RightParenthesis h
        (reserved_then reserved.Initial i (symbol_then symbol.LeftParenthesis j
        (integer_then 2 k (symbol_then symbol.Number l (symbol_then symbol.LeftParenthesis m (integer_then 1 n (symbol_then symbol.RightParenthesis o (symbol_then symbol.Comma p
        (integer_then 2 q (symbol_then symbol.Number r (symbol_then symbol.Minus s (name_then (codes "B") t
        (symbol_then symbol.RightParenthesis u (symbol_then symbol.Semicolon v []))))))))))))))))))))))
        [] }
    // `SCHEDULE P ON E, REPEAT EVERY 5.5 WHILE F;`
    ensures schedule { (a b c d e f g h i j k : Place) → SpellsStatement
        (Labelled [] (Scheduled a (scheduling (naming b (codes "P")) (Some (StartOn c (Referred (Refers d (codes "E") [] Unsubscripted)))) None false
        (Some (CyclicEvery f (Decimal h 5500))) (Some (While i (Referred (Refers j (codes "F") [] Unsubscripted)))))))
        (reserved_then reserved.Schedule a (name_then (codes "P") b (reserved_then reserved.On c (name_then (codes "E") d (symbol_then symbol.Comma e
        (reserved_then reserved.Repeat f (reserved_then reserved.Every g (token (word.Decimal 5500) h ∷ reserved_then reserved.While i (name_then (codes "F") j
        (symbol_then symbol.Semicolon k []))))))))))
        [] }
    // `ON ERROR$(1:*) WRITE(6) 'X', A;`
    ensures handler { (a b c d e f g h i j k l m n o p : Place) → SpellsStatement
        (Labelled [] (OnErrorStatement a (GroupErrors c e 1) (Labelled [] (Write i (Literal k (Integer 6))
        (MoreExpressions (Literal m (Text (codes "X"))) (MoreExpressions (Referred (Refers o (codes "A") [] Unsubscripted)) NoExpressions))))))
        (reserved_then reserved.On a (reserved_then reserved.Error b (symbol_then symbol.Dollar c (symbol_then symbol.LeftParenthesis d (integer_then 1 e
        (symbol_then symbol.Colon f (symbol_then symbol.Star g (symbol_then symbol.RightParenthesis h
        (reserved_then reserved.Write i (symbol_then symbol.LeftParenthesis j (integer_then 6 k (symbol_then symbol.RightParenthesis l
        (token (word.Text (codes "X")) m ∷ symbol_then symbol.Comma n (name_then (codes "A") o (symbol_then symbol.Semicolon p [])))))))))))))))
        [] }
    // `INCLUDE C`, `T: EXTERNAL FUNCTION(X) INTEGER DOUBLE; CLOSE;`, `P: COMPOOL; CLOSE P;`
    ensures file { (a b c d e f g h i j k l m n o p q r s t u : Place) → SpellsFile
        (file_of (Include a (naming b (codes "C")) ∷ Templates (template_of (naming c (codes "T"))
        (Function f (naming h (codes "X") ∷ []) (HasKind (IntegerKind j) (Some (DoublePrecision k))) None) [] None) ∷ [])
        (BlockOf (naming o (codes "P")) (Compool q) [] NoElements (Some (naming t (codes "P")))))
        (reserved_then reserved.Include a (name_then (codes "C") b
        (name_then (codes "T") c (symbol_then symbol.Colon d (reserved_then reserved.External e (reserved_then reserved.Function f
        (symbol_then symbol.LeftParenthesis g (name_then (codes "X") h (symbol_then symbol.RightParenthesis i (reserved_then reserved.Integer j
        (reserved_then reserved.Double k (symbol_then symbol.Semicolon l (reserved_then reserved.Close m (symbol_then symbol.Semicolon n
        (name_then (codes "P") o (symbol_then symbol.Colon p (reserved_then reserved.Compool q (symbol_then symbol.Semicolon r
        (reserved_then reserved.Close s (name_then (codes "P") t (symbol_then symbol.Semicolon u [])))))))))))))))))))))
        [] }
{}
