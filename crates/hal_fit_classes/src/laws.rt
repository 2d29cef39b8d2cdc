//! What holds of expressions whose operands break no rule of kinds.

ghost use Rattle.std.specs.Prelude.{ℕ, List};
ghost use Rattle.hal_grammar.specs.Expressions.{Expression};
ghost use Rattle.hal_phrases.specs.Phrases.{Phrase};
ghost use Rattle.hal_kinds.specs.Classes.{class_of};
ghost use Rattle.hal_agreement.specs.Sites.{Site};
ghost use Rattle.hal_fit_expr.specs.Uses.{Uses};
ghost use Rattle.hal_fit_expr.specs.Sorted.{sort_of_expression};
ghost use Rattle.hal_fit_classes.specs.Kinded.{IsKinded, IsSorted};

/// An expression whose operands break no rule of kinds has the sort of its class, where its names and calls have those of theirs (language document, Kinds).
pub fn an_expression_of_a_class_has_its_sort()
    ensures { (u : Uses) (site : Site) (ps : List Phrase) (block : ℕ) (tree : Expression) → IsKinded u site ps block tree → IsSorted (class_of ps block tree) (sort_of_expression u site tree) }
{}
