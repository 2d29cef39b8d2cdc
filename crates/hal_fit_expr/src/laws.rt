//! What holds of the code of expressions.

ghost use Rattle.std.specs.Prelude.{◌≡◌, ℕ, true, List, ◌∷◌, Some};
ghost use Rattle.hal_grammar.specs.Expressions.{Expression};
ghost use Rattle.hal_meaning.specs.Places.{Place};
ghost use Rattle.hal_code.specs.Effects.{Sorts};
ghost use Rattle.hal_code.specs.Sorts.{Sort};
ghost use Rattle.hal_agreement.specs.Codes.{Code};
ghost use Rattle.hal_agreement.specs.Sites.{Site};
ghost use Rattle.hal_agreement.specs.PlacedExpressions.{ExpressionAt};
ghost use Rattle.hal_fitting.specs.Fitting.{Ground, Fits};
ghost use Rattle.hal_fit_expr.specs.Uses.{Uses};
ghost use Rattle.hal_fit_expr.specs.Sorted.{sort_of_expression};
ghost use Rattle.hal_fit_expr.specs.Serving.{Serves};

/// Where the code of an expression that has a sort stands in an image that has what it uses, that code fits: it leaves a value of this sort on any stack (image
/// document, When an image is right).
pub fn the_code_of_an_expression_fits()
    ensures { (code : Code) (g : Ground) (site : Site) (u : Uses) (tree : Expression) (s : Sort) (from to : ℕ) (stack : Sorts) → Serves code g site.set site.places u
        → sort_of_expression u site tree ≡ Some s → ExpressionAt code site tree from to → Fits code.image g from stack to (s ∷ stack) }
{}
