//! What holds of the code of expressions.

ghost use Rattle.std.specs.Prelude.{◌≡◌, ℕ, List, Ok};
ghost use Rattle.hal_grammar.specs.Expressions.{Expression};
ghost use Rattle.hal_code.specs.declared.instr.Instr.{Instr};
ghost use Rattle.hal_agreement.specs.Codes.{Code};
ghost use Rattle.hal_agreement.specs.Sites.{Site};
ghost use Rattle.hal_agreement.specs.PlacedExpressions.{ExpressionAt};
ghost use Rattle.hal_gen_expr.specs.ExpressionCode.{expression_code};
ghost use Rattle.hal_gen_expr.specs.Numbering.{Numbering};
ghost use Rattle.hal_gen_expr.specs.Standing.{Begins, IsNumbered, Placed};

/// Where an expression has code, that code stands for it in each image that begins with it and has the views and blocks by their numbers (image document, Code
/// that stands for a set).
pub fn the_code_of_an_expression_stands_for_it()
    ensures { (code : Code) (n : Numbering) (site : Site) (tree : Expression) (before after : List Instr) → IsNumbered code n → expression_code n site before tree ≡ Ok after
        → Begins after code.image.code → Placed code before after (λ from to. ExpressionAt code site tree from to) }
{}
