//! What holds of the code of statements.

ghost use Rattle.std.specs.Prelude.{◌≡◌, ℕ, List, Ok};
ghost use Rattle.hal_grammar.specs.Statements.{Statements};
ghost use Rattle.hal_code.specs.declared.instr.Instr.{Instr};
ghost use Rattle.hal_agreement.specs.Codes.{Code};
ghost use Rattle.hal_agreement.specs.Sites.{Site};
ghost use Rattle.hal_agreement.specs.PlacedStatements.{Exits, LeadsOut, StatementsAt};
ghost use Rattle.hal_gen_expr.specs.Numbering.{Numbering};
ghost use Rattle.hal_gen_expr.specs.Standing.{Begins, IsNumbered, Placed};
ghost use Rattle.hal_gen.specs.BlockExits.{with_handlers};
ghost use Rattle.hal_gen.specs.StatementCode.{block_code};

/// Where the statements of a block's body have code, that code stands for them in each image that begins with it and has the views and blocks by their numbers; the
/// statements of ON ERROR among them stand somewhere in it, and the marks of none lead to its end (image document, Code that stands for a set).
pub fn the_code_of_statements_stands_for_them()
    ensures { (code : Code) (n : Numbering) (site : Site) (list : Statements) (exits : Exits) (m : ℕ) (before after : List Instr) → IsNumbered code n
        → block_code n site before exits m list ≡ Ok after → Begins after code.image.code
        → Placed code before after (λ from to. (handler : ℕ → ℕ) × StatementsAt code site (with_handlers handler exits) m list from to × LeadsOut handler m list to) }
{}
