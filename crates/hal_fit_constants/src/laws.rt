//! What holds of constant expressions.

ghost use Rattle.std.specs.Prelude.{◌≡◌, Some};
ghost use Rattle.hal_grammar.specs.Expressions.{Expression};
ghost use Rattle.hal_phrases.specs.Phrases.{Phrase};
ghost use Rattle.hal_values.specs.declared.value.Value.{Value};
ghost use Rattle.hal_constants.specs.declared.constant.Constant.TheVariants as constant;
ghost use Rattle.hal_constants.specs.Constants.{constant_of};
ghost use Rattle.hal_constants.specs.Known.{Known};
ghost use Rattle.hal_agreement.specs.Constants.{IsConstant};
ghost use Rattle.hal_agreement.specs.Sites.{Site};
ghost use Rattle.hal_gen_expr.specs.Constants.{value_of};
ghost use Rattle.hal_fit_constants.specs.Names.{NamesAgree};

/// Where the checks know a value of an expression whose names agree, it is the one that is known where it is compiled, and the expression has it wherever it stands, whatever was done before
/// (language document, Constant expressions).
pub fn what_the_checks_know_is_constant()
    ensures known { (site : Site) (vs : Known) (p : Phrase) (tree : Expression) (v : Value) → NamesAgree site vs p → constant_of site.set.phrases vs p tree ≡ constant.Worth v → value_of site tree ≡ Some v }
    ensures constant { (site : Site) (vs : Known) (p : Phrase) (tree : Expression) (v : Value) → NamesAgree site vs p → constant_of site.set.phrases vs p tree ≡ constant.Worth v → IsConstant site tree v }
{}
