//! What holds of a set of files that breaks no rule of names or types.

ghost use Rattle.std.specs.Prelude.{◌≡◌, ◌⊎◌, ℕ, false, true, Bool, List, [], Option, Some, slice_get};
ghost use Rattle.hal_grammar.specs.Declarations.{Attribute, Declaration, Declared, Kind};
ghost use Rattle.hal_base.specs.declared.refusal.Place.{Place};
ghost use Rattle.hal_grammar.specs.Expressions.{Expression, Expressions, NoExpressions, Reference, Refers, Subscript};
ghost use Rattle.hal_grammar.specs.Leaves.{Naming};
ghost use Rattle.hal_grammar.specs.Statements.{Eventful};
ghost use Rattle.hal_grammar.specs.Units.{File, Function, HasKind, Head, Mode, Precision, Preface, Procedure, Returns};
ghost use Rattle.hal_phrases.specs.declared.around.Around.{Around};
ghost use Rattle.hal_phrases.specs.declared.role.Role.{Role};
ghost use Rattle.hal_phrases.specs.declared.role.Role.TheVariants as role;
ghost use Rattle.hal_phrases.specs.GatheredExpressions.{gathered};
ghost use Rattle.hal_phrases.specs.GatheredUnits.{phrases_of};
ghost use Rattle.hal_phrases.specs.Phrases.{OfCall, OfCallForm, OfEvent, OfFile, OfItem, OfReference, OfSubscriptName, OfTemplate, OfTemporaryGroup, OfUnit, OfVariable, Phrase};
ghost use Rattle.hal_names.specs.Means.{means};
ghost use Rattle.hal_scope.specs.Rules.{IsAmong, IsSound, rows};
ghost use Rattle.hal_scope.specs.declared.usage.Usage.TheVariants as usage;
ghost use Rattle.hal_scope.specs.Sorts.{type_of, usage_of};
ghost use Rattle.hal_kinds.specs.Attributes.{sizes_of};
ghost use Rattle.hal_kinds.specs.Classes.{class_of, class_of_called_head};
ghost use Rattle.hal_kinds.specs.Data.{is_event_type, is_structure_type};
ghost use Rattle.hal_templates.specs.Giving.{HaveSameHead};
ghost use Rattle.hal_templates.specs.Heads.{within};
ghost use Rattle.hal_templates.specs.Rules.{template_rows};
ghost use Rattle.hal_types.specs.Rules.{type_rows};
ghost use Rattle.hal_values.specs.declared.value.Kind as values;
ghost use Rattle.hal_constants.specs.declared.constant.Constant.TheVariants as constant;
ghost use Rattle.hal_constants.specs.Constants.{constant_of};
ghost use Rattle.hal_constants.specs.Known.{kind_of_type, known};
ghost use Rattle.hal_constants.specs.Naming.{is_value_item};
ghost use Rattle.hal_shapes.specs.Arguments.{parameter_of};
ghost use Rattle.hal_meaning.specs.Bodies.{bodies_of, is_called_head, Body};
ghost use Rattle.hal_meaning.specs.Calls.{inputs_of};
ghost use Rattle.hal_meaning.specs.Sets.{body_at, Set};
ghost use Rattle.hal_meaning.specs.Variables.{name_meant};
ghost use Rattle.hal_code.specs.declared.image.ImageParts.{ImageParts};
ghost use Rattle.hal_agreement.specs.Sites.{Site, here_at};
ghost use Rattle.hal_fitting.specs.Fitting.{Ground};
ghost use Rattle.hal_fit_expr.specs.Uses.{Uses};
ghost use Rattle.hal_fit_rules.specs.Agreeing.{FormAgrees, NameAgrees};
ghost use Rattle.hal_fit_rules.specs.Begun.{AreFirst};
ghost use Rattle.hal_fit_rules.specs.Leaves.{is_value_role};
ghost use Rattle.hal_fit_rules.specs.Owned.{IsFunction, IsOwn, IsPlainData};
ghost use Rattle.hal_fit_rules.specs.Passing.{AreParameters, IsParameter, IsProcedure};
ghost use Rattle.hal_fit_rules.specs.Passed.{ProcedureAgrees};
ghost use Rattle.hal_fit_rules.specs.Received.{CellsAgree};
ghost use Rattle.hal_fit_rules.specs.Signalled.{EventAgrees, HasEvents};
ghost use Rattle.hal_fit_rules.specs.Used.{PhraseKnown, UnitKnown};
ghost use Rattle.hal_fit_rules.specs.Valued.{HasConstants};
ghost use Rattle.hal_fit_names.specs.Called.{StandsForCalled};
ghost use Rattle.hal_fit_names.specs.Bodied.{HasBody, IsUnitOf};
ghost use Rattle.hal_fit_names.specs.Known.{is_left_node};
ghost use Rattle.hal_fit_names.specs.Named.{AreFunctions, AreLeft, AreProcedures, FunctionParameters};
ghost use Rattle.hal_fit_names.specs.Serving.{MayAsk, ServesUnit};
ghost use Rattle.hal_fit_names.specs.Spelled.{AreSpelled};
ghost use Rattle.hal_fit_names.specs.Standing.{StandsForData};
ghost use Rattle.hal_fit_names.specs.Suited.{HasFitLiterals, is_templated, Suits};
ghost use Rattle.hal_fit_names.specs.Used.{AreDeclaredParameters, HaveSizes, HaveValues, IsHome};

use hal_fit_constants::what_the_checks_know_is_constant;
use hal_names::{
    a_key_is_found_at_its_first_declaration, phrases_are_counted, what_is_meant_declares_the_name,
};
use hal_templates::a_written_template_gives_what_its_unit_shows;

/// In a set of files that breaks no rule of names or types, no operand of an expression is wrong where a constant is needed, and a value of it is a right one of
/// the class of the expression; this is so for each phrase in the block of the expression, before which other constants may stand (language document, Kinds).
pub fn constant_expressions_suit_their_classes()
    ensures { (files : List File) (before : List Phrase) (around : Around) (role : Role) (tree : Expression) (p : Phrase) → IsSound rows (phrases_of files) → IsSound type_rows (phrases_of files)
        → HasFitLiterals (phrases_of files) → is_value_role role ≡ true → AreFirst (gathered before around role tree) (phrases_of files) → around.block ≡ p.around.block
        → Suits (class_of (phrases_of files) around.block tree) (constant_of (phrases_of files) (known (phrases_of files)) p tree) }
{
    phrases_are_counted();
    what_is_meant_declares_the_name();
}

/// The kind of the cells of what such a set declares is known, where that is no structure and no constant that is its value: a length of bits or of a text is a
/// number within its limits, in the phrase of the length and in that of the name (language document, Kinds).
pub fn kinds_of_cells_are_known()
    ensures { (files : List File) (p : Phrase) (common : List Attribute) (item : Declared) (kind : Kind) (double : Bool) → IsSound rows (phrases_of files) → IsSound type_rows (phrases_of files)
        → HasFitLiterals (phrases_of files) → IsAmong p (phrases_of files) → p.node ≡ OfItem common item → type_of common item ≡ Some kind → is_structure_type (Some kind) ≡ false
        → is_value_item common item ≡ false → (cells : values.Kind) × (kind_of_type (phrases_of files) (known (phrases_of files)) p double (Some kind) ≡ Some cells) }
{
    phrases_are_counted();
    what_is_meant_declares_the_name();
}

/// So is the kind of the result of a FUNCTION, in it and in its written template, where that is no structure; and both results are of one class, as their heads mean the
/// same: a length that a head gives is looked up in the FUNCTION (language document, Kinds and Templates).
pub fn results_of_functions_are_known()
    ensures known { (files : List File) (p : Phrase) (name : Naming) (place : Place) (inputs : List Naming) (kind : Kind) (precision : Option Precision) (mode : Option Mode) (declarations : List Declaration)
        (double : Bool) → IsSound rows (phrases_of files) → IsSound type_rows (phrases_of files) → HasFitLiterals (phrases_of files) → IsAmong p (phrases_of files)
        → (p.node ≡ OfUnit name (Function place inputs (HasKind kind precision) mode) declarations) ⊎ (p.node ≡ OfTemplate name (Function place inputs (HasKind kind precision) mode) declarations)
        → is_structure_type (Some kind) ≡ false → (cells : values.Kind) × (kind_of_type (phrases_of files) (known (phrases_of files)) (within p) double (Some kind) ≡ Some cells) }
    ensures class { (files : List File) (p q : Phrase) (template unit : Naming) (head other : Head) (declarations others : List Declaration) → IsSound rows (phrases_of files)
        → IsSound type_rows (phrases_of files) → HasFitLiterals (phrases_of files) → IsAmong p (phrases_of files) → IsAmong q (phrases_of files) → p.node ≡ OfTemplate template head declarations
        → q.node ≡ OfUnit unit other others → HaveSameHead (phrases_of files) (known (phrases_of files)) p head q other → is_called_head head ≡ true → class_of_called_head other ≡ class_of_called_head head }
{
    phrases_are_counted();
    what_is_meant_declares_the_name();
}

/// So data of the set are plain data for the laws of names where they are no event, no structure and no constant that is its value; and a parameter that is no such
/// constant is one for the laws of arguments (language document, Names and Calls).
pub fn declared_data_are_known()
    ensures data { (files : List File) (site : Site) (p : Phrase) (common : List Attribute) (item : Declared) (kind : Kind) → site.set.phrases ≡ phrases_of files → HasConstants site
        → IsSound rows (phrases_of files) → IsSound type_rows (phrases_of files) → HasFitLiterals (phrases_of files) → IsAmong p (phrases_of files) → p.node ≡ OfItem common item → type_of common item ≡ Some kind
        → is_event_type (Some kind) ≡ false → is_structure_type (Some kind) ≡ false → is_value_item common item ≡ false → IsPlainData site p }
    ensures parameter { (files : List File) (site : Site) (unit : ℕ) (name : Naming) (p : Phrase) (common : List Attribute) (item : Declared) (kind : Kind) → site.set.phrases ≡ phrases_of files
        → HasConstants site → IsSound rows (phrases_of files) → IsSound type_rows (phrases_of files) → HasFitLiterals (phrases_of files) → parameter_of site.set.phrases unit name ≡ Some p
        → IsAmong p (phrases_of files) → p.node ≡ OfItem common item → type_of common item ≡ Some kind → (sizes_of common item ≡ Some NoExpressions → ⊥) → is_value_item common item ≡ false
        → IsParameter site unit name }
{
    phrases_are_counted();
    what_is_meant_declares_the_name();
}

/// And no operand of a channel is wrong (language document, Statements).
pub fn channels_have_right_operands()
    ensures { (files : List File) (p : Phrase) (before : List Phrase) (around : Around) (tree : Expression) → IsSound rows (phrases_of files) → IsSound type_rows (phrases_of files)
        → HasFitLiterals (phrases_of files) → AreFirst (gathered before around role.Channel tree) (phrases_of files) → around.block ≡ p.around.block
        → constant_of (phrases_of files) (known (phrases_of files)) p tree ≡ constant.Unfit → ⊥ }
{
    phrases_are_counted();
    what_is_meant_declares_the_name();
}

/// A name means itself where it means no written template and nothing that one declares for its file: so it is own, as the laws of names ask (language document,
/// Templates).
pub fn names_of_no_template_are_own()
    ensures { (site : Site) (name : List ℕ) (k : ℕ) (p : Phrase) → means site.set.phrases site.block name ≡ Some k → slice_get site.set.phrases k ≡ Some p → is_templated site.set.phrases p p.node ≡ false
        → IsOwn site name }
{}

/// A name without a path agrees that is used as a value in a set of files that breaks no rule of names or types, also behind `$`: it means data, an event, a process, a
/// structure, a constant, a FUNCTION or a built-in function, each of which is for the meaning what it is for the checks. What is left is what written templates
/// stand for, that a constant has a value, which is that of the constant it stands for, that a FUNCTION may be called, and an event, a process or
/// RUNTIME asked for (language document, Names and Templates).
pub fn names_of_values_agree()
    ensures reference { (u : Uses) (files : List File) (site : Site) (q : Phrase) (role : Role) (place : Place) (name : List ℕ) (subscript : Subscript) → site.set.phrases ≡ phrases_of files → HasConstants site
        → AreLeft site name → MayAsk u site name → AreFunctions u site name → IsSound rows (phrases_of files) → IsSound type_rows (phrases_of files) → HasFitLiterals (phrases_of files) → IsAmong q (phrases_of files)
        → q.node ≡ OfReference role (Refers place name [] subscript) → usage_of role ≡ usage.Value → q.around.block ≡ site.block → NameAgrees u site site.set.phrases site.block name [] }
    ensures subscript { (u : Uses) (files : List File) (site : Site) (q : Phrase) (name : Naming) → site.set.phrases ≡ phrases_of files → HasConstants site → AreLeft site name.name
        → MayAsk u site name.name → AreFunctions u site name.name → IsSound rows (phrases_of files) → IsSound type_rows (phrases_of files) → HasFitLiterals (phrases_of files) → IsAmong q (phrases_of files) → q.node ≡ OfSubscriptName name
        → q.around.block ≡ site.block → NameAgrees u site site.set.phrases site.block name.name [] }
{
    phrases_are_counted();
    what_is_meant_declares_the_name();
}

/// The name of a receiver without a path, of an ASSIGN argument, or of the variable of DO FOR means cells that are for the meaning what they are for the checks (language document, Assignments
/// and Calls).
pub fn names_of_receivers_agree()
    ensures receiver { (files : List File) (site : Site) (q : Phrase) (place : Place) (name : List ℕ) (subscript : Subscript) → site.set.phrases ≡ phrases_of files → HasConstants site
        → AreLeft site name → IsSound rows (phrases_of files) → IsSound type_rows (phrases_of files) → HasFitLiterals (phrases_of files) → IsAmong q (phrases_of files)
        → q.node ≡ OfReference role.Receiver (Refers place name [] subscript) → q.around.block ≡ site.block
        → CellsAgree site.set.phrases [] (means site.set.phrases site.block name) (name_meant (here_at site) name []) }
    ensures output { (files : List File) (site : Site) (q : Phrase) (place : Place) (name : List ℕ) (subscript : Subscript) → site.set.phrases ≡ phrases_of files → HasConstants site
        → AreLeft site name → IsSound rows (phrases_of files) → IsSound type_rows (phrases_of files) → HasFitLiterals (phrases_of files) → IsAmong q (phrases_of files)
        → q.node ≡ OfReference role.Output (Refers place name [] subscript) → q.around.block ≡ site.block
        → CellsAgree site.set.phrases [] (means site.set.phrases site.block name) (name_meant (here_at site) name []) }
    ensures variable { (files : List File) (site : Site) (q : Phrase) (name : Naming) → site.set.phrases ≡ phrases_of files → HasConstants site → AreLeft site name.name
        → IsSound rows (phrases_of files) → IsSound type_rows (phrases_of files) → HasFitLiterals (phrases_of files) → IsAmong q (phrases_of files) → q.node ≡ OfVariable name → q.around.block ≡ site.block
        → CellsAgree site.set.phrases [] (means site.set.phrases site.block name.name) (name_meant (here_at site) name.name []) }
{
    phrases_are_counted();
    what_is_meant_declares_the_name();
}

/// An event that is signalled, set or reset is for an image with the set's events what it is for the checks (language document, Events).
pub fn events_that_are_changed_agree()
    ensures { (image : ImageParts) (files : List File) (site : Site) (q : Phrase) (event : Eventful) → site.set.phrases ≡ phrases_of files → HasConstants site → AreLeft site event.name.name
        → HasEvents image site → IsSound rows (phrases_of files) → IsSound type_rows (phrases_of files) → HasFitLiterals (phrases_of files) → IsAmong q (phrases_of files) → q.node ≡ OfEvent event
        → q.around.block ≡ site.block → EventAgrees image site site.set.phrases site.block event }
{
    phrases_are_counted();
    what_is_meant_declares_the_name();
}

/// Each unit of a set of files has its body, which has the head of the unit's phrase; and each body is that of such a unit (language document, Units).
pub fn units_have_bodies()
    ensures body { (files : List File) (s : Set) (k : ℕ) (p : Phrase) (name : Naming) (head : Head) (declarations : List Declaration) → s.phrases ≡ phrases_of files → s.bodies ≡ bodies_of files s.phrases
        → slice_get s.phrases k ≡ Some p → p.node ≡ OfUnit name head declarations → HasBody s.bodies k head }
    ensures unit { (files : List File) (s : Set) (k : ℕ) (b : Body) → s.phrases ≡ phrases_of files → s.bodies ≡ bodies_of files s.phrases → body_at s k ≡ Some b → IsUnitOf s.phrases k b }
{
    phrases_are_counted();
}

/// So a FUNCTION gives a value where no rule of types is broken, and is known to the laws of names where it may be called; and so is a PROCEDURE whose parameters are
/// known (language document, Calls).
pub fn units_that_may_be_called_are_known()
    ensures function { (u : Uses) (files : List File) (site : Site) (k : ℕ) (p : Phrase) (name : Naming) (place : Place) (inputs : List Naming) (returns : Returns) (mode : Option Mode)
        (declarations : List Declaration) → site.set.phrases ≡ phrases_of files → site.set.bodies ≡ bodies_of files site.set.phrases → IsSound type_rows (phrases_of files)
        → slice_get site.set.phrases k ≡ Some p → p.node ≡ OfUnit name (Function place inputs returns mode) declarations → u.calls p.number ≡ true → IsFunction u site p }
    ensures procedure { (u : Uses) (files : List File) (site : Site) (k : ℕ) (p : Phrase) (name : Naming) (place : Place) (inputs outputs : List Naming) (mode : Option Mode)
        (declarations : List Declaration) → site.set.phrases ≡ phrases_of files → site.set.bodies ≡ bodies_of files site.set.phrases → IsSound type_rows (phrases_of files)
        → slice_get site.set.phrases k ≡ Some p → p.node ≡ OfUnit name (Procedure place inputs outputs mode) declarations → u.calls p.number ≡ true → AreParameters site p.number inputs
        → IsProcedure u site p }
{
    phrases_are_counted();
}

/// A call form is for the meaning what it is for the checks, where the parameters of the FUNCTION are known: of a FUNCTION or a built-in function, or the product of data and a
/// parenthesis (language document, Products and Built-in functions).
pub fn call_forms_agree()
    ensures { (u : Uses) (files : List File) (site : Site) (q : Phrase) (place : Place) (name : List ℕ) (arguments : Expressions) → site.set.phrases ≡ phrases_of files → HasConstants site → AreLeft site name → AreFunctions u site name
        → FunctionParameters u site name → IsSound rows (phrases_of files) → IsSound type_rows (phrases_of files) → HasFitLiterals (phrases_of files) → IsAmong q (phrases_of files) → q.node ≡ OfCallForm place name arguments → q.around.block ≡ site.block
        → FormAgrees u site site.set.phrases site.block name }
{
    phrases_are_counted();
    what_is_meant_declares_the_name();
}

/// CALL is of a PROCEDURE that is for the meaning what it is for the checks, where it may be called and its parameters are known (language document, Calls).
pub fn calls_agree()
    ensures { (u : Uses) (files : List File) (site : Site) (q : Phrase) (name : Naming) (arguments : Expressions) (receivers : List Reference) → site.set.phrases ≡ phrases_of files → HasConstants site
        → AreLeft site name.name → AreProcedures u site name.name → IsSound rows (phrases_of files) → IsSound type_rows (phrases_of files) → HasFitLiterals (phrases_of files) → IsAmong q (phrases_of files) → q.node ≡ OfCall name arguments receivers
        → q.around.block ≡ site.block → ProcedureAgrees u site site.set.phrases site.block name }
{
    phrases_are_counted();
    what_is_meant_declares_the_name();
}

/// The input parameters of a unit of such a set are declared in it as data, and are no constants (language document, Units).
pub fn input_parameters_are_declared()
    ensures { (files : List File) (k : ℕ) (p : Phrase) (name : Naming) (head : Head) (declarations : List Declaration) → IsSound rows (phrases_of files) → IsSound type_rows (phrases_of files)
        → HaveSizes (phrases_of files) → slice_get (phrases_of files) k ≡ Some p → p.node ≡ OfUnit name head declarations → AreDeclaredParameters (phrases_of files) k (inputs_of head) }
{
    phrases_are_counted();
    a_key_is_found_at_its_first_declaration();
}

/// The TEMPORARY variable of a DO FOR group is what its name means in the group (language document, Names).
pub fn temporary_variables_mean_themselves()
    ensures { (files : List File) (k : ℕ) (p : Phrase) (labels : List Naming) (variable : Naming) → slice_get (phrases_of files) k ≡ Some p → p.node ≡ OfTemporaryGroup labels variable
        → means (phrases_of files) k variable.name ≡ Some k }
{
    phrases_are_counted();
    a_key_is_found_at_its_first_declaration();
}

/// A constant that is its value has one, in a set of files that breaks no rule of names or types and that words spell: one more round tells none that isn't known, and the
/// value that it is given is one that cells of its type hold (language document, Constants).
pub fn constants_have_values()
    ensures { (files : List File) (s : Set) → s.phrases ≡ phrases_of files → s.constants ≡ known s.phrases → IsSound rows (phrases_of files) → IsSound type_rows (phrases_of files)
        → HasFitLiterals (phrases_of files) → AreSpelled (phrases_of files) → HaveValues s }
{
    phrases_are_counted();
    what_is_meant_declares_the_name();
}

/// What a written template of a COMPOOL declares for its file stands for data of the COMPOOL itself, with the same name and attributes that mean the same, in a set of
/// files that breaks no rule of templates or names (language document, Templates).
pub fn data_of_written_templates_stand_for_those_of_units()
    ensures { (files : List File) (k : ℕ) (p : Phrase) (common : List Attribute) (item : Declared) (f : Phrase) (prefaces : List Preface) (unit : Naming) → IsSound template_rows (phrases_of files)
        → IsSound rows (phrases_of files) → slice_get (phrases_of files) k ≡ Some p → p.node ≡ OfItem common item → slice_get (phrases_of files) p.around.home ≡ Some f
        → f.node ≡ OfFile prefaces unit → StandsForData (phrases_of files) k p common item }
{
    a_written_template_gives_what_its_unit_shows();
}

/// A written template of a PROCEDURE or FUNCTION stands for the unit of its name, which has the same names of input parameters, and gives a value of the same class; and
/// each that the template declares is for the unit what it is for the checks: an array or a structure for both, or a single value of one sort (language
/// document, Templates and Calls).
pub fn templates_of_called_units_stand_for_them()
    ensures { (files : List File) (site : Site) (k : ℕ) (p : Phrase) (template : Naming) (head : Head) (declarations : List Declaration) → site.set.phrases ≡ phrases_of files → HasConstants site
        → IsSound template_rows (phrases_of files) → IsSound rows (phrases_of files) → IsSound type_rows (phrases_of files) → HasFitLiterals (phrases_of files) → HaveSizes (phrases_of files)
        → slice_get (phrases_of files) k ≡ Some p → p.node ≡ OfTemplate template head declarations → is_called_head head ≡ true → StandsForCalled site k head }
{
    phrases_are_counted();
    what_is_meant_declares_the_name();
    a_key_is_found_at_its_first_declaration();
    input_parameters_are_declared();
    a_written_template_gives_what_its_unit_shows();
}

/// So a unit is known, as the law of statements asks, by all that serves it, where this is known of the phrases that are left: references with a path, but for operands of
/// event expressions. Nothing is left of names: written templates stand for their units, data of one of a COMPOOL for those of the COMPOOL, with the same values
/// of constants, and what others declare are plain parameters, as no rule of templates or types is broken.
pub fn units_are_known_where_what_is_left_is()
    ensures { (image : ImageParts) (g : Ground) (u : Bool → Uses) (files : List File) (site : Site) (home : ℕ) → site.set.phrases ≡ phrases_of files → site.set.bodies ≡ bodies_of files site.set.phrases
        → HasConstants site → ServesUnit site.set image u home → IsHome g site home → HasEvents image site → IsSound template_rows (phrases_of files)
        → IsSound rows (phrases_of files) → IsSound type_rows (phrases_of files) → HasFitLiterals (phrases_of files) → AreSpelled (phrases_of files)
        → ((q : Phrase) → IsAmong q site.set.phrases → q.around.home ≡ home → is_left_node q.node ≡ true → PhraseKnown image g u site q) → UnitKnown image g u site home }
{
    phrases_are_counted();
    what_is_meant_declares_the_name();
    input_parameters_are_declared();
    temporary_variables_mean_themselves();
    what_the_checks_know_is_constant();
    constants_have_values();
    a_written_template_gives_what_its_unit_shows();
    templates_of_called_units_stand_for_them();
}
