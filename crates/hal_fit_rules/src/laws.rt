//! What holds of phrases that break no rule.

ghost use Rattle.std.specs.Prelude.{◌≡◌, ℕ, Bool, true, false, List, [], Some, None, length};
ghost use Rattle.std.specs.Option.{is_some};
ghost use Rattle.hal_grammar.specs.Leaves.{Naming};
ghost use Rattle.hal_grammar.specs.Expressions.{Expression};
ghost use Rattle.hal_grammar.specs.Statements.{Eventful, Statements};
ghost use Rattle.hal_grammar.specs.Units.{File};
ghost use Rattle.hal_phrases.specs.declared.around.Around.{Around};
ghost use Rattle.hal_phrases.specs.declared.role.Role.{Role};
ghost use Rattle.hal_phrases.specs.Phrases.{Phrase};
ghost use Rattle.hal_phrases.specs.GatheredExpressions.{gathered};
ghost use Rattle.hal_phrases.specs.GatheredStatements.{gathered_statements};
ghost use Rattle.hal_phrases.specs.GatheredUnits.{phrases_of};
ghost use Rattle.hal_names.specs.Laws.{IsCounted};
ghost use Rattle.hal_names.specs.Means.{means};
ghost use Rattle.hal_scope.specs.declared.builtin.Builtin.{Builtin};
ghost use Rattle.hal_scope.specs.Builtins.{builtin_named};
ghost use Rattle.hal_scope.specs.Rules.{IsSound};
ghost use Rattle.hal_kinds.specs.Classes.{class_of};
ghost use Rattle.hal_operands.specs.Wants.{wanted};
ghost use Rattle.hal_types.specs.Rules.{type_rows};
ghost use Rattle.hal_locks.specs.Rules.{lock_rows};
ghost use Rattle.hal_code.specs.declared.image.ImageParts.{ImageParts};
ghost use Rattle.hal_meaning.specs.Bodies.{Body, bodies_of, marks_of};
ghost use Rattle.hal_meaning.specs.Places.{Place};
ghost use Rattle.hal_meaning.specs.Sets.{Set, body_at};
ghost use Rattle.hal_meaning.specs.Statements.{kind_meant};
ghost use Rattle.hal_meaning.specs.Variables.{name_meant};
ghost use Rattle.hal_code.specs.Sorts.{is_kind};
ghost use Rattle.hal_agreement.specs.PlacedBlocks.{unit_site};
ghost use Rattle.hal_agreement.specs.Sites.{Site, here_at, within_block};
ghost use Rattle.hal_fitting.specs.Fitting.{Ground};
ghost use Rattle.hal_fit_expr.specs.Uses.{Uses};
ghost use Rattle.hal_fit_expr.specs.Sorted.{sort_of_expression};
ghost use Rattle.hal_fit.specs.Stating.{StatementsFit};
ghost use Rattle.hal_fit_calls.specs.Harmless.{IsHarmless};
ghost use Rattle.hal_fit_classes.specs.Kinded.{IsKinded, IsOf};
ghost use Rattle.hal_fit_rules.specs.Begun.{AreFirst};
ghost use Rattle.hal_fit_rules.specs.Leaves.{HasKnownLeaves, IsKnown, is_value_role};
ghost use Rattle.hal_fit_rules.specs.Agreeing.{Agrees, FormAgrees, NameAgrees};
ghost use Rattle.hal_fit_rules.specs.Looked.{AreLooked};
ghost use Rattle.hal_fit_rules.specs.Owned.{IsBuiltinName, IsFunction, IsOwn, IsPlainData, IsStructureData, IsTemporary};
ghost use Rattle.hal_fit_rules.specs.Happening.{AsksAll, IsEvent, IsProcess, IsWrittenProcess};
ghost use Rattle.hal_fit_rules.specs.Passed.{ProcedureAgrees};
ghost use Rattle.hal_fit_rules.specs.Passing.{AreParameters, IsProcedure};
ghost use Rattle.hal_fit_rules.specs.Received.{CellsAgree};
ghost use Rattle.hal_fit_rules.specs.Valued.{HasConstants, IsConstantItem};
ghost use Rattle.hal_fit_rules.specs.Signalled.{EventAgrees, HasEvents};
ghost use Rattle.hal_fit_rules.specs.Stated.{StatementsAgree};
ghost use Rattle.hal_fit_rules.specs.Used.{UnitKnown};

/// Where the phrases of a set break no rule of types, each expression among them that is no time and no event expression is what its role wants, and so is each of
/// its operands, where its names and calls are known (language document, Kinds).
pub fn an_expression_that_breaks_no_rule_is_what_is_wanted()
    ensures kinded { (u : Uses) (site : Site) (ps before : List Phrase) (around : Around) (role : Role) (tree : Expression) → IsSound type_rows ps → AreFirst (gathered before around role tree) ps
        → is_value_role role ≡ true → HasKnownLeaves u site ps around.block tree → IsKinded u site ps around.block tree }
    ensures wanted { (u : Uses) (site : Site) (ps before : List Phrase) (around : Around) (role : Role) (tree : Expression) → IsSound type_rows ps → AreFirst (gathered before around role tree) ps
        → is_value_role role ≡ true → HasKnownLeaves u site ps around.block tree → IsOf ps around.block (wanted role) tree }
{}

/// And where its names and call forms mean for the checks what they mean where it is evaluated, also those in subscripts, then they are known, so that it is of
/// the class that its role wants and has the sort of its class (language document, Kinds, Subscripts and Built-in functions).
pub fn an_expression_whose_names_agree_has_the_sort_of_its_class()
    ensures leaves { (u : Uses) (site : Site) (ps before : List Phrase) (around : Around) (role : Role) (tree : Expression) → IsSound type_rows ps → AreFirst (gathered before around role tree) ps
        → is_value_role role ≡ true → Agrees u site ps around.block tree → HasKnownLeaves u site ps around.block tree }
    ensures wanted { (u : Uses) (site : Site) (ps before : List Phrase) (around : Around) (role : Role) (tree : Expression) → IsSound type_rows ps → AreFirst (gathered before around role tree) ps
        → is_value_role role ≡ true → Agrees u site ps around.block tree → IsOf ps around.block (wanted role) tree }
    ensures known { (u : Uses) (site : Site) (ps before : List Phrase) (around : Around) (role : Role) (tree : Expression) → IsSound type_rows ps → AreFirst (gathered before around role tree) ps
        → is_value_role role ≡ true → Agrees u site ps around.block tree → IsKnown (class_of ps around.block tree) (sort_of_expression u site tree) }
{}

/// A name agrees that means data of the unit itself: an integer, bits or a text, or an array of these, whose length is known; or the variable of a DO FOR group
/// with a TEMPORARY variable. So it does as a receiver, and the kind of its cells is in its range (language document, Names).
pub fn the_names_of_own_data_agree()
    ensures declared { (u : Uses) (site : Site) (name : List ℕ) (own : IsOwn site name) → IsPlainData site own.phrase → NameAgrees u site site.set.phrases site.block name [] }
    ensures temporary { (u : Uses) (site : Site) (name : List ℕ) (own : IsOwn site name) → IsTemporary own.phrase → NameAgrees u site site.set.phrases site.block name [] }
    ensures received { (u : Uses) (site : Site) (name : List ℕ) (own : IsOwn site name) → IsPlainData site own.phrase
        → CellsAgree site.set.phrases [] (means site.set.phrases site.block name) (name_meant (here_at site) name []) }
    ensures ranged { (u : Uses) (site : Site) (name : List ℕ) (own : IsOwn site name) → IsPlainData site own.phrase → is_kind (kind_meant [] (name_meant (here_at site) name [])) ≡ true }
    ensures counted { (u : Uses) (site : Site) (name : List ℕ) (own : IsOwn site name) → IsTemporary own.phrase
        → CellsAgree site.set.phrases [] (means site.set.phrases site.block name) (name_meant (here_at site) name []) }
{}

/// A name agrees that means an event or a process of the unit itself, or a written template of a process that stands for it, where these may be asked for (language document,
/// Events and Templates).
pub fn the_names_of_events_agree()
    ensures event { (u : Uses) (site : Site) (name : List ℕ) (own : IsOwn site name) → AsksAll u site → IsCounted site.set.phrases → IsEvent site own.phrase → NameAgrees u site site.set.phrases site.block name [] }
    ensures process { (u : Uses) (site : Site) (name : List ℕ) (own : IsOwn site name) → AsksAll u site → IsCounted site.set.phrases → IsProcess own.phrase → NameAgrees u site site.set.phrases site.block name [] }
    ensures written { (u : Uses) (site : Site) (name : List ℕ) → AsksAll u site → IsCounted site.set.phrases → IsWrittenProcess site name → NameAgrees u site site.set.phrases site.block name [] }
{}

/// A name and a call form agree of a constant of the unit itself that is its value: what is known of it is a value of its type (language document, Constants).
pub fn the_names_of_constants_agree()
    ensures name { (u : Uses) (site : Site) (name : List ℕ) (own : IsOwn site name) → IsCounted site.set.phrases → HasConstants site → IsConstantItem site own.phrase → NameAgrees u site site.set.phrases site.block name [] }
    ensures form { (u : Uses) (site : Site) (name : List ℕ) (own : IsOwn site name) → IsCounted site.set.phrases → HasConstants site → IsConstantItem site own.phrase → FormAgrees u site site.set.phrases site.block name }
{}

/// An event of the unit itself that is signalled, set or reset is in an image with the set's events what it is for the checks (language document, Events).
pub fn the_events_of_an_image_agree()
    ensures { (image : ImageParts) (site : Site) (e : Eventful) (own : IsOwn site e.name.name) → IsCounted site.set.phrases → HasEvents image site → IsEvent site own.phrase
        → EventAgrees image site site.set.phrases site.block e }
{}

/// A name agrees that means a structure of the unit itself, or a part of one that is a structure, and so it does as what takes values (language document,
/// Structures).
pub fn the_names_of_structures_agree()
    ensures name { (u : Uses) (site : Site) (name : List ℕ) (path : List Naming) (own : IsOwn site name) → IsStructureData site own.phrase path → NameAgrees u site site.set.phrases site.block name path }
    ensures received { (u : Uses) (site : Site) (name : List ℕ) (path : List Naming) (own : IsOwn site name) → IsStructureData site own.phrase path
        → CellsAgree site.set.phrases path (means site.set.phrases site.block name) (name_meant (here_at site) name []) }
{}

/// A name agrees that calls: that of a built-in function without a list, and that of a FUNCTION of the set which gives a value and may be called (language
/// document, Names).
pub fn the_names_of_functions_agree()
    ensures built_in { (u : Uses) (site : Site) (name : List ℕ) → IsBuiltinName u site name → NameAgrees u site site.set.phrases site.block name [] }
    ensures declared { (u : Uses) (site : Site) (name : List ℕ) (own : IsOwn site name) → IsFunction u site own.phrase → NameAgrees u site site.set.phrases site.block name [] }
{}

/// A call form agrees of a name that means data or an event of the unit itself, of a FUNCTION of the set whose parameters are known, and of a built-in function
/// with a list (language document, Products and Built-in functions).
pub fn the_call_forms_of_own_names_agree()
    ensures data { (u : Uses) (site : Site) (name : List ℕ) (own : IsOwn site name) → IsPlainData site own.phrase → FormAgrees u site site.set.phrases site.block name }
    ensures temporary { (u : Uses) (site : Site) (name : List ℕ) (own : IsOwn site name) → IsTemporary own.phrase → FormAgrees u site site.set.phrases site.block name }
    ensures event { (u : Uses) (site : Site) (name : List ℕ) (own : IsOwn site name) → IsCounted site.set.phrases → IsEvent site own.phrase → FormAgrees u site site.set.phrases site.block name }
    ensures function { (u : Uses) (site : Site) (name : List ℕ) (own : IsOwn site name) → IsCounted site.set.phrases → (is : IsFunction u site own.phrase) → AreParameters site own.phrase.number is.inputs
        → FormAgrees u site site.set.phrases site.block name }
    ensures built_in { (u : Uses) (site : Site) (name : List ℕ) (b : Builtin) → means site.set.phrases site.block name ≡ None → builtin_named name ≡ Some b → FormAgrees u site site.set.phrases site.block name }
{}

/// A PROCEDURE of the set agrees whose parameters are known and that may be called (language document, Calls).
pub fn the_procedures_of_a_set_agree()
    ensures { (u : Uses) (site : Site) (name : Naming) (own : IsOwn site name.name) → IsCounted site.set.phrases → IsProcedure u site own.phrase → ProcedureAgrees u site site.set.phrases site.block name }
{}

/// Statements fit where the phrases of the set that they stand in break no rule of types or of locks and the names of their expressions and receivers agree:
/// conditions are bits, what is counted, priorities and times are integers, items of WRITE are values, receivers take what is assigned or read, channels are
/// channels, events can be changed so, what asks stands in no UPDATE block, arguments are what parameters take, and RETURN gives what its block gives.
pub fn statements_whose_names_agree_fit()
    ensures { (image : ImageParts) (g : Ground) (u : Bool → Uses) (within : Bool) (site : Site) (m : ℕ) (ps before : List Phrase) (around : Around) (body : Statements) → IsSound type_rows ps → IsSound lock_rows ps
        → AreLooked ps within around → AreFirst (gathered_statements before around body) ps → StatementsAgree image g u ps within site m before around body → StatementsFit image g u within site m body }
{}

/// So do statements of a unit where each phrase of the unit names what is known: its names, call forms and receivers agree where it stands, its channels are
/// constants, its literals are in range, and its blocks are what they are for the checks. The names of a DO FOR group with a TEMPORARY variable are looked up in
/// the block of its phrase, by its mark. If nothing in the unit does what an UPDATE block may not do, its statements also fit where they are looked at as they would
/// stand inside of one.
pub fn statements_of_a_known_unit_fit()
    ensures agree { (image : ImageParts) (g : Ground) (u : Bool → Uses) (site : Site) (m : ℕ) (before : List Phrase) (around : Around) (body : Statements) → UnitKnown image g u site around.home
        → site.marks ≡ marks_of site.set.phrases around.home → length (marks_of before around.home) ≡ m → AreFirst (gathered_statements before around body) site.set.phrases
        → StatementsAgree image g u site.set.phrases (is_some around.update) (within_block around.block site) m before around body }
    ensures fit { (image : ImageParts) (g : Ground) (u : Bool → Uses) (site : Site) (m : ℕ) (before : List Phrase) (around : Around) (body : Statements) → IsSound type_rows site.set.phrases
        → IsSound lock_rows site.set.phrases → UnitKnown image g u site around.home → site.marks ≡ marks_of site.set.phrases around.home → length (marks_of before around.home) ≡ m
        → AreFirst (gathered_statements before around body) site.set.phrases → StatementsFit image g u (is_some around.update) (within_block around.block site) m body }
    ensures inside { (image : ImageParts) (g : Ground) (v : Uses) (site : Site) (m : ℕ) (before : List Phrase) (around : Around) (body : Statements) → IsSound type_rows site.set.phrases
        → IsSound lock_rows site.set.phrases → IsHarmless site.set.phrases around.home → UnitKnown image g (λ inside. v) site around.home → site.marks ≡ marks_of site.set.phrases around.home
        → length (marks_of before around.home) ≡ m → AreFirst (gathered_statements before around body) site.set.phrases
        → StatementsFit image g (λ inside. v) true (within_block around.block site) m body }
{}

/// So do, in a set of files, the statements of each unit of which this is known; units that stand inside of it are apart. If the unit does nothing that an UPDATE block
/// may not do, they also fit as they would inside of one.
pub fn the_statements_of_each_known_unit_fit()
    ensures fit { (image : ImageParts) (g : Ground) (u : Bool → Uses) (s : Set) (files : List File) (places : List Place) (unit : ℕ) (b : Body) → s.phrases ≡ phrases_of files → s.bodies ≡ bodies_of files s.phrases
        → IsSound type_rows s.phrases → IsSound lock_rows s.phrases → body_at s unit ≡ Some b → UnitKnown image g u (unit_site s places b) b.number
        → StatementsFit image g u false (unit_site s places b) 0 b.statements }
    ensures inside { (image : ImageParts) (g : Ground) (v : Uses) (s : Set) (files : List File) (places : List Place) (unit : ℕ) (b : Body) → s.phrases ≡ phrases_of files → s.bodies ≡ bodies_of files s.phrases
        → IsSound type_rows s.phrases → IsSound lock_rows s.phrases → body_at s unit ≡ Some b → UnitKnown image g (λ inside. v) (unit_site s places b) b.number → IsHarmless s.phrases b.number
        → StatementsFit image g (λ inside. v) true (unit_site s places b) 0 b.statements }
{}
