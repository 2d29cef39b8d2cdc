//! What holds of the code of statements and of their parts.

ghost use Rattle.std.specs.Prelude.{◌≡◌, ℕ, suc, Bool, true, false, List, [], ◌∷◌, Option, Some, slice_get};
ghost use Rattle.std.specs.List.{list_any};
ghost use Rattle.hal_grammar.specs.Expressions.{Expressions, Reference};
ghost use Rattle.hal_grammar.specs.Statements.{Statements};
ghost use Rattle.hal_meaning.specs.Bodies.{Body};
ghost use Rattle.hal_meaning.specs.Calls.{is_function};
ghost use Rattle.hal_meaning.specs.Places.{Place};
ghost use Rattle.hal_meaning.specs.Sets.{Set};
ghost use Rattle.hal_code.specs.declared.instr.Instr.TheVariants as instr;
ghost use Rattle.hal_code.specs.declared.image.ImageParts.{ImageParts};
ghost use Rattle.hal_code.specs.declared.row.Block.{Block};
ghost use Rattle.hal_code.specs.Blocks.{code_of, is_of_process, leads_out, outward};
ghost use Rattle.hal_code.specs.Effects.{Sorts};
ghost use Rattle.hal_code.specs.Flow.{is_inside};
ghost use Rattle.hal_code.specs.Sorts.{Sort};
ghost use Rattle.hal_agreement.specs.Codes.{Code};
ghost use Rattle.hal_agreement.specs.Sites.{Site};
ghost use Rattle.hal_agreement.specs.PlacedBlocks.{ProcessAt, UnitAt, unit_site};
ghost use Rattle.hal_agreement.specs.PlacedStatements.{Exits, ItemsAt, ReceiversAt, StatementsAt};
ghost use Rattle.hal_fitting.specs.Fitting.{Ground, Fits, IsRightAt, ground_flow};
ghost use Rattle.hal_fitting.specs.Leading.{standing, Leads};
ghost use Rattle.hal_fit_expr.specs.Uses.{Uses};
ghost use Rattle.hal_fit_expr.specs.Serving.{Serves};
ghost use Rattle.hal_fit.specs.Ending.{ClearsFit, end_behind};
ghost use Rattle.hal_fit.specs.Jumping.{Asked, MayLeave};
ghost use Rattle.hal_fit.specs.Received.{items_fit, receivers_fit};
ghost use Rattle.hal_fit.specs.Stating.{StatementsFit};
ghost use Rattle.hal_fit.specs.Supporting.{Supports};

/// Where the code of receivers that take a value stands in an image that has what they use, that code fits: it takes the value from any stack (image document,
/// When an image is right).
pub fn the_code_of_receivers_fits()
    ensures { (code : Code) (g : Ground) (site : Site) (u : Uses) (receivers : List Reference) (s : Sort) (from to : ℕ) (stack : Sorts) → Serves code g site.set site.places u
        → receivers_fit u site s receivers ≡ true → ReceiversAt code site receivers from to → Fits code.image g from (s ∷ stack) to stack }
{}

/// The same of items that are added to a line outside of UPDATE blocks, which leave the stack as it is.
pub fn the_code_of_items_fits()
    ensures { (code : Code) (g : Ground) (site : Site) (u : Uses) (items : Expressions) (from to : ℕ) (stack : Sorts) → Serves code g site.set site.places u
        → g.inside ≡ false → items_fit u site items ≡ true → ItemsAt code site items from to → Fits code.image g from stack to stack }
{}

/// Where the code of statements that fit stands in an image that has what they use, that code leads on with an empty stack: control comes from its beginning to its
/// end, and each of its instructions is right where statements begin that its jumps lead to (image document, When an image is right).
pub fn the_code_of_statements_leads_on()
    ensures { (code : Code) (g : Ground) (u : Bool → Uses) (part : Option ℕ) (site : Site) (exits : Exits) (m : ℕ) (list : Statements) (from to : ℕ) → Supports code g site.set site.places u
        → MayLeave code.image (standing part g) exits.leaving → StatementsFit code.image g u (is_inside part) site m list → StatementsAt code site exits m list from to
        → Leads code.image g (Asked code.image g part exits to) part from [] to [] }
{}

/// Where the code of a process stands whose statements fit, from its BEGIN to its FINISH, each instruction of its block is right (image document, When an image is
/// right).
pub fn the_code_of_a_process_is_right()
    ensures { (code : Code) (g : Ground) (u : Bool → Uses) (site : Site) (m : ℕ) (body : Statements) (spot : ℕ → ℕ) (at : ProcessAt code g.block.first site m body spot) → g.block.end ≡ suc at.finish
        → slice_get code.image.code g.block.first ≡ Some instr.Begin → is_of_process code.image g.number ≡ true → Supports code g site.set site.places u
        → StatementsFit code.image g u false site m body → (n : ℕ) → IsRightAt code.image g.out (ground_flow code.image g) n }
{}

/// The same of a unit that is called, from its CLEAR instructions to its last RETURN.
pub fn the_code_of_a_unit_is_right()
    ensures { (code : Code) (g : Ground) (u : Bool → Uses) (s : Set) (places : List Place) (b : Body) (at : UnitAt code s places b g.block) → g.block.end ≡ end_behind (is_function b.head) at.finish
        → slice_get code.image.blocks g.number ≡ Some g.block → is_of_process code.image g.number ≡ false → ClearsFit code.image g.block at.clears → Supports code g s places u
        → StatementsFit code.image g u false (unit_site s places b) 0 b.statements → (n : ℕ) → IsRightAt code.image g.out (ground_flow code.image g) n }
{}

/// The code of a unit that is called asks nothing, nor calls what does, where its statements fit as they would inside of an UPDATE block; so its block is one that may be
/// called there (image document, When an image is right).
pub fn a_unit_that_fits_inside_asks_nothing()
    ensures quiet { (code : Code) (g : Ground) (u : Bool → Uses) (s : Set) (places : List Place) (b : Body) (at : UnitAt code s places b g.block) → g.block.end ≡ end_behind (is_function b.head) at.finish
        → Supports code g s places u → StatementsFit code.image g u true (unit_site s places b) 0 b.statements → list_any (leads_out g.out) (code_of code.image g.block) ≡ false }
    ensures flag { (image : ImageParts) (number : ℕ) (row : Block) → slice_get image.blocks number ≡ Some row → list_any (leads_out (outward image)) (code_of image row) ≡ false
        → slice_get (outward image) number ≡ Some false }
{}
