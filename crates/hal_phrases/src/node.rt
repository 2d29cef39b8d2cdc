//! What a phrase is.

ghost use Rattle.std.specs.Prelude.{◌≡◌, length, map, OnOk};
ghost use Rattle.hal_phrases.specs.Surroundings as surroundings;
ghost use Rattle.hal_phrases.specs.Phrases.{add};
ghost use Rattle.hal_phrases.specs.GatheredExpressions.{below};
ghost use Rattle.hal_phrases.specs.SeenPhrases.{seen_node, seen_phrase};

use crate::around::Around;
use crate::role::Role;
use hal_base::Place;
use hal_tree::{
    Attribute, Declaration, Declared, EventChange, Expr, Head, Identifier, Initial, Part, Preface,
    Reference, Selector,
};
use hal_words::Name;
use std::alloc::AllocError;

/// What a phrase is. A constructor of the trees of which a rule speaks has a variant of its own, without what stands below where no rule asks for it. A set has
/// many phrases, and most passes look at all of them: so what takes more than 40 bytes is a reference.
#[derive(Clone, Copy)]
pub enum Node<'a> {
    /// A file, by its prefaces and the name of its unit.
    File {
        prefaces: &'a [Preface],
        name: &'a Identifier,
    },
    /// INCLUDE of the template of the unit with this name.
    Include {
        name: &'a Identifier,
    },
    /// A written template.
    Template {
        name: &'a Identifier,
        head: &'a Head,
        declarations: &'a [Declaration],
    },
    Unit {
        name: &'a Identifier,
        head: &'a Head,
        declarations: &'a [Declaration],
    },
    /// A parameter, `output` where it is an ASSIGN parameter.
    Parameter {
        name: &'a Identifier,
        output: bool,
    },
    /// The name behind CLOSE or END.
    Close {
        name: &'a Identifier,
    },
    /// DECLARE, by the attributes before the comma.
    Declare {
        common: &'a [Attribute],
    },
    /// A name that DECLARE declares, with the attributes before the comma.
    Item {
        common: &'a [Attribute],
        item: &'a Declared,
    },
    Structure {
        name: &'a Identifier,
        parts: &'a [Part],
    },
    /// A part of a structure, which has no parts of its own where it is at the bottom.
    Part {
        bottom: bool,
        part: &'a Part,
    },
    /// The type of a structure variable.
    StructureType {
        place: Place,
        template: &'a Name,
    },
    Initial(&'a Initial),
    /// A name that is an initial value so many times.
    InitialName {
        name: &'a Identifier,
    },
    Label {
        name: &'a Identifier,
    },
    /// An expression.
    Expression {
        role: Role,
        tree: &'a Expr,
    },
    Decimal {
        role: Role,
        place: Place,
    },
    /// `name(argument, ..)`
    CallForm {
        place: &'a Place,
        name: &'a Name,
        arguments: &'a [Expr],
    },
    Reference {
        role: Role,
        reference: &'a Reference,
    },
    /// The name of `$name`.
    SubscriptName {
        name: &'a Identifier,
    },
    Assignment {
        receivers: &'a [Reference],
        value: &'a Expr,
    },
    /// A DO group without a TEMPORARY variable, `looping` where its statements are a loop's body.
    Group {
        labels: &'a [Identifier],
        looping: bool,
    },
    /// A DO FOR group with a TEMPORARY variable.
    TemporaryGroup {
        labels: &'a [Identifier],
        variable: &'a Identifier,
    },
    /// The variable of DO FOR where it isn't TEMPORARY.
    Variable {
        name: &'a Identifier,
    },
    Exit {
        place: Place,
        label: &'a Option<Identifier>,
    },
    Repeat {
        place: Place,
        label: &'a Option<Identifier>,
    },
    Return {
        place: Place,
        value: &'a Option<Expr>,
    },
    Call {
        name: &'a Identifier,
        arguments: &'a [Expr],
        receivers: &'a [Reference],
    },
    Read {
        place: Place,
    },
    Write {
        place: Place,
    },
    Update {
        place: Place,
        labels: &'a [Identifier],
    },
    /// SCHEDULE, CANCEL, TERMINATE, WAIT, UPDATE PRIORITY.
    RealTime {
        place: Place,
    },
    /// The name of a process in such a statement.
    Process {
        name: &'a Identifier,
    },
    /// SIGNAL, SET, RESET, as a statement or behind ON ERROR.
    Event(&'a EventChange),
    /// ON ERROR with a statement.
    Handler {
        place: Place,
        selector: &'a Selector,
    },
    /// ON ERROR with SYSTEM or IGNORE.
    Response {
        place: Place,
        selector: &'a Selector,
    },
    OffError {
        place: Place,
        selector: &'a Selector,
    },
    SendError {
        group_at: &'a Place,
        group: u32,
        number_at: &'a Place,
        number: u32,
    },
}

/// A phrase of a set of files. Its number is its place in the list of phrases, from 0.
#[derive(Clone, Copy)]
pub struct Phrase<'a> {
    pub number: usize,
    pub around: Around,
    pub node: Node<'a>,
}

/// Adds a phrase to the list.
pub(crate) fn push<'a>(
    into: &mut Vec<Phrase<'a>>,
    around: Around,
    node: Node<'a>,
) -> Result<(), AllocError>
    ensures { OnOk result (map seen_phrase into.new.items ≡ add (map seen_phrase into.old.items) around (seen_node node.entry)) }
{
    into.push(Phrase {
        number: into.len(),
        around,
        node,
    })?;
    Ok(())
}

/// The number of the phrase that comes next.
pub(crate) fn next_number(into: &Vec<Phrase<'_>>) -> usize
    ensures { result ≡ length (map seen_phrase into.now.items) }
{
    into.len()
}

/// What stands around the body of the unit or template whose phrase comes next.
pub(crate) fn opened(into: &Vec<Phrase<'_>>, around: Around) -> Around
    ensures { result ≡ surroundings.opened (length (map seen_phrase into.now.items)) around }
{
    around.opened(into.len())
}

/// What stands around the statements of the DO group whose phrase comes next.
pub(crate) fn grouped(into: &Vec<Phrase<'_>>, around: Around) -> Around
    ensures { result ≡ surroundings.grouped (length (map seen_phrase into.now.items)) around }
{
    around.grouped(into.len())
}

/// What stands around the statements of the UPDATE block whose phrase comes next.
pub(crate) fn updated(into: &Vec<Phrase<'_>>, around: Around) -> Around
    ensures { result ≡ surroundings.updated (length (map seen_phrase into.now.items)) around }
{
    around.updated(into.len())
}

/// What stands around the parts of the phrase that comes next.
pub(crate) fn below(into: &Vec<Phrase<'_>>, around: Around) -> Around
    ensures { result ≡ below (map seen_phrase into.now.items) around }
{
    around.under(into.len())
}
