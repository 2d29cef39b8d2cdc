//! The views that code names.

ghost use Rattle.std.specs.Prelude.{◌≡◌, OnOk, Some, map};
ghost use Rattle.hal_storage.specs.cells.SeenStoring.{seen_storing};
ghost use Rattle.hal_storage.specs.sets.SeenSets.{seen_set};
ghost use Rattle.hal_phrases.specs.SeenPhrases.{seen_node, seen_phrase};
ghost use Rattle.hal_storage.specs.referents.SeenReferents.{seen_meant, seen_referent};
ghost use Rattle.hal_tree.specs.Rows.{expressions};
ghost use Rattle.hal_tree.specs.SeenExpressions.{seen_expression, seen_reference, seen_subscript};
ghost use Rattle.hal_tree.specs.SeenLeaves.{seen_name};
ghost use Rattle.hal_meaning.specs.Calls.{parameter_named};
ghost use Rattle.hal_gen_expr.specs.Shapes.{runs_of};
ghost use Rattle.hal_gen_expr.specs.SeenLed.{seen_led};
ghost use Rattle.hal_gen_expr.specs.SeenSites.{seen_site, IsSite};
ghost use Rattle.hal_link.specs.Views as views;

use hal_code::{Base, Dimension, Run, Target, View};
use hal_gen::within_block;
use hal_gen_expr::{
    Element, Led, Site, Views, base_of, element_named, first_chosen, inputs_at, is_plain, led_by,
    outputs_at, parameter_named, parameter_runs, referent, rows_left, shape_in,
};
use hal_phrases::{Node, Phrase, Role};
use hal_storage::cells::Storing;
use hal_storage::referents::{Meant, Referent};
use hal_tree::{Expr, Identifier, Reference, Subscript};
use hal_values::{Kind, Listing};
use std::alloc::AllocError;

/// Adds the view of cells of this kind in these dimensions, which begins there, unless it is among them.
pub(crate) fn push_cell(
    into: &mut Views,
    rows: Vec<Dimension>,
    kind: Kind,
    from: Option<Base>,
) -> Result<(), AllocError>
    ensures { OnOk result (into.new.list.items ≡ views.with_cell rows.items kind into.old.list.items from) }
{
    let Some(base) = from else {
        return Ok(());
    };
    if into.has_cell(base, &rows, kind) {
        return Ok(());
    }
    into.push(View {
        base,
        dimensions: Listing::new(rows),
        target: Target::Cell(kind),
    })?;
    Ok(())
}

/// Adds that of an element.
fn push_element(
    into: &mut Views,
    site: &Site<'_>,
    declared: usize,
    stored: Storing,
    one: Option<Element>,
) -> Result<(), AllocError>
    requires site { IsSite site.now }
    ensures { OnOk result (into.new.list.items ≡ views.with_element (seen_site site.now) declared (seen_storing stored) into.old.list.items one) }
{
    match one {
        None => Ok(()),
        Some(one) => {
            let from = base_of(site, declared, stored, one.before);
            push_cell(into, Vec::new(site.alloc), one.kind, from)
        }
    }
}

/// Adds that of the one element to which names lead, where it is one.
fn push_declared(
    into: &mut Views,
    site: &Site<'_>,
    path: &[Identifier],
    referent: &Referent,
) -> Result<(), AllocError>
    requires site { IsSite site.now }
    ensures { OnOk result (into.new.list.items ≡ views.with_referent (seen_site site.now) into.old.list.items (map seen_name path.now) (seen_referent referent.now)) }
{
    match referent {
        Referent::Data {
            declared,
            stored,
            shape,
        } => {
            if shape.copies.is_some() {
                return Ok(());
            }
            let one = element_named(path, &shape.components);
            push_element(into, site, *declared, *stored, one)
        }
        Referent::Constant(_) => Ok(()),
        Referent::Event(_) => Ok(()),
        Referent::Block(_) => Ok(()),
        Referent::Nothing => Ok(()),
    }
}

fn push_meant(
    into: &mut Views,
    site: &Site<'_>,
    path: &[Identifier],
    meant: Meant<'_>,
) -> Result<(), AllocError>
    requires site { IsSite site.now }
    ensures { OnOk result (into.new.list.items ≡ views.with_referent (seen_site site.now) into.old.list.items (map seen_name path.now) (seen_meant meant.entry)) }
{
    match meant {
        Meant::Declared(referent) => push_declared(into, site, path, referent),
        Meant::Builtin(_) => Ok(()),
        Meant::Nothing => Ok(()),
    }
}

/// Adds that of the elements among which a subscript chooses, where it is data.
#[tactic(auto, unfolding(hal_gen_expr::specs::SeenLed::seen_led))]
fn push_led(
    into: &mut Views,
    site: &Site<'_>,
    subscript: &Subscript,
    led: Led<'_>,
) -> Result<(), AllocError>
    requires site { IsSite site.now }
    ensures { OnOk result (into.new.list.items ≡ views.with_led (seen_site site.now) into.old.list.items (seen_subscript subscript.now) (Some (seen_led led.entry))) }
{
    let rows = rows_left(site.alloc, subscript, led)?;
    let one = first_chosen(subscript, led, site);
    let from = base_of(site, led.declared, led.stored, one.before);
    push_cell(into, rows, one.kind, from)
}

/// Adds that of a reference.
#[tactic(auto, using(hal_tree::proofs::MadeExpressions::made_reference))]
fn push_reference(
    into: &mut Views,
    site: &Site<'_>,
    reference: &Reference,
) -> Result<(), AllocError>
    requires site { IsSite site.now }
    ensures { OnOk result (into.new.list.items ≡ views.with_reference (seen_site site.now) into.old.list.items (seen_reference reference.now)) }
{
    let meant = referent(site, &reference.name);
    if is_plain(&reference.subscript) {
        return push_meant(into, site, &reference.further, meant);
    }
    match led_by(&reference.further, meant) {
        None => Ok(()),
        Some(led) => push_led(into, site, &reference.subscript, led),
    }
}

/// Adds the view of the cells of the shape with this number in these dimensions, which begins there, unless it is among them.
fn push_shape(
    into: &mut Views,
    rows: Vec<Dimension>,
    from: Option<Base>,
    shape: Option<u32>,
) -> Result<(), AllocError>
    ensures { OnOk result (into.new.list.items ≡ views.with_shape rows.items into.old.list.items from shape) }
{
    let Some(base) = from else {
        return Ok(());
    };
    let Some(shape) = shape else {
        return Ok(());
    };
    if into.has_area(base, &rows, shape) {
        return Ok(());
    }
    into.push(View {
        base,
        dimensions: Listing::new(rows),
        target: Target::Shape(shape),
    })?;
    Ok(())
}

/// Adds that of cells of these kinds which a subscript chooses.
#[tactic(auto, unfolding(hal_gen_expr::specs::SeenLed::seen_led))]
fn push_area(
    into: &mut Views,
    site: &Site<'_>,
    runs: &[Run<Kind>],
    subscript: &Subscript,
    led: Led<'_>,
) -> Result<(), AllocError>
    requires site { IsSite site.now }
    ensures { OnOk result (into.new.list.items ≡ views.with_area site.now.shapes.now (seen_site site.now) runs.now into.old.list.items (seen_subscript subscript.now) (Some (seen_led led.entry))) }
{
    let rows = rows_left(site.alloc, subscript, led)?;
    let one = first_chosen(subscript, led, site);
    let from = base_of(site, led.declared, led.stored, one.before);
    push_shape(into, rows, from, shape_in(site.shapes, runs))
}

/// Adds that of an argument of these kinds.
#[tactic(auto, using(hal_tree::proofs::MadeExpressions::made_reference))]
fn push_referred(
    into: &mut Views,
    site: &Site<'_>,
    runs: &[Run<Kind>],
    reference: &Reference,
) -> Result<(), AllocError>
    requires site { IsSite site.now }
    ensures { OnOk result (into.new.list.items ≡ views.with_referred site.now.shapes.now (seen_site site.now) runs.now into.old.list.items (seen_reference reference.now)) }
{
    match led_by(&reference.further, referent(site, &reference.name)) {
        None => Ok(()),
        Some(led) => push_area(into, site, runs, &reference.subscript, led),
    }
}

/// Adds that of an argument for the parameter of this name of the unit with this number.
#[tactic(auto, unfolding(hal_gen_expr::specs::SeenSites::seen_site))]
fn push_spot(
    into: &mut Views,
    site: &Site<'_>,
    unit: usize,
    name: &Identifier,
    reference: &Reference,
) -> Result<(), AllocError>
    requires site { IsSite site.now }
    ensures { OnOk result (into.new.list.items ≡ views.with_spot site.now.shapes.now (seen_site site.now) into.old.list.items (parameter_named (seen_site site.now).set unit (seen_name name.now)) (seen_reference reference.now)) }
{
    let runs = parameter_runs(site.alloc, site.set, unit, name)?;
    push_referred(into, site, &runs, reference)
}

/// Adds that of an argument of these kinds, where it is a reference.
#[tactic(auto, using(hal_tree::proofs::MadeExpressions::made_or, hal_tree::proofs::MadeExpressions::made_and, hal_tree::proofs::MadeExpressions::made_compare, hal_tree::proofs::MadeExpressions::made_cat, hal_tree::proofs::MadeExpressions::made_sum, hal_tree::proofs::MadeExpressions::made_product, hal_tree::proofs::MadeExpressions::made_power, hal_tree::proofs::MadeExpressions::made_not, hal_tree::proofs::MadeExpressions::made_literal, hal_tree::proofs::MadeExpressions::made_decimal, hal_tree::proofs::MadeExpressions::made_referred, hal_tree::proofs::MadeExpressions::made_call, hal_tree::proofs::MadeExpressions::made_convert, hal_tree::proofs::MadeExpressions::made_parenthesis))]
fn push_whole(
    into: &mut Views,
    site: &Site<'_>,
    runs: &[Run<Kind>],
    tree: &Expr,
) -> Result<(), AllocError>
    requires site { IsSite site.now }
    ensures { OnOk result (into.new.list.items ≡ views.with_whole site.now.shapes.now (seen_site site.now) runs.now into.old.list.items (seen_expression tree.now)) }
{
    match tree {
        Expr::Reference(reference) => push_referred(into, site, runs, reference),
        Expr::Or { .. } => Ok(()),
        Expr::And { .. } => Ok(()),
        Expr::Compare { .. } => Ok(()),
        Expr::Cat { .. } => Ok(()),
        Expr::Sum { .. } => Ok(()),
        Expr::Product { .. } => Ok(()),
        Expr::Power { .. } => Ok(()),
        Expr::Not { .. } => Ok(()),
        Expr::Literal { .. } => Ok(()),
        Expr::Decimal { .. } => Ok(()),
        Expr::Call { .. } => Ok(()),
        Expr::Convert { .. } => Ok(()),
        Expr::Parenthesis { .. } => Ok(()),
    }
}

/// Adds that of an argument for the whole parameter of this name of the unit with this number.
#[tactic(auto, unfolding(hal_gen_expr::specs::SeenSites::seen_site))]
fn push_whole_argument(
    into: &mut Views,
    site: &Site<'_>,
    unit: usize,
    name: &Identifier,
    tree: &Expr,
) -> Result<(), AllocError>
    requires site { IsSite site.now }
    ensures { OnOk result (into.new.list.items ≡ views.with_whole site.now.shapes.now (seen_site site.now) (runs_of (parameter_named (seen_site site.now).set unit (seen_name name.now)).shape) into.old.list.items (seen_expression tree.now)) }
{
    let runs = parameter_runs(site.alloc, site.set, unit, name)?;
    push_whole(into, site, &runs, tree)
}

/// Adds that of an argument for the input parameter of this name, where it is an array or a structure.
#[tactic(auto, unfolding(hal_gen_expr::specs::SeenSites::seen_site))]
fn push_argument(
    into: &mut Views,
    site: &Site<'_>,
    unit: usize,
    name: &Identifier,
    tree: &Expr,
) -> Result<(), AllocError>
    requires site { IsSite site.now }
    ensures { OnOk result (into.new.list.items ≡ views.with_argument site.now.shapes.now (seen_site site.now) into.old.list.items (parameter_named (seen_site site.now).set unit (seen_name name.now)) (seen_expression tree.now)) }
{
    let one = parameter_named(site.alloc, site.set, unit, name)?;
    if one.whole {
        push_whole_argument(into, site, unit, name, tree)
    } else {
        Ok(())
    }
}

/// Adds those of arguments for the input parameters of these names.
#[cycle(arguments)]
#[tactic(auto, unfolding(crate::specs::Views::with_arguments, hal_tree::specs::Rows::expressions))]
fn push_arguments(
    names: &[Identifier],
    trees: &[Expr],
    into: &mut Views,
    site: &Site<'_>,
    unit: usize,
) -> Result<(), AllocError>
    requires site { IsSite site.now }
    ensures { OnOk result (into.new.list.items ≡ views.with_arguments site.now.shapes.now (seen_site site.now) unit into.old.list.items (map seen_name names.now) (expressions (map seen_expression trees.now))) }
{
    match (names.split_first(), trees.split_first()) {
        (Some((name, others)), Some((first, more))) => {
            push_argument(into, site, unit, name, first)?;
            push_arguments(others, more, into, site, unit)
        }
        _ => Ok(()),
    }
}

/// Adds those of ASSIGN arguments for the parameters of these names.
#[cycle(spots)]
#[tactic(auto, unfolding(crate::specs::Views::with_spots))]
fn push_spots(
    names: &[Identifier],
    receivers: &[Reference],
    into: &mut Views,
    site: &Site<'_>,
    unit: usize,
) -> Result<(), AllocError>
    requires site { IsSite site.now }
    ensures { OnOk result (into.new.list.items ≡ views.with_spots site.now.shapes.now (seen_site site.now) unit into.old.list.items (map seen_name names.now) (map seen_reference receivers.now)) }
{
    match (names.split_first(), receivers.split_first()) {
        (Some((name, others)), Some((receiver, more))) => {
            push_spot(into, site, unit, name, receiver)?;
            push_spots(others, more, into, site, unit)
        }
        _ => Ok(()),
    }
}

/// Adds those of a call of what a phrase declares.
fn push_declared_call(
    into: &mut Views,
    site: &Site<'_>,
    arguments: &[Expr],
    receivers: &[Reference],
    referent: &Referent,
) -> Result<(), AllocError>
    requires site { IsSite site.now }
    ensures { OnOk result (into.new.list.items ≡ views.with_call site.now.shapes.now (seen_site site.now) into.old.list.items (expressions (map seen_expression arguments.now)) (map seen_reference receivers.now) (seen_referent referent.now)) }
{
    match referent {
        Referent::Block(unit) => {
            push_arguments(inputs_at(site, *unit), arguments, into, site, *unit)?;
            push_spots(outputs_at(site, *unit), receivers, into, site, *unit)
        }
        Referent::Data { .. } => Ok(()),
        Referent::Constant(_) => Ok(()),
        Referent::Event(_) => Ok(()),
        Referent::Nothing => Ok(()),
    }
}

/// Adds those of a call of what a name means.
fn push_call(
    into: &mut Views,
    site: &Site<'_>,
    arguments: &[Expr],
    receivers: &[Reference],
    meant: Meant<'_>,
) -> Result<(), AllocError>
    requires site { IsSite site.now }
    ensures { OnOk result (into.new.list.items ≡ views.with_call site.now.shapes.now (seen_site site.now) into.old.list.items (expressions (map seen_expression arguments.now)) (map seen_reference receivers.now) (seen_meant meant.entry)) }
{
    match meant {
        Meant::Declared(referent) => push_declared_call(into, site, arguments, receivers, referent),
        Meant::Builtin(_) => Ok(()),
        Meant::Nothing => Ok(()),
    }
}

/// Adds that of an own place of the group with this number, before which so many of its places lie.
fn push_place(
    into: &mut Views,
    site: &Site<'_>,
    group: usize,
    before: u32,
) -> Result<(), AllocError>
    requires site { IsSite site.now }
    ensures { OnOk result (into.new.list.items ≡ views.with_place (seen_site site.now) group before into.old.list.items) }
{
    let from = base_of(site, group, Storing::InPlaces, before);
    push_cell(into, Vec::new(site.alloc), Kind::Double, from)
}

/// Adds those of a DO FOR.
fn push_places(into: &mut Views, site: &Site<'_>, group: usize) -> Result<(), AllocError>
    requires site { IsSite site.now }
    ensures { OnOk result (into.new.list.items ≡ views.with_places (seen_site site.now) group into.old.list.items) }
{
    push_place(into, site, group, 0)?;
    push_place(into, site, group, 1)?;
    push_place(into, site, group, 2)?;
    push_place(into, site, group, 3)
}

/// Adds those of one with a TEMPORARY variable, which is the first of five.
fn push_temporary(into: &mut Views, site: &Site<'_>, group: usize) -> Result<(), AllocError>
    requires site { IsSite site.now }
    ensures { OnOk result (into.new.list.items ≡ views.with_temporary (seen_site site.now) group into.old.list.items) }
{
    push_places(into, site, group)?;
    push_place(into, site, group, 4)
}

/// Adds that of the number of a DO CASE.
fn push_role(into: &mut Views, site: &Site<'_>, parent: usize, role: Role) -> Result<(), AllocError>
    requires site { IsSite site.now }
    ensures { OnOk result (into.new.list.items ≡ views.with_role (seen_site site.now) into.old.list.items parent role) }
{
    match role {
        Role::Case => push_place(into, site, parent, 0),
        _ => Ok(()),
    }
}

/// Adds those of a phrase, of which these are the number and the parent.
fn push_node(
    into: &mut Views,
    site: &Site<'_>,
    number: usize,
    parent: usize,
    node: Node<'_>,
) -> Result<(), AllocError>
    requires site { IsSite site.now }
    ensures { OnOk result (into.new.list.items ≡ views.with_node site.now.shapes.now (seen_site site.now) into.old.list.items number parent (seen_node node.entry)) }
{
    match node {
        Node::Expression { role, tree: _ } => push_role(into, site, parent, role),
        Node::Variable { name } => {
            push_meant(into, site, &[], referent(site, &name.name))?;
            push_places(into, site, parent)
        }
        Node::TemporaryGroup { .. } => push_temporary(into, site, number),
        Node::Reference { role: _, reference } => push_reference(into, site, reference),
        Node::SubscriptName { name } => push_meant(into, site, &[], referent(site, &name.name)),
        Node::CallForm {
            place: _,
            name,
            arguments,
        } => {
            push_meant(into, site, &[], referent(site, name))?;
            push_call(into, site, arguments, &[], referent(site, name))
        }
        Node::Call {
            name,
            arguments,
            receivers,
        } => push_call(into, site, arguments, receivers, referent(site, &name.name)),
        _ => Ok(()),
    }
}

/// Adds those of a phrase, where it stands in the unit; its names are looked up in the innermost block around it.
#[tactic(auto, unfolding(hal_gen_expr::specs::SeenSites::seen_site))]
fn push_phrase(into: &mut Views, site: &Site<'_>, phrase: &Phrase<'_>) -> Result<(), AllocError>
    requires site { IsSite site.now }
    ensures { OnOk result (into.new.list.items ≡ views.with_phrase site.now.shapes.now (seen_site site.now) into.old.list.items (seen_phrase phrase.now)) }
{
    if phrase.around.home == site.unit {
        let inner = within_block(site, phrase.around.block);
        push_node(
            into,
            &inner,
            phrase.number,
            phrase.around.parent,
            phrase.node,
        )
    } else {
        Ok(())
    }
}

/// Adds those of phrases.
#[tactic(auto, unfolding(crate::specs::Views::with_phrases))]
fn push_phrases(into: &mut Views, site: &Site<'_>, phrases: &[Phrase<'_>]) -> Result<(), AllocError>
    requires site { IsSite site.now }
    ensures { OnOk result (into.new.list.items ≡ views.with_phrases site.now.shapes.now (seen_site site.now) into.old.list.items (map seen_phrase phrases.now)) }
{
    for phrase in phrases {
        push_phrase(into, site, phrase)?;
    }
    Ok(())
}

/// Adds those of the phrases that stand in the unit of the site.
#[tactic(auto, using(crate::proofs::Homes::views_of_home), unfolding(hal_gen_expr::specs::SeenSites::seen_site))]
pub(crate) fn push_home(into: &mut Views, site: &Site<'_>) -> Result<(), AllocError>
    requires site { IsSite site.now }
    ensures { OnOk result (into.new.list.items ≡ views.with_phrases site.now.shapes.now (seen_site site.now) into.old.list.items (seen_set site.now.set.now).phrases) }
{
    push_phrases(into, site, site.set.names.of_home(site.unit))
}
