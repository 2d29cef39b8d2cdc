//! How many instructions statements have: so targets are known before the code that stands in between. An error comes where the code would have more
//! than memory has room for.

ghost use Rattle.std.specs.Prelude.{◌≡◌, ◌+◌, suc, IfOk, length, map};
ghost use Rattle.std.specs.Option.{option_map};
ghost use Rattle.hal_grammar.specs.Statements as grammar;
ghost use Rattle.hal_tree.specs.Rows.{expressions, statements};
ghost use Rattle.hal_tree.specs.SeenExpressions.{seen_expression, seen_reference};
ghost use Rattle.hal_tree.specs.SeenLeaves.{seen_name};
ghost use Rattle.hal_tree.specs.SeenStatements.{seen_alternative, seen_basic, seen_group, seen_guard, seen_span, seen_statement};
ghost use Rattle.hal_meaning.specs.Marks as marks;
ghost use Rattle.hal_meaning.specs.Sets.{body_at};
ghost use Rattle.hal_agreement.specs.Sites as sites;
ghost use Rattle.hal_gen_expr.specs.SeenSites.{seen_site, seen_numbering, IsSite};
ghost use Rattle.hal_gen.specs.Leaves as leaves;
ghost use Rattle.hal_gen.specs.Sizes as sizes;

use crate::calls::call_size;
use crate::marks::{after_alternative, after_statement, next};
use crate::receivers::receiver_size;
use crate::returns::gives_text;
use crate::schedules::schedule_size;
use crate::sites::group_site;
use crate::times::time_size;
use hal_gen_expr::{Site, Uncoded, emit_expression};
use hal_tree::{Basic, Expr, Group, Guard, Identifier, Reference, Span, Statement};
use std::alloc::AllocError;

/// The size of two phrases.
pub(crate) fn sum(first: usize, second: usize) -> Result<usize, AllocError>
    ensures { IfOk result (λ size. size ≡ first + second) }
{
    match first.checked_add(second) {
        None => Err(AllocError),
        Some(size) => Ok(size),
    }
}

/// The size of three phrases.
fn sum_of(first: usize, second: usize, third: usize) -> Result<usize, AllocError>
    ensures { IfOk result (λ size. size ≡ first + (second + third)) }
{
    sum(first, sum(second, third)?)
}

/// The size of an expression, 0 where it has no code.
pub(crate) fn expression_size(tree: &Expr, site: &Site<'_>) -> Result<usize, AllocError>
    requires site { IsSite site.now }
    ensures { IfOk result (λ size. size ≡ sizes.expression_size (seen_numbering site.now) (seen_site site.now) (seen_expression tree.now)) }
{
    let mut code = Vec::new(site.alloc);
    match emit_expression(tree, &mut code, site) {
        Ok(()) => Ok(code.len()),
        Err(Uncoded::At(_)) => Ok(0),
        Err(Uncoded::Memory(error)) => Err(error),
    }
}

/// The size of the number of a DO CASE, with what keeps it.
fn number_size(tree: &Expr, site: &Site<'_>) -> Result<usize, AllocError>
    requires site { IsSite site.now }
    ensures { IfOk result (λ size. size ≡ sizes.expression_size (seen_numbering site.now) (seen_site site.now) (seen_expression tree.now) + 2) }
{
    sum(expression_size(tree, site)?, 2)
}

/// The size of the items of WRITE.
#[tactic(auto, unfolding(crate::specs::Sums::with_items))]
fn items_size(items: &[Expr], site: &Site<'_>) -> Result<usize, AllocError>
    requires site { IsSite site.now }
    ensures { IfOk result (λ size. size ≡ sizes.items_size (seen_numbering site.now) (seen_site site.now) (expressions (map seen_expression items.now))) }
{
    let mut size: usize = 0;
    for item in items {
        size = sum(size, sum(expression_size(item, site)?, 1)?)?;
    }
    Ok(size)
}

/// The size of WRITE with these items.
fn write_size(items: &[Expr], site: &Site<'_>) -> Result<usize, AllocError>
    requires site { IsSite site.now }
    ensures { IfOk result (λ size. size ≡ sizes.items_size (seen_numbering site.now) (seen_site site.now) (expressions (map seen_expression items.now)) + 1) }
{
    sum(items_size(items, site)?, 1)
}

/// The size of the receivers of READ, with INPUT before each.
#[tactic(auto, unfolding(crate::specs::Sums::with_receivers))]
fn reads_size(receivers: &[Reference], site: &Site<'_>) -> Result<usize, AllocError>
    requires site { IsSite site.now }
    ensures { IfOk result (λ size. size ≡ sizes.reads_size (seen_numbering site.now) (seen_site site.now) (map seen_reference receivers.now)) }
{
    let mut size: usize = 0;
    for receiver in receivers {
        size = sum(size, sum(1, receiver_size(receiver, site)?)?)?;
    }
    Ok(size)
}

/// The size of the receivers of an assignment, with a copy before all but the last one.
#[tactic(auto, using(crate::proofs::Counted::receivers_counted))]
fn receivers_size(receivers: &[Reference], site: &Site<'_>) -> Result<usize, AllocError>
    requires site { IsSite site.now }
    ensures { IfOk result (λ size. size ≡ sizes.receivers_size (seen_numbering site.now) (seen_site site.now) (map seen_reference receivers.now)) }
{
    Ok(reads_size(receivers, site)?.saturating_sub(1))
}

/// The size of an assignment.
fn assignment_size(
    receivers: &[Reference],
    value: &Expr,
    site: &Site<'_>,
) -> Result<usize, AllocError>
    requires site { IsSite site.now }
    ensures { IfOk result (λ size. size ≡ sizes.expression_size (seen_numbering site.now) (seen_site site.now) (seen_expression value.now) + sizes.receivers_size (seen_numbering site.now) (seen_site site.now) (map seen_reference receivers.now)) }
{
    sum(
        expression_size(value, site)?,
        receivers_size(receivers, site)?,
    )
}

/// The size of the first test of a loop.
#[tactic(auto, using(hal_tree::proofs::MadeStatements::made_while, hal_tree::proofs::MadeStatements::made_until))]
fn first_test_size(guard: &Guard, site: &Site<'_>) -> Result<usize, AllocError>
    requires site { IsSite site.now }
    ensures { IfOk result (λ size. size ≡ sizes.first_test_size (seen_numbering site.now) (seen_site site.now) (seen_guard guard.now)) }
{
    match guard {
        Guard::While {
            place: _,
            condition,
        } => sum(expression_size(condition, site)?, 1),
        Guard::Until {
            place: _,
            condition: _,
        } => Ok(0),
    }
}

/// The size of each later one.
#[tactic(auto, using(hal_tree::proofs::MadeStatements::made_while, hal_tree::proofs::MadeStatements::made_until))]
fn test_size(guard: &Guard, site: &Site<'_>) -> Result<usize, AllocError>
    requires site { IsSite site.now }
    ensures { IfOk result (λ size. size ≡ sizes.test_size (seen_numbering site.now) (seen_site site.now) (seen_guard guard.now)) }
{
    match guard {
        Guard::While {
            place: _,
            condition,
        } => sum(expression_size(condition, site)?, 2),
        Guard::Until {
            place: _,
            condition,
        } => sum(expression_size(condition, site)?, 1),
    }
}

/// The size of the test of a DO FOR before its first turn.
fn first_span_size(guard: &Option<Guard>, site: &Site<'_>) -> Result<usize, AllocError>
    requires site { IsSite site.now }
    ensures { IfOk result (λ size. size ≡ sizes.first_span_size (seen_numbering site.now) (seen_site site.now) (option_map seen_guard guard.now)) }
{
    match guard {
        None => Ok(0),
        Some(guard) => first_test_size(guard, site),
    }
}

/// The size of each later one.
fn later_span_size(guard: &Option<Guard>, site: &Site<'_>) -> Result<usize, AllocError>
    requires site { IsSite site.now }
    ensures { IfOk result (λ size. size ≡ sizes.later_span_size (seen_numbering site.now) (seen_site site.now) (option_map seen_guard guard.now)) }
{
    match guard {
        None => Ok(1),
        Some(guard) => test_size(guard, site),
    }
}

/// The size of a value of a DO FOR's list, which is stored and counted.
pub(crate) fn value_size(tree: &Expr, site: &Site<'_>) -> Result<usize, AllocError>
    requires site { IsSite site.now }
    ensures { IfOk result (λ size. size ≡ sizes.value_size (seen_numbering site.now) (seen_site site.now) (seen_expression tree.now)) }
{
    sum(expression_size(tree, site)?, 5)
}

/// The size of values behind the first one, each with a test before it and a jump behind it.
#[tactic(auto, unfolding(crate::specs::Sums::with_values))]
fn values_size(values: &[Expr], site: &Site<'_>) -> Result<usize, AllocError>
    requires site { IsSite site.now }
    ensures { IfOk result (λ size. size + 1 ≡ sizes.next_values_size (seen_numbering site.now) (seen_site site.now) (expressions (map seen_expression values.now))) }
{
    let mut size: usize = 0;
    for tree in values {
        size = sum(size, sum(5, sum(value_size(tree, site)?, 1)?)?)?;
    }
    Ok(size)
}

/// The same with the jump behind them.
pub(crate) fn next_values_size(values: &[Expr], site: &Site<'_>) -> Result<usize, AllocError>
    requires site { IsSite site.now }
    ensures { IfOk result (λ size. size ≡ sizes.next_values_size (seen_numbering site.now) (seen_site site.now) (expressions (map seen_expression values.now))) }
{
    sum(values_size(values, site)?, 1)
}

/// The size of the step of a DO FOR with TO.
fn step_size(step: &Option<Expr>, site: &Site<'_>) -> Result<usize, AllocError>
    requires site { IsSite site.now }
    ensures { IfOk result (λ size. size ≡ sizes.step_size (seen_numbering site.now) (seen_site site.now) (option_map seen_expression step.now)) }
{
    match step {
        None => Ok(1),
        Some(tree) => expression_size(tree, site),
    }
}

/// The size of the bounds of a DO FOR with TO, with what stores and tests them.
fn bounds_size(
    first: &Expr,
    last: &Expr,
    step: &Option<Expr>,
    site: &Site<'_>,
) -> Result<usize, AllocError>
    requires site { IsSite site.now }
    ensures { IfOk result (λ size. size ≡ sizes.expression_size (seen_numbering site.now) (seen_site site.now) (seen_expression first.now) + (sizes.expression_size (seen_numbering site.now) (seen_site site.now) (seen_expression last.now) + (sizes.step_size (seen_numbering site.now) (seen_site site.now) (option_map seen_expression step.now) + 29))) }
{
    let rest = sum(step_size(step, site)?, 29)?;
    let ends = sum(expression_size(last, site)?, rest)?;
    sum(expression_size(first, site)?, ends)
}

/// The size of the first value of a list.
#[tactic(auto, unfolding(hal_tree::specs::Rows::expressions))]
fn first_value_size(values: &[Expr], site: &Site<'_>) -> Result<usize, AllocError>
    requires site { IsSite site.now }
    ensures { IfOk result (λ size. size ≡ sizes.begin_size (seen_numbering site.now) (seen_site site.now) (grammar.Listed (expressions (map seen_expression values.now)))) }
{
    match values {
        [] => Ok(0),
        [first, ..] => value_size(first, site),
    }
}

/// The size of the others.
#[tactic(auto, unfolding(hal_tree::specs::Rows::expressions))]
fn other_values_size(values: &[Expr], site: &Site<'_>) -> Result<usize, AllocError>
    requires site { IsSite site.now }
    ensures { IfOk result (λ size. size ≡ sizes.again_size (seen_numbering site.now) (seen_site site.now) (grammar.Listed (expressions (map seen_expression values.now)))) }
{
    match values {
        [] => Ok(0),
        [_, others @ ..] => next_values_size(others, site),
    }
}

/// The size of what stands before the first test of a DO FOR.
#[tactic(auto, unfolding(hal_tree::specs::SeenStatements::seen_span))]
fn begin_size(span: &Span, site: &Site<'_>) -> Result<usize, AllocError>
    requires site { IsSite site.now }
    ensures { IfOk result (λ size. size ≡ sizes.begin_size (seen_numbering site.now) (seen_site site.now) (seen_span span.now)) }
{
    match span {
        Span::Range { first, last, step } => bounds_size(first, last, step, site),
        Span::List { values } => first_value_size(values, site),
    }
}

/// The size of what stands behind a turn, before the test.
#[tactic(auto, unfolding(hal_tree::specs::SeenStatements::seen_span))]
fn again_size(span: &Span, site: &Site<'_>) -> Result<usize, AllocError>
    requires site { IsSite site.now }
    ensures { IfOk result (λ size. size ≡ sizes.again_size (seen_numbering site.now) (seen_site site.now) (seen_span span.now)) }
{
    match span {
        Span::Range { .. } => Ok(21),
        Span::List { values } => other_values_size(values, site),
    }
}

/// The size of a jump over what stands after ELSE.
pub(crate) fn jump_size(alternative: &Option<Box<Statement>>) -> usize
    ensures { result ≡ sizes.jump_size (seen_alternative alternative.now) }
{
    match alternative {
        None => 0,
        Some(_) => 1,
    }
}

/// The size of CANCEL or TERMINATE.
#[tactic(auto, using(crate::proofs::Counted::names_counted))]
fn names_size(names: &[Identifier]) -> usize
    ensures { result ≡ sizes.names_size (map seen_name names.now) }
{
    names.len().max(1)
}

/// The size of RETURN with a value.
fn result_size(value: &Expr, site: &Site<'_>) -> Result<usize, AllocError>
    requires site { IsSite site.now }
    ensures { IfOk result (λ size. size ≡ sizes.expression_size (seen_numbering site.now) (seen_site site.now) (seen_expression value.now) + (length (leaves.as_result (body_at (seen_site site.now).set (seen_site site.now).unit)) + 1)) }
{
    let size = expression_size(value, site)?;
    if gives_text(site) {
        sum(size, 2)
    } else {
        sum(size, 1)
    }
}

/// The size of RETURN.
fn return_size(value: &Option<Expr>, site: &Site<'_>) -> Result<usize, AllocError>
    requires site { IsSite site.now }
    ensures { IfOk result (λ size. size ≡ sizes.return_size (seen_numbering site.now) (seen_site site.now) (option_map seen_expression value.now)) }
{
    match value {
        None => Ok(1),
        Some(value) => result_size(value, site),
    }
}

/// The size of a statement before which the next mark has this number (image document, Code that stands for a set).
#[cycle(sizes)]
#[tactic(auto, using(hal_tree::proofs::MadeStatements::made_statement))]
pub fn statement_size(tree: &Statement, site: &Site<'_>, mark: usize) -> Result<usize, AllocError>
    requires site { IsSite site.now }
    ensures { IfOk result (λ size. size ≡ sizes.statement_size (seen_numbering site.now) (seen_site site.now) mark (seen_statement tree.now)) }
{
    basic_size(&tree.basic, site, mark)
}

/// The size of statements one after another.
#[cycle(sizes)]
#[tactic(auto, unfolding(crate::specs::Sums::with_statements))]
fn statements_size(trees: &[Statement], site: &Site<'_>, mark: usize) -> Result<usize, AllocError>
    requires site { IsSite site.now }
    ensures { IfOk result (λ size. size ≡ sizes.statements_size (seen_numbering site.now) (seen_site site.now) mark (statements (map seen_statement trees.now))) }
{
    let mut size: usize = 0;
    let mut following = mark;
    for tree in trees {
        size = sum(size, statement_size(tree, site, following)?)?;
        following = after_statement(tree, following)?;
    }
    Ok(size)
}

/// The size of a group.
#[cycle(sizes)]
#[tactic(auto, using(hal_tree::proofs::MadeStatements::parts_of_group))]
pub(crate) fn group_size(tree: &Group, site: &Site<'_>, mark: usize) -> Result<usize, AllocError>
    requires site { IsSite site.now }
    ensures { IfOk result (λ size. size ≡ sizes.group_size (seen_numbering site.now) (seen_site site.now) mark (seen_group tree.now)) }
{
    statements_size(&tree.statements, site, mark)
}

/// The size of what stands after ELSE.
#[cycle(sizes)]
fn alternative_size(
    tree: &Option<Box<Statement>>,
    site: &Site<'_>,
    mark: usize,
) -> Result<usize, AllocError>
    requires site { IsSite site.now }
    ensures { IfOk result (λ size. size ≡ sizes.alternative_size (seen_numbering site.now) (seen_site site.now) mark (seen_alternative tree.now)) }
{
    match tree {
        None => Ok(0),
        Some(statement) => statement_size(statement, site, mark),
    }
}

/// The size of what DO CASE does where its number selects no statement.
#[cycle(sizes)]
fn uncased_size(
    tree: &Option<Box<Statement>>,
    site: &Site<'_>,
    mark: usize,
) -> Result<usize, AllocError>
    requires site { IsSite site.now }
    ensures { IfOk result (λ size. size ≡ sizes.uncased_size (seen_numbering site.now) (seen_site site.now) mark (seen_alternative tree.now)) }
{
    match tree {
        None => Ok(1),
        Some(statement) => statement_size(statement, site, mark),
    }
}

/// The size of the statements of DO CASE, each with a test before it and a jump behind it.
#[cycle(sizes)]
#[tactic(auto, unfolding(crate::specs::Sums::with_cases))]
fn selected_size(trees: &[Statement], site: &Site<'_>, mark: usize) -> Result<usize, AllocError>
    requires site { IsSite site.now }
    ensures { IfOk result (λ size. size ≡ sizes.selected_size (seen_numbering site.now) (seen_site site.now) mark (statements (map seen_statement trees.now))) }
{
    let mut size: usize = 0;
    let mut following = mark;
    for tree in trees {
        size = sum(
            size,
            sum(5, sum(statement_size(tree, site, following)?, 1)?)?,
        )?;
        following = after_statement(tree, following)?;
    }
    Ok(size)
}

/// The size of a group of DO CASE.
#[cycle(sizes)]
#[tactic(auto, using(hal_tree::proofs::MadeStatements::parts_of_group))]
fn cases_size(tree: &Group, site: &Site<'_>, mark: usize) -> Result<usize, AllocError>
    requires site { IsSite site.now }
    ensures { IfOk result (λ size. size ≡ sizes.cases_size (seen_numbering site.now) (seen_site site.now) mark (seen_group tree.now)) }
{
    selected_size(&tree.statements, site, mark)
}

/// The size of a DO CASE of this mark.
pub(crate) fn selection_size(
    group: &Group,
    number: &Expr,
    alternative: &Option<Box<Statement>>,
    site: &Site<'_>,
    mark: usize,
) -> Result<usize, AllocError>
    requires site { IsSite site.now }
    ensures { IfOk result (λ size. size ≡ (sizes.expression_size (seen_numbering site.now) (seen_site site.now) (seen_expression number.now) + 2) + (sizes.cases_size (seen_numbering site.now) (seen_site site.now) (marks.after_alternative (suc mark) (seen_alternative alternative.now)) (seen_group group.now) + sizes.uncased_size (seen_numbering site.now) (seen_site site.now) (suc mark) (seen_alternative alternative.now))) }
{
    let begin = number_size(number, site)?;
    let inner = next(mark)?;
    let following = after_alternative(alternative, inner)?;
    let cases = cases_size(group, site, following)?;
    let other = uncased_size(alternative, site, inner)?;
    sum_of(begin, cases, other)
}

/// The size of a DO FOR, at the site of its group, before which the next mark has this number.
#[cycle(sizes)]
pub(crate) fn spanned_size(
    group: &Group,
    span: &Span,
    guard: &Option<Guard>,
    site: &Site<'_>,
    mark: usize,
) -> Result<usize, AllocError>
    requires site { IsSite site.now }
    ensures { IfOk result (λ size. size ≡ sizes.spanned_size (seen_numbering site.now) (seen_site site.now) (seen_span span.now) (option_map seen_guard guard.now) (sizes.group_size (seen_numbering site.now) (seen_site site.now) mark (seen_group group.now))) }
{
    let test = sum(begin_size(span, site)?, first_span_size(guard, site)?)?;
    let begin = sum(test, 1)?;
    let later = sum(again_size(span, site)?, later_span_size(guard, site)?)?;
    let turn = sum(group_size(group, site, mark)?, later)?;
    sum(begin, turn)
}

/// The size of a DO FOR of this mark.
#[cycle(sizes)]
fn range_size(
    group: &Group,
    span: &Span,
    guard: &Option<Guard>,
    temporary: bool,
    site: &Site<'_>,
    mark: usize,
) -> Result<usize, AllocError>
    requires site { IsSite site.now }
    ensures { IfOk result (λ size. size ≡ sizes.spanned_size (seen_numbering site.now) (sites.group_site (seen_site site.now) temporary mark) (seen_span span.now) (option_map seen_guard guard.now) (sizes.group_size (seen_numbering site.now) (sites.group_site (seen_site site.now) temporary mark) (suc mark) (seen_group group.now))) }
{
    let inner = group_site(site, temporary, mark);
    spanned_size(group, span, guard, &inner, next(mark)?)
}

/// The size of a loop of this mark.
#[cycle(sizes)]
pub(crate) fn loop_size(
    group: &Group,
    guard: &Guard,
    site: &Site<'_>,
    mark: usize,
) -> Result<usize, AllocError>
    requires site { IsSite site.now }
    ensures { IfOk result (λ size. size ≡ (sizes.first_test_size (seen_numbering site.now) (seen_site site.now) (seen_guard guard.now) + 1) + (sizes.group_size (seen_numbering site.now) (seen_site site.now) (suc mark) (seen_group group.now) + sizes.test_size (seen_numbering site.now) (seen_site site.now) (seen_guard guard.now))) }
{
    let begin = sum(first_test_size(guard, site)?, 1)?;
    let inner = group_size(group, site, next(mark)?)?;
    let turn = sum(inner, test_size(guard, site)?)?;
    sum(begin, turn)
}

/// The size of IF, of whose parts these are the sizes.
fn branch_size(
    condition: usize,
    consequence: usize,
    jump: usize,
    alternative: usize,
) -> Result<usize, AllocError>
    ensures { IfOk result (λ size. size ≡ (condition + 1) + (consequence + (jump + alternative))) }
{
    let test = sum(condition, 1)?;
    let other = sum(jump, alternative)?;
    sum(test, sum(consequence, other)?)
}

/// The size of the UPDATE block of this mark.
#[cycle(sizes)]
fn update_size(body: &Vec<Statement>, site: &Site<'_>, mark: usize) -> Result<usize, AllocError>
    requires site { IsSite site.now }
    ensures { IfOk result (λ size. size ≡ sizes.statements_size (seen_numbering site.now) (seen_site site.now) (suc mark) (statements (map seen_statement body.now.items)) + 2) }
{
    sum(statements_size(body, site, next(mark)?)?, 2)
}

/// The size of a statement without labels.
#[cycle(sizes)]
#[tactic(auto, using(hal_tree::proofs::MadeStatements::made_null, hal_tree::proofs::MadeStatements::made_assignment, hal_tree::proofs::MadeStatements::made_if, hal_tree::proofs::MadeStatements::made_do, hal_tree::proofs::MadeStatements::made_do_case, hal_tree::proofs::MadeStatements::made_do_loop, hal_tree::proofs::MadeStatements::made_do_for, hal_tree::proofs::MadeStatements::made_exit, hal_tree::proofs::MadeStatements::made_repeat, hal_tree::proofs::MadeStatements::made_return, hal_tree::proofs::MadeStatements::made_call_statement, hal_tree::proofs::MadeStatements::made_read, hal_tree::proofs::MadeStatements::made_write, hal_tree::proofs::MadeStatements::made_update, hal_tree::proofs::MadeStatements::made_schedule_statement, hal_tree::proofs::MadeStatements::made_cancel, hal_tree::proofs::MadeStatements::made_terminate, hal_tree::proofs::MadeStatements::made_wait, hal_tree::proofs::MadeStatements::made_wait_until, hal_tree::proofs::MadeStatements::made_wait_for_dependent, hal_tree::proofs::MadeStatements::made_wait_for, hal_tree::proofs::MadeStatements::made_event, hal_tree::proofs::MadeStatements::made_update_priority, hal_tree::proofs::MadeStatements::made_on_error_statement, hal_tree::proofs::MadeStatements::made_on_error_response, hal_tree::proofs::MadeStatements::made_off_error, hal_tree::proofs::MadeStatements::made_send_error))]
fn basic_size(tree: &Basic, site: &Site<'_>, mark: usize) -> Result<usize, AllocError>
    requires site { IsSite site.now }
    ensures { IfOk result (λ size. size ≡ sizes.basic_size (seen_numbering site.now) (seen_site site.now) mark (seen_basic tree.now)) }
{
    match tree {
        Basic::If {
            place: _,
            condition,
            consequence,
            alternative,
        } => {
            let tested = expression_size(condition, site)?;
            let followed = statement_size(consequence, site, mark)?;
            let following = after_statement(consequence, mark)?;
            let otherwise = alternative_size(alternative, site, following)?;
            branch_size(tested, followed, jump_size(alternative), otherwise)
        }
        Basic::Do { place: _, group } => group_size(group, site, next(mark)?),
        Basic::DoCase {
            place: _,
            selector,
            alternative,
            group,
        } => {
            let begin = number_size(selector, site)?;
            let inner = next(mark)?;
            let following = after_alternative(alternative, inner)?;
            let cases = cases_size(group, site, following)?;
            let other = uncased_size(alternative, site, inner)?;
            sum_of(begin, cases, other)
        }
        Basic::DoLoop {
            place: _,
            guard,
            group,
        } => loop_size(group, guard, site, mark),
        Basic::DoFor {
            place: _,
            temporary,
            variable: _,
            span,
            guard,
            group,
        } => range_size(group, span, guard, *temporary, site, mark),
        Basic::Update {
            place: _,
            body,
            close: _,
        } => update_size(body, site, mark),
        Basic::Assignment {
            place: _,
            receivers,
            value,
        } => assignment_size(receivers, value, site),
        Basic::Return { place: _, value } => return_size(value, site),
        Basic::Read {
            place: _,
            channel: _,
            receivers,
        } => reads_size(receivers, site),
        Basic::Write {
            place: _,
            channel: _,
            items,
        } => write_size(items, site),
        Basic::Cancel { place: _, names } => Ok(names_size(names)),
        Basic::Terminate { place: _, names } => Ok(names_size(names)),
        Basic::Exit { .. } => Ok(1),
        Basic::Repeat { .. } => Ok(1),
        Basic::Wait { place: _, time } => sum(time_size(time, site)?, 1),
        Basic::WaitUntil { place: _, time } => sum(time_size(time, site)?, 1),
        Basic::WaitForDependent { .. } => Ok(1),
        Basic::WaitFor { .. } => Ok(1),
        Basic::Event(_) => Ok(1),
        Basic::OnErrorResponse { .. } => Ok(1),
        Basic::OffError { .. } => Ok(1),
        Basic::SendError { .. } => Ok(1),
        Basic::Call {
            place,
            name,
            arguments,
            receivers,
        } => call_size(name, arguments, receivers, site, *place),
        Basic::Null { .. } => Ok(0),
        Basic::Schedule { place: _, schedule } => schedule_size(schedule, site),
        Basic::UpdatePriority {
            place: _,
            name: _,
            priority,
        } => sum(expression_size(priority, site)?, 1),
        Basic::OnErrorStatement {
            place: _,
            selector: _,
            handler,
        } => sum(2, statement_size(handler, site, next(mark)?)?),
    }
}
