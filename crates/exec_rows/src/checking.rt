//! Whether a scripted load is right, as the definitions check it.

ghost use Rattle.std.specs.Prelude.{◌≡◌, ◌==◌, ◌^◌, nat_lt, nat_le, pos, negsuc};
ghost use Rattle.std.specs.List.{list_all};
ghost use Rattle.hal_values.specs.Loads.{turn_limit};
ghost use Rattle.hal_values.specs.Tables.{event_count};
ghost use Rattle.exec_rows.specs.Checks.{is_between, is_kind, is_of_kind, is_cell, is_postfix, are_few, are_tables, is_time, has_expression, has_process, has_event, is_write, has_spot, is_when, is_cycle, is_guard, is_plan, is_pause, is_plain, is_written, is_ask, are_cycles};

use crate::scripted::Ask;
use hal_base::{
    BIT_LIMIT, CELL_LIMIT, EVENT_LIMIT, PROCESS_LIMIT, SINGLE_LEAST, SINGLE_MOST, TURN_LIMIT,
};
use hal_values::{
    Cell, Cycle, Guard, Item, Kind, Listing, Pause, Plan, Request, Spot, Tables, Value, When,
};

/// The time limit either way, in milliseconds.
const TIME_LIMIT: u64 = 2_147_483_648_000;

fn is_right_kind(kind: Kind) -> bool
    ensures { result ≡ is_kind kind }
{
    match kind {
        Kind::Single | Kind::Double => true,
        Kind::Bits(n) => 1 <= n && n <= BIT_LIMIT,
        Kind::Text(n) => 1 <= n,
    }
}

fn is_double(number: i32) -> bool
    ensures { result ≡ is_between (negsuc 2147483647) number (pos 2147483647) }
{
    let number = i64::from(number);
    -2_147_483_648 <= number && number <= 2_147_483_647
}

fn has_bits(word: u32, bits: u8) -> bool
    ensures { result ≡ nat_lt word (2 ^ bits) }
{
    bits >= 32 || word < 1u32 << bits
}

fn is_right_value(kind: Kind, value: &Value) -> bool
    ensures { result ≡ is_of_kind kind value.now }
{
    match (kind, value) {
        (Kind::Single, Value::Int(number)) => SINGLE_LEAST <= *number && *number <= SINGLE_MOST,
        (Kind::Double, Value::Int(number)) => is_double(*number),
        (Kind::Bits(n), Value::Bits { len, word }) => *len == n && has_bits(*word, n),
        (Kind::Text(n), Value::Text(text)) => text.bytes().len() <= usize::from(n),
        _ => false,
    }
}

fn is_right_cell(cell: &Cell) -> bool
    ensures { result ≡ is_cell cell.now }
{
    is_right_kind(cell.kind) && is_right_value(cell.kind, &cell.initial)
}

fn are_right_cells(cells: &[Cell]) -> bool
    ensures { result ≡ list_all is_cell cells.now }
{
    for cell in cells {
        if !is_right_cell(cell) {
            return false;
        }
    }
    true
}

fn has_event_of(tables: &Tables, event: u16) -> bool
    ensures { result ≡ has_event tables.now event }
{
    let processes = tables.processes.as_slice().len();
    let event = usize::from(event);
    event < processes || event - processes < tables.events.as_slice().len()
}

fn is_right_expression(tables: &Tables, items: &[Item]) -> bool
    ensures { result ≡ is_postfix (event_count tables.now) 0 items.now }
{
    let mut operands = 0usize;
    for item in items {
        match item {
            Item::Event(event) => {
                if !has_event_of(tables, *event) {
                    return false;
                }
                operands += 1;
            }
            Item::Not => {
                if operands < 1 {
                    return false;
                }
            }
            Item::And | Item::Or => {
                if operands < 2 {
                    return false;
                }
                operands -= 1;
            }
        }
    }
    operands == 1
}

fn are_right_expressions(tables: &Tables, expressions: &[Listing<Item>]) -> bool
    ensures { result ≡ list_all (is_postfix (event_count tables.now) 0) expressions.now }
{
    for expression in expressions {
        if !is_right_expression(tables, expression.as_slice()) {
            return false;
        }
    }
    true
}

fn are_few_of(tables: &Tables) -> bool
    ensures { result ≡ are_few tables.now }
{
    tables.cells.as_slice().len() <= CELL_LIMIT as usize
        && tables.processes.as_slice().len() <= PROCESS_LIMIT as usize
        && tables.events.as_slice().len() <= EVENT_LIMIT as usize
}

/// The tables are right.
pub(crate) fn are_right_tables(tables: &Tables) -> bool
    ensures { result ≡ are_tables tables.now }
{
    are_few_of(tables)
        && are_right_cells(tables.cells.as_slice())
        && are_right_expressions(tables, tables.expressions.as_slice())
        && usize::from(tables.first) < tables.processes.as_slice().len()
}

fn is_right_time(time: i64) -> bool
    ensures { result ≡ is_time time }
{
    -2_147_483_648_000 <= time && time <= 2_147_483_648_000
}

fn has_expression_of(tables: &Tables, expression: u32) -> bool
    ensures { result ≡ has_expression tables.now expression }
{
    (expression as usize) < tables.expressions.as_slice().len()
}

fn has_process_of(tables: &Tables, process: u8) -> bool
    ensures { result ≡ has_process tables.now process }
{
    usize::from(process) < tables.processes.as_slice().len()
}

fn is_right_write(tables: &Tables, cell: u16, value: &Value) -> bool
    ensures { result ≡ is_write tables.now cell value.now }
{
    match tables.cells.as_slice().get(usize::from(cell)) {
        None => false,
        Some(cell) => is_right_value(cell.kind, value),
    }
}

fn has_spot_of(tables: &Tables, spot: Spot) -> bool
    ensures { result ≡ has_spot tables.now spot }
{
    match spot {
        Spot::Cell(cell) => usize::from(cell) < tables.cells.as_slice().len(),
        Spot::Event(event) => has_event_of(tables, event),
    }
}

fn is_right_when(tables: &Tables, when: When) -> bool
    ensures { result ≡ is_when tables.now when }
{
    match when {
        When::Now => true,
        When::At(time) => is_right_time(time),
        When::After(time) => is_right_time(time),
        When::On(expression) => has_expression_of(tables, expression),
    }
}

fn is_right_cycle(cycle: Cycle) -> bool
    ensures { result ≡ is_cycle cycle }
{
    match cycle {
        Cycle::Once | Cycle::Again => true,
        Cycle::Every(time) | Cycle::After(time) => time <= TIME_LIMIT,
    }
}

fn is_right_guard(tables: &Tables, guard: Guard) -> bool
    ensures { result ≡ is_guard tables.now guard }
{
    match guard {
        Guard::Free => true,
        Guard::While(expression) | Guard::Until(expression) => {
            has_expression_of(tables, expression)
        }
        Guard::UntilTime(time) => is_right_time(time),
    }
}

fn is_right_plan(tables: &Tables, plan: Plan) -> bool
    ensures { result ≡ is_plan tables.now plan }
{
    has_process_of(tables, plan.process)
        && is_right_when(tables, plan.when)
        && is_right_cycle(plan.cycle)
        && is_right_guard(tables, plan.guard)
}

fn is_right_pause(tables: &Tables, pause: Pause) -> bool
    ensures { result ≡ is_pause tables.now pause }
{
    match pause {
        Pause::For(time) => is_right_time(time),
        Pause::Till(time) => is_right_time(time),
        Pause::Event(expression) => has_expression_of(tables, expression),
        Pause::Dependents => true,
    }
}

fn is_right_request(tables: &Tables, request: &Request) -> bool
    ensures { result ≡ is_plain tables.now request.now }
{
    match request {
        Request::Begin
        | Request::Update(_)
        | Request::Finish
        | Request::Look(_)
        | Request::Close(_) => false,
        Request::Pass
        | Request::Print(_, _)
        | Request::Input(_, _)
        | Request::Now
        | Request::Stop(_) => true,
        Request::Read(spot) => has_spot_of(tables, *spot),
        Request::Write(cell, value) => is_right_write(tables, *cell, value),
        Request::Schedule(plan) => is_right_plan(tables, *plan),
        Request::Cancel(process) | Request::Terminate(process) | Request::Priority(process, _) => {
            has_process_of(tables, *process)
        }
        Request::Wait(pause) => is_right_pause(tables, *pause),
        Request::Signal(event) | Request::Set(event) | Request::Reset(event) => {
            has_event_of(tables, *event)
        }
    }
}

fn are_right_writes(tables: &Tables, writes: &[(u16, Value)]) -> bool
    ensures { result ≡ list_all (is_written tables.now) writes.now }
{
    for (cell, value) in writes {
        if !is_right_write(tables, *cell, value) {
            return false;
        }
    }
    true
}

fn are_few_turns(turns: u16) -> bool
    ensures { result ≡ nat_le turns turn_limit }
{
    turns <= TURN_LIMIT
}

fn is_right_ask(tables: &Tables, ask: &Ask) -> bool
    ensures { result ≡ is_ask tables.now ask.now }
{
    match ask {
        Ask::Plain(request) => is_right_request(tables, request),
        Ask::Update(_, writes, turns) => {
            are_right_writes(tables, writes.as_slice()) && are_few_turns(*turns)
        }
    }
}

fn are_right_asks(tables: &Tables, asks: &[Ask]) -> bool
    ensures { result ≡ list_all (is_ask tables.now) asks.now }
{
    for ask in asks {
        if !is_right_ask(tables, ask) {
            return false;
        }
    }
    true
}

fn are_right_cycles(tables: &Tables, cycles: &[Listing<Ask>]) -> bool
    ensures { result ≡ are_cycles tables.now cycles.now }
{
    for asks in cycles {
        if !are_right_asks(tables, asks.as_slice()) {
            return false;
        }
    }
    true
}

/// The cycles of all processes are in order.
pub(crate) fn are_right_bodies(tables: &Tables, bodies: &[Listing<Listing<Ask>>]) -> bool
    ensures { result ≡ list_all (are_cycles tables.now) bodies.now }
{
    for cycles in bodies {
        if !are_right_cycles(tables, cycles.as_slice()) {
            return false;
        }
    }
    true
}
