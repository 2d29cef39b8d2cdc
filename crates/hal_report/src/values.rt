//! The lines of a report's values.

ghost use Rattle.std.specs.Prelude.{◌≡◌, ◌++◌, ◌<◌, ◌/◌, ◌%◌, ◌^◌, [], ℕ, List, OnOk, IfOk, codes, slice_index_or, drop};
ghost use Rattle.exec_model.specs.Effects.{bit_value};
ghost use Rattle.exec_model.specs.Moments.{moment_of, event_in};
ghost use Rattle.hal_values.specs.BitTexts.{bits_text};
ghost use Rattle.hal_report.specs.Rests.{lists};
ghost use Rattle.exec_model.specs.Report.{quoted, value_text, head_value, base_value, owns_after, value_lines};

use crate::elements::Shown;
use exec_model::{State, Status};
use hal_values::{Listing, ReportBase, Tables, Value};
use std::alloc::{AllocError, Global};

/// The bit of a word at a place, counted from the right. Past the word it is 0.
fn bit_at(word: u32, place: u8) -> u8
    ensures { result ≡ (word / 2 ^ place) % 2 }
{
    if place >= 32 {
        return 0;
    }
    ((word >> place) % 2) as u8
}

/// Adds the last bits of a word, the leftmost first.
fn add_bits(text: &mut Vec<u8>, len: u8, word: u32) -> Result<(), AllocError>
    ensures { OnOk result (text.new.items ≡ text.old.items ++ bits_text len word) }
{
    let mut rest = len;
    'bits: while rest > 0 {
        rest -= 1;
        text.push(48 + bit_at(word, rest))?;
    }
    Ok(())
}

/// Adds bytes with quotes doubled.
fn add_quoted(text: &mut Vec<u8>, bytes: &[u8]) -> Result<(), AllocError>
    ensures { OnOk result (text.new.items ≡ text.old.items ++ quoted bytes.now) }
{
    for byte in bytes {
        if *byte == 39 {
            text.push(39)?;
        }
        text.push(*byte)?;
    }
    Ok(())
}

/// Adds a value as the report shows it.
fn add_value(alloc: Global, text: &mut Vec<u8>, value: &Value) -> Result<(), AllocError>
    ensures { OnOk result (text.new.items ≡ text.old.items ++ value_text value.now) }
{
    match value {
        Value::Int(number) => {
            let digits = format!(in alloc; "{number}")?;
            text.extend_from_slice(digits.as_bytes())?;
            Ok(())
        }
        Value::Bits { len, word } => add_bits(text, *len, *word),
        Value::Text(bytes) => {
            text.extend_from_slice(b"'")?;
            add_quoted(text, bytes.bytes())?;
            text.extend_from_slice(b"'")?;
            Ok(())
        }
    }
}

/// The value of the event of this number: the first ones are the names of processes.
fn event_value(tables: &Tables, state: &State, number: usize) -> bool
    ensures { result ≡ event_in tables.now state.now.rows state.now.events number }
{
    let count = tables.processes.as_slice().len();
    if number < count {
        return match state.rows.as_slice().get(number) {
            Some(row) => !matches!(row.status, Status::Idle),
            None => false,
        };
    }
    match state.events.as_slice().get(number - count) {
        Some(value) => *value,
        None => false,
    }
}

/// One bit.
fn bit_value(bit: bool) -> Value
    ensures { result ≡ bit_value bit }
{
    Value::Bits {
        len: 1,
        word: if bit { 1 } else { 0 },
    }
}

/// The own values of each process, all of which are still to be shown.
fn rests_of<'a>(alloc: Global, owns: &'a [Listing<Value>]) -> Result<Vec<&'a [Value]>, AllocError>
    ensures { IfOk result (λ rests. lists rests.items ≡ owns.now) }
{
    let mut rests = Vec::new(alloc);
    for values in owns {
        rests.push(values.as_slice())?;
    }
    Ok(rests)
}

/// The first of these values.
fn first_of(values: &[Value]) -> Value
    ensures { result ≡ head_value values.now }
{
    match values {
        [value, ..] => value.copy(),
        [] => Value::Int(0),
    }
}

/// The first of the values that are still to be shown of a process.
fn head_value(rests: &[&[Value]], process: u8) -> Value
    ensures { result ≡ head_value (slice_index_or (lists rests.now) process []) }
{
    match rests.get(usize::from(process)) {
        Some(values) => first_of(values),
        None => Value::Int(0),
    }
}

/// The value at a number of a base.
fn base_value(
    tables: &Tables,
    state: &State,
    rests: &[&[Value]],
    base: ReportBase,
    number: usize,
) -> Value
    ensures { result ≡ base_value tables.now (moment_of state.now []) (lists rests.now) base number }
{
    match base {
        ReportBase::Shared => match state.store.as_slice().get(number) {
            Some(value) => value.copy(),
            None => Value::Int(0),
        },
        ReportBase::Own(process) => head_value(rests, process),
        ReportBase::Event => bit_value(event_value(tables, state, number)),
    }
}

/// The own value that was shown last is shown no more.
fn pass_shown(rests: &mut [&[Value]], base: ReportBase)
    ensures { lists rests.new ≡ owns_after (lists rests.old) base }
{
    if let ReportBase::Own(process) = base {
        let place = usize::from(process);
        if place < rests.len() {
            rests[place] = behind_first(rests[place]);
        }
    }
}

/// The values behind the first one.
fn behind_first(values: &[Value]) -> &[Value]
    ensures { result.now ≡ drop 1 values.now }
{
    match values {
        [_, rest @ ..] => rest,
        [] => values,
    }
}

/// Adds the line of an element.
fn add_line(
    alloc: Global,
    text: &mut Vec<u8>,
    shown: &Shown,
    value: &Value,
) -> Result<(), AllocError>
    ensures { OnOk result ((rest : List ℕ) → text.new.items ++ rest ≡ text.old.items ++ (shown.now.label ++ (codes " = " ++ (value_text value.now ++ (codes "\n" ++ rest))))) }
{
    text.extend_from_slice(shown.label.as_slice())?;
    text.extend_from_slice(b" = ")?;
    add_value(alloc, text, value)?;
    text.extend_from_slice(b"\n")?;
    Ok(())
}

/// Adds the lines of elements. `owns` are the own values of each process.
pub(crate) fn add_values(
    alloc: Global,
    text: &mut Vec<u8>,
    tables: &Tables,
    state: &State,
    owns: &[Listing<Value>],
    elements: &[Shown],
) -> Result<(), AllocError>
    ensures { OnOk result (text.new.items ≡ text.old.items ++ value_lines tables.now (moment_of state.now []) owns.now elements.now) }
{
    let mut rests = rests_of(alloc, owns)?;
    for shown in elements {
        let value = base_value(tables, state, rests.as_slice(), shown.base, shown.number);
        add_line(alloc, text, shown, &value)?;
        pass_shown(rests.as_mut_slice(), shown.base);
    }
    Ok(())
}
