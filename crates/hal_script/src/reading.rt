ghost use Rattle.std.specs.Prelude.{◌≡◌, ◌<◌, ◌≤◌, IfOk};
ghost use Rattle.hal_script.specs.Words.{words, behind_word};
ghost use Rattle.hal_script.specs.Readings.{keyword_of, alone as alone_of, of_number as of_number_of, counted as counted_of, run_of, tick_of, preempt_of, given_to as given_to_of, input_of, of_words, of_bytes, reading};

use crate::given::{Given, read_data};
use crate::number::{NUMBER_CAP, is_number, value};
use crate::word::{first_word, is_printable};
use exec_model::ScriptLine;
use hal_base::{
    CHANNEL_COUNT, RUN_LIMIT, RUN_SUM_LIMIT, SCRIPT_LINE_LIMIT, TICK_LIMIT, TICK_SUM_LIMIT,
};
use hal_values::Listing;
use std::alloc::{AllocError, Global};

/// How far a script has come before a line.
#[derive(Clone, Copy)]
pub struct SoFar {
    /// How many lines stand before.
    pub line_count: u32,
    /// Whether one of them is a RUN, TICK or PREEMPT, so that no INPUT may follow.
    pub begun: bool,
    /// How many events their RUNs ask for together.
    pub events: u32,
    /// How far their TICKs move the clock together, in milliseconds.
    pub time: u64,
}

/// What a line's first word says that it is.
#[derive(Clone, Copy)]
pub enum Keyword {
    Runs,
    Ticks,
    Preempts,
    Inputs,
}

/// What a line is.
#[derive(Drop)]
pub enum Reading {
    /// It asks for this, or for nothing where it is blank.
    Good(Option<ScriptLine>),
    /// It is faulty, and this is the first reason.
    Faults(u8),
}

/// Which kind of line a first word begins.
fn keyword_at(word: &[u8]) -> Option<Keyword>
    ensures { result ≡ keyword_of word.now }
{
    if word == b"RUN".as_slice() {
        return Some(Keyword::Runs);
    }
    if word == b"TICK".as_slice() {
        return Some(Keyword::Ticks);
    }
    if word == b"PREEMPT".as_slice() {
        return Some(Keyword::Preempts);
    }
    if word == b"INPUT".as_slice() {
        return Some(Keyword::Inputs);
    }
    None
}

/// This answer, or reason 2 where words follow.
fn alone(answer: Result<u64, u8>, more: &[u8]) -> Result<u64, u8>
    ensures { result ≡ alone_of answer (words more.now) }
{
    match first_word(more) {
        None => answer,
        Some(_) => Err(2),
    }
}

/// This number where it is in range, keeps the sum within its limit, and nothing follows; else the reason.
fn of_number(limit: u64, sum_limit: u64, sum: u64, number: u64, more: &[u8]) -> Result<u64, u8>
    ensures { result ≡ of_number_of limit sum_limit sum number (words more.now) }
{
    if number < 1 || number > limit {
        return alone(Err(3), more);
    }
    if sum > sum_limit || number > sum_limit - sum {
        return Err(6);
    }
    alone(Ok(number), more)
}

/// The one number that the operands are, within its limits; else the reason.
fn counted(limit: u64, sum_limit: u64, sum: u64, operands: &[u8]) -> Result<u64, u8>
    requires { limit < NUMBER_CAP }
    ensures { result ≡ counted_of limit sum_limit sum (words operands.now) }
{
    let Some((word, more)) = first_word(operands) else {
        return Err(2);
    };
    if !is_number(word) {
        return Err(2);
    }
    of_number(limit, sum_limit, sum, value(word), more)
}

/// A RUN with these operands.
fn run(sum: u32, operands: &[u8]) -> Reading
    ensures { result ≡ run_of (counted_of RUN_LIMIT RUN_SUM_LIMIT sum (words operands.now)) }
{
    match counted(RUN_LIMIT as u64, RUN_SUM_LIMIT as u64, sum as u64, operands) {
        Ok(count) => Reading::Good(Some(ScriptLine::Run(count as u32))),
        Err(reason) => Reading::Faults(reason),
    }
}

/// A TICK with these operands.
fn tick(sum: u64, operands: &[u8]) -> Reading
    ensures { result ≡ tick_of (counted_of TICK_LIMIT TICK_SUM_LIMIT sum (words operands.now)) }
{
    match counted(TICK_LIMIT, TICK_SUM_LIMIT, sum, operands) {
        Ok(time) => Reading::Good(Some(ScriptLine::Tick(time))),
        Err(reason) => Reading::Faults(reason),
    }
}

/// A PREEMPT with these operands.
fn preempt(alloc: Global, operands: &[u8]) -> Result<Reading, AllocError>
    ensures { IfOk result (λ line. line ≡ preempt_of (words operands.now)) }
{
    let Some((name, more)) = first_word(operands) else {
        return Ok(Reading::Faults(2));
    };
    if first_word(more).is_some() {
        return Ok(Reading::Faults(2));
    }
    let name = Listing::new(name.to_vec(alloc)?);
    Ok(Reading::Good(Some(ScriptLine::Preempt(name))))
}

/// An INPUT of what a text gives to the channel of this number.
fn given_to(channel: u64, gift: Given) -> Reading
    ensures { result ≡ given_to_of channel gift }
{
    match gift {
        Given::Malformed => Reading::Faults(2),
        _ if channel >= CHANNEL_COUNT as u64 => Reading::Faults(3),
        Given::Open => Reading::Faults(5),
        Given::Data(data) => Reading::Good(Some(ScriptLine::Input(channel as u8, data))),
    }
}

/// An INPUT with these operands.
#[tactic(auto, using(crate::proofs::Channels::given_to_capped))]
fn input(alloc: Global, begun: bool, operands: &[u8]) -> Result<Reading, AllocError>
    ensures { IfOk result (λ line. line ≡ input_of begun (words operands.now) (behind_word operands.now)) }
{
    if begun {
        return Ok(Reading::Faults(4));
    }
    let Some((channel, text)) = first_word(operands) else {
        return Ok(Reading::Faults(2));
    };
    if first_word(text).is_none() {
        return Ok(Reading::Faults(2));
    }
    if !is_number(channel) {
        return Ok(Reading::Faults(2));
    }
    let gift = read_data(alloc, text)?;
    Ok(given_to(value(channel), gift))
}

/// What a line's words say.
fn read_words(alloc: Global, so_far: SoFar, line: &[u8]) -> Result<Reading, AllocError>
    ensures { IfOk result (λ line_read. line_read ≡ of_words so_far (words line.now) (behind_word (behind_word line.now))) }
{
    let Some((first, operands)) = first_word(line) else {
        return Ok(Reading::Good(None));
    };
    match keyword_at(first) {
        None => Ok(Reading::Faults(1)),
        Some(Keyword::Runs) => Ok(run(so_far.events, operands)),
        Some(Keyword::Ticks) => Ok(tick(so_far.time, operands)),
        Some(Keyword::Preempts) => preempt(alloc, operands),
        Some(Keyword::Inputs) => input(alloc, so_far.begun, operands),
    }
}

/// What was read, or reason 5 where a good line isn't printable.
fn if_printable(printable: bool, line_read: Reading) -> Reading
    ensures { result ≡ of_bytes printable line_read }
{
    match line_read {
        Reading::Good(_) if !printable => Reading::Faults(5),
        other => other,
    }
}

/// What a line is, after the lines before it.
pub fn read_line(alloc: Global, so_far: SoFar, line: &[u8]) -> Result<Reading, AllocError>
    ensures { IfOk result (λ line_read. line_read ≡ reading so_far line.now) }
{
    if so_far.line_count >= SCRIPT_LINE_LIMIT {
        return Ok(Reading::Faults(6));
    }
    let said = read_words(alloc, so_far, line)?;
    Ok(if_printable(is_printable(line), said))
}
