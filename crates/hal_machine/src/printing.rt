//! Lines.

ghost use Rattle.std.specs.Prelude.{◌≡◌, ◌<◌, ◌≤◌, ◌-◌, ◌^◌, ◌∷◌, ◌++◌, length, suc, [], OnOk};
ghost use Rattle.hal_values.specs.declared.request.Request.TheVariants as request;
ghost use Rattle.hal_operations.specs.declared.operation.Op1.TheVariants as op1;
ghost use Rattle.hal_operations.specs.Operands.{Takes};
ghost use Rattle.hal_states.specs.Lines.{text_of, item_of};
ghost use Rattle.hal_code.specs.declared.choice.Choice.TheVariants as choice;
ghost use Rattle.hal_code.specs.Asking.{act_print, act_item};
ghost use Rattle.hal_code.specs.Cores as cores;
ghost use Rattle.hal_code.specs.Cores.{Val, going, with_line};
ghost use Rattle.hal_right_values.specs.Fitting.{OneFits};
ghost use Rattle.hal_machine.specs.Seen.{core_seen, stack_seen, setting_seen, step_seen, Does};

use crate::machine::{Machine, Setting};
use crate::step::{Rest, Stepped, Wait};
use hal_base::LINE_LIMIT;
use hal_operations::{Op1, apply1};
use hal_values::{ErrNo, Line, Request, Text, Value};
use std::alloc::AllocError;

/// A line is too long.
const LONG_LINE: ErrNo = ErrNo {
    group: 3,
    number: 3,
};

/// The line of these bytes.
fn line_of(bytes: &[u8]) -> Line
    requires { length bytes.now ≤ 1000 }
    ensures { result ≡ bytes.now }
{
    let mut line = Line::new();
    let _fits = line.append(bytes);
    line
}

/// The text of a value.
#[tactic(auto, using(crate::proofs::Texts::by_character))]
fn text_of(one: &Value) -> Text
    requires { Takes op1.Character one.now }
    ensures { result ≡ text_of one.now }
{
    match apply1(Op1::Character, one) {
        Ok(Value::Text(text)) => text,
        _ => Text::new(),
    }
}

impl Machine {
    /// A value is added to the line.
    fn add_item(&mut self, one: &Value) -> Result<(), AllocError>
        requires { Takes op1.Character one.now }
        ensures does { OnOk result (core_seen self.new ≡ with_line (self.old.line.items ++ item_of one.now) (core_seen self.old)) }
        ensures room { self.new.blocks.room ≡ self.old.blocks.room }
    {
        self.line.push(b' ')?;
        self.line.extend_from_slice(text_of(one).bytes())?;
        Ok(())
    }

    /// ITEM.
    #[tactic(auto, using(crate::proofs::Stuck::no_item))]
    pub fn item(&mut self, setting: &Setting<'_>) -> Result<Stepped, AllocError>
        requires at { self.old.at < 2 ^ 64 - 1 }
        requires fits { OneFits (choice.Known op1.Character) (stack_seen self.old.operands) }
        ensures does { Does setting.now.image.now result self.new (act_item (stack_seen self.old.operands) (core_seen self.old)) }
        ensures room { self.new.blocks.room ≡ self.old.blocks.room }
    {
        let Some(one) = self.operands.take()? else {
            return Ok(self.stuck(setting));
        };
        self.add_item(&one)?;
        self.at += 1;
        Ok(Stepped::Moves)
    }

    /// A line that fits is printed.
    fn print_line(&mut self, setting: &Setting<'_>, channel: u8) -> Stepped
        requires at { self.old.at < 2 ^ 64 - 1 }
        requires fits { length self.old.line.items ≤ 1000 }
        ensures does { step_seen setting.now.image.now result self.new ≡ cores.Waits (request.Print channel self.old.line.items) (cores.Then cores.Goes) (with_line [] (going (suc self.old.at) (stack_seen self.old.operands) (core_seen self.old))) }
        ensures room { self.new.blocks.room ≡ self.old.blocks.room }
    {
        let line = line_of(self.line.as_slice());
        self.line.clear();
        self.at += 1;
        self.asks(
            setting,
            Request::Print(channel, line),
            Wait::Then(Rest::Nothing),
        )
    }

    /// PRINT.
    pub fn print(&mut self, setting: &Setting<'_>, channel: u8) -> Result<Stepped, AllocError>
        requires { self.old.at < 2 ^ 64 - 1 }
        ensures does { Does setting.now.image.now result self.new (act_print (setting_seen setting.now) channel (core_seen self.old)) }
        ensures room { self.new.blocks.room ≡ self.old.blocks.room }
    {
        if self.line.len() <= LINE_LIMIT {
            return Ok(self.print_line(setting, channel));
        }
        let line = line_of(self.line.as_slice().split_at(LINE_LIMIT).0);
        self.line.clear();
        self.go_on();
        self.raised_before(
            setting,
            LONG_LINE,
            Rest::Asks(Request::Print(channel, line)),
        )
    }
}
