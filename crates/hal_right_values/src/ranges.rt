//! What a value of the code is keeps the range of its type.

ghost use Rattle.std.specs.Prelude.{◌≤◌};
ghost use Rattle.hal_sound_values.specs.Right.{IsRight};
ghost use Rattle.hal_values.specs.declared.value.Value.TheVariants as value;
ghost use Rattle.hal_right_values.specs.Ranges.{IsInRange};

use hal_code::Instr;

/// An integer of 32 bits is a right value.
fn right_integer(number: i32)
    ensures { IsRight (value.Int number) }
{}

/// A byte is at most 255.
fn low_byte(byte: u8)
    ensures { byte ≤ 255 }
{}

/// What an instruction says is in range, because it is a value: an integer has 32 bits, a text at most 255 bytes, and an error's group and number are bytes.
/// It runs nothing of use; a caller that has the instruction in hand gets by it what the laws ask for.
pub fn is_in_range(instr: &Instr)
    ensures { IsInRange instr.now }
{
    match instr {
        Instr::Int(number) => right_integer(*number),
        Instr::Text(text) => {
            let _ = text.text().bytes();
        }
        Instr::Raise { group, number } => {
            low_byte(*group);
            low_byte(*number);
        }
        _ => {}
    }
}
