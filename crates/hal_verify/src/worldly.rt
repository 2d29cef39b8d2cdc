//! Instructions that ask.

ghost use Rattle.std.specs.Prelude.{◌≡◌};
ghost use Rattle.hal_code.specs.Blocks.{is_worldly, is_kept_out};

use hal_code::Instr;

/// Whether an instruction asks, or adds to a line.
pub(crate) fn is_worldly(instr: &Instr) -> bool
    ensures { result ≡ is_worldly instr.now }
{
    match instr {
        Instr::Event(_)
        | Instr::Begin
        | Instr::Finish
        | Instr::Schedule { .. }
        | Instr::Cancel(_)
        | Instr::Terminate(_)
        | Instr::Wait(_)
        | Instr::Signal(_)
        | Instr::Set(_)
        | Instr::Reset(_)
        | Instr::Priority(_)
        | Instr::Item
        | Instr::Print(_)
        | Instr::Input { .. }
        | Instr::Now
        | Instr::Open(_)
        | Instr::Close => true,
        _ => false,
    }
}

/// Whether an instruction may not stand in an UPDATE block itself.
pub(crate) fn is_kept_out(instr: &Instr) -> bool
    ensures { result ≡ is_kept_out instr.now }
{
    match instr {
        Instr::Return => true,
        Instr::Item => false,
        Instr::Close => false,
        _ => is_worldly(instr),
    }
}
