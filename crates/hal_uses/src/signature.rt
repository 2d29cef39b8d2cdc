//! What built-in functions take.

ghost use Rattle.std.specs.Prelude.{◌≡◌};
ghost use Rattle.hal_uses.specs.Calls as calls;

use hal_operands::Want;
use hal_scope::Builtin;

/// What a built-in function with a list takes: one argument, or two.
#[derive(Clone, Copy)]
pub struct Signature {
    pub first: Want,
    pub second: Option<Want>,
}

impl Signature {
    /// One argument.
    fn one(first: Want) -> Signature
        ensures { result ≡ calls.takes_one first }
    {
        Signature {
            first,
            second: None,
        }
    }

    /// Two arguments.
    fn two(first: Want, second: Want) -> Signature
        ensures { result ≡ calls.takes_two first second }
    {
        Signature {
            first,
            second: Some(second),
        }
    }

    /// What a built-in function with a list takes.
    #[tactic(auto, unfolding(crate::specs::Calls::signature_of))]
    pub(crate) fn of(builtin: Builtin) -> Signature
        ensures { result ≡ calls.signature_of builtin }
    {
        match builtin {
            Builtin::Abs | Builtin::Signum | Builtin::Odd => Signature::one(Want::Integer),
            Builtin::Length | Builtin::Trim => Signature::one(Want::Text),
            Builtin::Div | Builtin::Mod | Builtin::Remainder => {
                Signature::two(Want::Integer, Want::Integer)
            }
            Builtin::Shl | Builtin::Shr => Signature::two(Want::Integer, Want::Integer),
            Builtin::Index => Signature::two(Want::Text, Want::Text),
            Builtin::Ljust | Builtin::Rjust => Signature::two(Want::Text, Want::Integer),
            Builtin::Xor => Signature::two(Want::Bits, Want::Bits),
            _ => Signature::one(Want::Anything),
        }
    }
}
