//! The built-in functions.

ghost use Rattle.std.specs.Prelude.{◌≡◌, map};
ghost use Rattle.hal_words.specs.Reserved.{look_up};
ghost use Rattle.hal_words.specs.Tables.{entry};
ghost use Rattle.hal_scope.specs.Builtins.{builtin_named, builtins, form_of};

use hal_words::Name;

/// A built-in function.
#[derive(Clone, Copy, PartialEq, Eq)]
pub enum Builtin {
    Abs,
    Div,
    Index,
    Length,
    Ljust,
    Mod,
    Odd,
    Remainder,
    Rjust,
    Shl,
    Shr,
    Signum,
    Size,
    Trim,
    Xor,
    Errgrp,
    Errnum,
    Runtime,
    Max,
    Min,
    Prod,
    Sum,
}

/// How a built-in function is named.
#[derive(Clone, Copy, PartialEq, Eq)]
pub enum Form {
    /// With a list of arguments.
    Listed,
    /// Without one.
    Alone,
    /// With whole arrays as arguments: known in the call form alone.
    Arrayed,
}

impl Builtin {
    /// How it is named.
    pub fn form(self) -> Form
        ensures { result ≡ form_of self }
    {
        match self {
            Builtin::Errgrp | Builtin::Errnum | Builtin::Runtime => Form::Alone,
            Builtin::Max | Builtin::Min | Builtin::Prod | Builtin::Sum => Form::Arrayed,
            _ => Form::Listed,
        }
    }
}

/// The names of the built-in functions.
const BUILTINS: [(&str, Builtin); 22] = [
    ("ABS", Builtin::Abs),
    ("DIV", Builtin::Div),
    ("INDEX", Builtin::Index),
    ("LENGTH", Builtin::Length),
    ("LJUST", Builtin::Ljust),
    ("MOD", Builtin::Mod),
    ("ODD", Builtin::Odd),
    ("REMAINDER", Builtin::Remainder),
    ("RJUST", Builtin::Rjust),
    ("SHL", Builtin::Shl),
    ("SHR", Builtin::Shr),
    ("SIGNUM", Builtin::Signum),
    ("SIZE", Builtin::Size),
    ("TRIM", Builtin::Trim),
    ("XOR", Builtin::Xor),
    ("ERRGRP", Builtin::Errgrp),
    ("ERRNUM", Builtin::Errnum),
    ("RUNTIME", Builtin::Runtime),
    ("MAX", Builtin::Max),
    ("MIN", Builtin::Min),
    ("PROD", Builtin::Prod),
    ("SUM", Builtin::Sum),
];

/// The built-in function of this name.
#[tactic(auto, unfolding(crate::specs::Builtins::builtins))]
pub fn builtin_named(name: &Name) -> Option<Builtin>
    ensures { result ≡ builtin_named name.now }
{
    builtin_among(&BUILTINS, name.bytes())
}

/// What a table of built-in functions says of a text.
fn builtin_among(table: &[(&str, Builtin)], text: &[u8]) -> Option<Builtin>
    ensures { result ≡ look_up (map entry table.now) text.now }
{
    for (word, builtin) in table {
        if word.as_bytes() == text {
            return Some(*builtin);
        }
    }
    None
}
