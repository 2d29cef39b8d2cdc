use hal_values::Listing;
use std::marker::Model;

/// A datum of a script: its bytes, without its quotes.
pub type Datum = Listing<u8>;

/// A line of a script.
#[derive(Drop)]
pub enum ScriptLine {
    /// At most so many events.
    Run(u32),
    /// The clock goes on by so many milliseconds.
    Tick(u64),
    /// The process of this name gives way.
    Preempt(Listing<u8>),
    /// These data go to the channel.
    Input(u8, Listing<Datum>),
}

/// The lines of a script in order, the empty ones left out. They keep the limits of scripts. A contract
/// sees the list of lines.
#[derive(Drop)]
pub struct Script {
    lines: Vec<ScriptLine>,
}

impl Model for Script {
    ghost use Rattle.std.specs.Prelude.{List};
    ghost use Rattle.exec_model.specs.declared.script.ScriptLine.{ScriptLine};
    ghost use Rattle.exec_model.specs.Scripts.{IsScript};

    ghost Value = { List ScriptLine };

    ghost view = { λ script. script.lines.items };

    ghost invariant = { λ script. IsScript script.lines.items };
}

impl Script {
    ghost use Rattle.std.specs.Prelude.{◌≡◌};
    ghost use Rattle.exec_model.specs.Scripts.{IsScript};

    /// These lines.
    pub fn new(lines: Vec<ScriptLine>) -> Script
        requires { IsScript lines.items }
        ensures { result ≡ lines.items }
    {
        Script { lines }
    }

    /// The lines.
    pub fn as_slice(&self) -> &[ScriptLine]
        ensures lines { result.now ≡ self.now }
        ensures limits { IsScript self.now }
    {
        self.lines.as_slice()
    }
}
