use crate::checking::{are_right_bodies, are_right_tables};
use hal_values::{Listing, Load, Request, Tables, Value};

/// What a process of a scripted load asks in a cycle, between Begin and Finish.
pub enum Ask {
    /// A request, but none of Begin, Update, Finish, Look and Close.
    Plain(Request),
    /// An UPDATE block with these lock groups and writes, which ends after so many turns.
    Update(u16, Listing<(u16, Value)>, u16),
}

// Written here, a drop is one call where such a value is let go.
impl Drop for Ask {
    fn drop(self) {
        match self {
            Ask::Plain(_request) => {}
            Ask::Update(_, _writes, _) => {}
        }
    }
}

/// A load whose processes ask what lists say, whatever they are answered: for each process its cycles
/// in order. Further cycles ask nothing, and a process that is killed goes on with its next cycle.
/// Where the tables or a list aren't right it is the smallest load.
pub struct Scripted {
    pub tables: Tables,
    pub bodies: Listing<Listing<Listing<Ask>>>,
}

impl Drop for Scripted {
    fn drop(self) {
        let Scripted {
            tables: _tables,
            bodies: _bodies,
        } = self;
    }
}

impl Scripted {
    ghost use Rattle.std.specs.Prelude.{◌≡◌};
    ghost use Rattle.exec_rows.specs.Checks.{checks};

    /// The tables are right, and so is all that the lists ask.
    pub fn is_right(&self) -> bool
        ensures { result ≡ checks self.now }
    {
        are_right_tables(&self.tables) && are_right_bodies(&self.tables, self.bodies.as_slice())
    }
}

impl Load for Scripted {
    ghost use Rattle.exec_rows.specs.Checks.{scripted};
    ghost use Rattle.exec_rows.specs.Checked.{scripted-load};

    ghost tables = { λ load. (scripted load).tables };

    ghost next = { λ load. (scripted load).next };

    ghost block = { λ load. (scripted load).block };

    ghost own = { λ load. (scripted load).own };

    ghost is_load = { scripted-load };
}
