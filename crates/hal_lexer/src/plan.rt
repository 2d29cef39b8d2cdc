use std::alloc::{AllocError, Global};

/// So many times names may be summed up before it is looked again which of them are needed.
const OFTEN: u32 = 64;

/// When a name was gone into last, and when it was needed last.
#[derive(Clone, Copy)]
struct Rounds {
    opened: u32,
    needed: u32,
}

/// In which order names are to be summed up that weren't before, and which of those that were are needed. It is a guess:
/// who takes a name from it looks whether each word in its text is known.
#[derive(Drop)]
pub(crate) struct Plan {
    /// The names whose texts are gone through, the innermost last, each with the place in its text where
    /// that goes on.
    left: Vec<(u32, u32)>,
    /// For each number, the rounds of its name.
    rounds: Vec<Rounds>,
    /// The round in which names are gone into now.
    round: u32,
    /// The last round in which it was looked which names are needed.
    look: u32,
    /// How many times names were summed up since.
    times: u32,
}

impl Plan {
    /// No name.
    pub(crate) fn new(alloc: Global) -> Plan {
        Plan {
            left: Vec::new(alloc),
            rounds: Vec::new(alloc),
            round: 0,
            look: 0,
            times: 0,
        }
    }

    /// Begins a round of going into names.
    pub(crate) fn renew(&mut self) {
        self.round = self.round.saturating_add(1);
    }

    /// Begins with the name that has this number; false where it was gone into in this round.
    pub(crate) fn begin(&mut self, number: u32) -> Result<bool, AllocError> {
        self.left.clear();
        self.open(number)
    }

    /// Leaves the text of a name for later, from this place on.
    pub(crate) fn leave(&mut self, number: u32, from: u32) -> Result<(), AllocError> {
        match self.left.push((number, from)) {
            Ok(()) => Ok(()),
            Err(_) => Err(AllocError),
        }
    }

    /// The innermost name whose text is gone through, and the place where that goes on.
    pub(crate) fn next_left(&mut self) -> Option<(u32, u32)> {
        self.left.pop()
    }

    /// Goes into a name, which is needed then; false where that was done in this round, since then it needs itself.
    pub(crate) fn open(&mut self, number: u32) -> Result<bool, AllocError> {
        self.reach(number)?;
        match self.rounds.get_mut(number as usize) {
            Some(rounds) if rounds.opened != self.round => {
                *rounds = Rounds {
                    opened: self.round,
                    needed: self.look,
                };
            }
            _ => return Ok(false),
        }
        self.leave(number, 0)?;
        Ok(true)
    }

    /// Makes room for the rounds of the name with this number.
    fn reach(&mut self, number: u32) -> Result<(), AllocError> {
        'number: for _ in self.rounds.len()..=number as usize {
            if self
                .rounds
                .push(Rounds {
                    opened: 0,
                    needed: 0,
                })
                .is_err()
            {
                return Err(AllocError);
            }
        }
        Ok(())
    }

    /// Whether it is to be looked again which names are needed, where this one is to be summed up: it wasn't needed at
    /// the last look, or that was long ago.
    pub(crate) fn is_due(&mut self, number: u32) -> bool {
        self.times = self.times.saturating_add(1);
        self.times > OFTEN || !self.is_needed(number)
    }

    /// Looks again which names are needed: no one so far.
    pub(crate) fn look(&mut self) {
        self.look = self.look.saturating_add(1);
        self.times = 0;
    }

    /// The name with this number is needed.
    pub(crate) fn need(&mut self, number: u32) -> Result<(), AllocError> {
        self.reach(number)?;
        if let Some(rounds) = self.rounds.get_mut(number as usize) {
            rounds.needed = self.look;
        }
        Ok(())
    }

    /// Whether the name with this number was needed at the last look, or was gone into since.
    pub(crate) fn is_needed(&self, number: u32) -> bool {
        match self.rounds.get(number as usize) {
            Some(rounds) => rounds.needed == self.look,
            None => false,
        }
    }
}
