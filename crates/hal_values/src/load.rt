ghost use Rattle.std.specs.Prelude.{ℕ, List, Option};
ghost use Rattle.hal_values.specs.Answers.{Answered, Killed};
ghost use Rattle.hal_values.specs.Requests.{HasProcess};
ghost use Rattle.hal_values.specs.Loads.{meaning_of, FitsNext, FitAll, IsLoad, Agree};
ghost use Rattle.hal_values.specs.declared.request.Request.{Request};
ghost use Rattle.hal_values.specs.declared.tables.Tables.{Tables};
ghost use Rattle.hal_values.specs.declared.value.Value.{Value};

/// What the executive runs: plain data that tell what its processes ask. All is said by definitions,
/// so the trait has no calls.
pub trait Load {
    /// Its shared cells, processes and events.
    ghost tables: { Self → Tables };

    /// The request of a process after these answers.
    ghost next: { Self → ℕ → List Answered → Request };

    /// The writes of the UPDATE block that a process then asks for, over what the shared cells hold,
    /// where the block ends after just so many turns.
    ghost block: { Self → ℕ → List Answered → List Value → ℕ → Option (List (ℕ × Value)) };

    /// The values of the own elements that the process's report names give, after these answers.
    ghost own: { Self → ℕ → List Answered → List Value };

    /// What is said of every load.
    ghost is_load: { (load : Self) → IsLoad (meaning_of tables next block own load) };
}

/// A law of every load: the answer Killed fits whatever a process asks.
pub fn an_answer_killed_fits<L: Load>(load: &L)
    ensures { (p : ℕ) (answers : List Answered)
        → FitsNext (meaning_of L.tables L.next L.block L.own load.now) p answers Killed }
{}

/// A law of every load: it is what a load is said to be.
pub fn a_load_keeps_its_laws<L: Load>(load: &L)
    ensures { IsLoad (meaning_of L.tables L.next L.block L.own load.now) }
{}

/// A law of loads that agree: the answers that fit the one fit the other.
pub fn loads_that_agree_take_the_same_answers<A: Load, B: Load>(a: &A, b: &B)
    ensures { Agree (meaning_of A.tables A.next A.block A.own a.now) (meaning_of B.tables B.next B.block B.own b.now)
        → (p : ℕ) (answers : List Answered)
        → HasProcess (A.tables a.now) p
        → FitAll (meaning_of A.tables A.next A.block A.own a.now) p answers
        → FitAll (meaning_of B.tables B.next B.block B.own b.now) p answers }
{}
