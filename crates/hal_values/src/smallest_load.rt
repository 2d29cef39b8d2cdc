ghost use Rattle.std.specs.Prelude.{◌≡◌, ◌⊎◌, [], ◌∷◌};
ghost use Rattle.hal_values.specs.declared.request.Request.TheVariants.{Begin};
ghost use Rattle.hal_values.specs.Answers.{Answered, Begun, Done, Killed};
ghost use Rattle.hal_values.specs.Loads.{FitAll};
ghost use Rattle.hal_values.specs.Smallest.{smallest, smallest_next};

use crate::load::Load;

/// The smallest load: its one process asks Begin, Pass and Finish, and then begins again. It shows
/// that what is said of every load can be met.
#[derive(Clone, Copy)]
pub struct SmallestLoad;

impl Load for SmallestLoad {
    ghost use Rattle.hal_values.specs.Smallest.{smallest_tables, smallest_next, smallest_block, smallest_own, smallest_is_load};

    ghost tables = { λ _. smallest_tables };

    ghost next = { λ _. smallest_next };

    ghost block = { λ _. smallest_block };

    ghost own = { λ _. smallest_own };

    ghost is_load = { λ _. smallest_is_load };
}

/// A law of the smallest load: these answers fit a cycle of its process, which then begins again, and
/// to Begin no answer fits but Begun and Killed.
pub fn the_smallest_load_takes_its_answers()
    ensures cycle { FitAll smallest 0 (Begun ∷ Done ∷ Done ∷ []) }
    ensures again { smallest_next 0 (Begun ∷ Done ∷ Done ∷ []) ≡ Begin }
    ensures only { (given : Answered) → FitAll smallest 0 (given ∷ []) → (given ≡ Begun) ⊎ (given ≡ Killed) }
{}
