//! Whether a set has a PROGRAM.

ghost use Rattle.std.specs.Prelude.{◌≡◌};
ghost use Rattle.hal_names.specs.SeenNames.{seen_names};
ghost use Rattle.hal_calls.specs.Programs as programs;

use hal_names::Names;
use hal_reach::is_program;

/// Whether one of the units of a set is a PROGRAM.
pub(crate) fn has_program(names: &Names<'_>) -> bool
    ensures { result ≡ programs.has_program (seen_names names.now) }
{
    let phrases = names.phrases();
    for phrase in phrases {
        if is_program(phrase.node) {
            return true;
        }
    }
    false
}
