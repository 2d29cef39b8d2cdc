//! The units of a set of files.

ghost use Rattle.std.specs.Prelude.{◌≡◌, IfOk, map};
ghost use Rattle.hal_names.specs.SeenNames.{seen_names};
ghost use Rattle.hal_reach.specs.Calls as called;
ghost use Rattle.hal_reach.specs.SeenUnits.{seen_unit};

use crate::call::Call;
use crate::calls::calls_of;
use crate::numbers::unit_numbers;
use crate::places::places_called;
use crate::sorts::{is_process, is_unit};
use crate::unit::{Unit, Units};
use hal_names::Names;
use std::alloc::{AllocError, Global};

/// The units of a set with these calls, whose numbers are these.
#[tactic(auto, using(crate::proofs::Declared::units_among_declared))]
fn units_with(
    alloc: Global,
    names: &Names<'_>,
    numbers: &[usize],
    calls: &[Call],
) -> Result<Vec<Unit>, AllocError>
    ensures { IfOk result (λ units. map seen_unit units.items ≡ called.units_among numbers.now calls.now (seen_names names.now)) }
{
    let mut units = Vec::new(alloc);
    let phrases = names.declarations(alloc)?;
    for phrase in &phrases {
        if is_unit(phrase.node) {
            let callees = places_called(alloc, numbers, calls, phrase.number)?;
            units.push(Unit {
                number: phrase.number,
                process: is_process(phrase.node),
                callees,
            })?;
        }
    }
    Ok(units)
}

impl<'a> Units<'a> {
    /// The names of the set.
    pub fn names(&self) -> &'a Names<'a>
        ensures { result.now ≡ self.now.names.now }
    {
        self.names
    }

    /// The units of a set, each with those that it calls (language document, Units).
    #[tactic(auto, unfolding(crate::specs::Calls::units_of))]
    pub fn of(alloc: Global, names: &'a Names<'a>) -> Result<Units<'a>, AllocError>
        ensures { IfOk result (λ units. seen_names units.names.now ≡ seen_names names.now) }
    {
        let numbers = unit_numbers(alloc, names)?;
        let calls = calls_of(alloc, names)?;
        let list = units_with(alloc, names, &numbers, &calls)?;
        Ok(Units { names, list })
    }
}
