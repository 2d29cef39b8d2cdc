//! Own places that hold again what they held at first.

ghost use Rattle.std.specs.Prelude.{◌≡◌, ◌≤◌, ◌<◌, ◌+◌, ◌-◌, ◌^◌, length, map, OnOk};
ghost use Rattle.hal_code.specs.Addressing.{cleared, act_clear};
ghost use Rattle.hal_machine.specs.Seen.{held_seen, core_seen, setting_seen, Does};
ghost use Rattle.hal_right_values.specs.Finding.{ClearFits};

use hal_machine::{Held, Machine, Setting, Stepped};
use std::alloc::{AllocError, Global};

/// So many places from this one on hold what these do.
#[tactic(auto, using(crate::proofs::Mapping::map_set, crate::proofs::Mapping::map_get, crate::proofs::Cleared::none_cleared))]
fn clear_from(
    alloc: Global,
    places: &mut Vec<Held>,
    firsts: &[Held],
    place: usize,
    count: usize,
) -> Result<(), AllocError>
    requires firsts { place + count ≤ length firsts.now }
    requires places { place + count ≤ length places.old.items }
    ensures { OnOk result (map held_seen places.new.items ≡ cleared (map held_seen firsts.now) place count (map held_seen places.old.items)) }
{
    for number in place..place + count {
        places[number].put_copy(alloc, &firsts[number])?;
    }
    Ok(())
}

/// CLEAR.
#[tactic(auto, using(crate::proofs::Mapping::length_map))]
pub(crate) fn clear(
    machine: &mut Machine,
    setting: &Setting<'_>,
    place: u32,
    count: u32,
) -> Result<Stepped, AllocError>
    requires at { machine.old.at < 2 ^ 64 - 1 }
    requires fits { ClearFits (setting_seen setting.now) place count (core_seen machine.old) }
    ensures does { Does setting.now.image.now result machine.new (act_clear (setting_seen setting.now) place count (core_seen machine.old)) }
    ensures room { machine.new.blocks.room ≡ machine.old.blocks.room }
{
    clear_from(
        setting.alloc,
        &mut machine.places,
        setting.firsts,
        place as usize,
        count as usize,
    )?;
    machine.go_on();
    Ok(Stepped::Moves)
}
