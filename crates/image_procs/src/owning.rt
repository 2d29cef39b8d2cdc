//! Own values of a process.

ghost use Rattle.std.specs.Prelude.{◌≡◌, ◌++◌, filter_map, length, option_to_list, IfOk, OnOk};
ghost use Rattle.hal_values.specs.ReportElements.{elements_in};
ghost use Rattle.hal_states.specs.Telling.{is_own_of};
ghost use Rattle.hal_report.specs.Arrays.{AreArrays};
ghost use Rattle.image_procs.specs.Owning.{own_shown, places_seen};

use hal_report::{Shown, elements_of};
use hal_runner::Runner;
use hal_values::{ReportBase, ReportName, Value};
use std::alloc::{AllocError, Global};

/// Whether elements are own ones of the process.
fn is_own_of(process: u8, base: ReportBase) -> bool
    ensures { result ≡ is_own_of process base }
{
    match base {
        ReportBase::Own(owner) => process == owner,
        ReportBase::Shared => false,
        ReportBase::Event => false,
    }
}

/// Adds the value that an element shows, where it is an own one of the process.
fn add_own(
    values: &mut Vec<Value>,
    runner: &Runner,
    process: u8,
    element: &Shown,
) -> Result<(), AllocError>
    ensures { OnOk result (values.new.items ≡ values.old.items ++ option_to_list (own_shown process (places_seen runner.now) element.now)) }
{
    if is_own_of(process, element.base()) {
        values.push(runner.own(element.number()))?;
    }
    Ok(())
}

/// The own values of the process that these names of the report give.
#[tactic(auto, unfolding(crate::specs::Owning::with_owns))]
pub(crate) fn own_values(
    alloc: Global,
    runner: &Runner,
    process: u8,
    names: &[ReportName],
) -> Result<Vec<Value>, AllocError>
    requires { AreArrays names.now }
    ensures { IfOk result (λ values. values.items ≡ filter_map (own_shown process (places_seen runner.now)) (elements_in (length names.now) names.now)) }
{
    let shown = elements_of(alloc, names)?;
    let elements = shown.as_slice();
    let mut values = Vec::new(alloc);
    for element in elements {
        add_own(&mut values, runner, process, element)?;
    }
    Ok(values)
}
