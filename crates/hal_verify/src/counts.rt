//! Counts of cells and lines, which stand still at 2^64 - 1.

ghost use Rattle.std.specs.Prelude.{◌≡◌, ℕ, List, ◌+◌, min};
ghost use Rattle.std.specs.List.{sum_by};
ghost use Rattle.hal_values.specs.ReportElements as elements;
ghost use Rattle.hal_code.specs.Images.{row_count};
ghost use Rattle.hal_code.specs.Memory.{size_of, target_count, spread_of};
ghost use Rattle.hal_code.specs.Right.{cell_count, copies_of, line_count};

use hal_code::{Dimension, ImageParts, Process, Run, Target, View};
use hal_values::{Kind, Listing, ReportName};

/// How many rows runs have.
#[tactic(auto, using(crate::proofs::Capped::one_more, crate::proofs::Capped::all))]
pub(crate) fn row_count<T>(runs: &[Run<T>]) -> u64
    ensures { result ≡ min (row_count runs.now) 18446744073709551615 }
{
    let mut count: u64 = 0;
    for run in runs {
        count = count.saturating_add(u64::from(run.repeat));
    }
    count
}

/// How many cells a process has, where all processes have so many in common.
fn process_count(common: u64, process: &Process) -> u64
    ensures { (all : ℕ) → common ≡ min all 18446744073709551615 → result ≡ min (all + row_count process.now.places) 18446744073709551615 }
{
    common.saturating_add(row_count(process.places.as_slice()))
}

/// How many cells there are together: the shared ones, and for each process its places, the common ones among them.
#[tactic(auto, using(crate::proofs::Capped::one_capped, crate::proofs::Capped::all, crate::proofs::Capped::process_more))]
pub(crate) fn cell_count(image: &ImageParts) -> u64
    ensures { result ≡ min (cell_count image.now) 18446744073709551615 }
{
    let common = row_count(image.common.as_slice());
    let mut count = row_count(image.cells.as_slice());
    let processes = image.processes.as_slice();
    for process in processes {
        count = count.saturating_add(process_count(common, process));
    }
    count
}

/// How many cells shapes have together.
#[tactic(auto, using(crate::proofs::Capped::one_capped, crate::proofs::Capped::all, crate::proofs::Capped::shape_more))]
pub(crate) fn shape_count(shapes: &[Listing<Run<Kind>>]) -> u64
    ensures { result ≡ min (sum_by (λ (runs : List (Run Kind)). row_count runs) shapes.now) 18446744073709551615 }
{
    let mut count: u64 = 0;
    for runs in shapes {
        count = count.saturating_add(row_count(runs.as_slice()));
    }
    count
}

/// How many places dimensions have together.
#[tactic(auto, using(crate::proofs::Capped::product))]
fn size_of(dimensions: &[Dimension]) -> u64
    ensures { result ≡ min (size_of dimensions.now) 18446744073709551615 }
{
    match dimensions.split_first() {
        None => 1,
        Some((dimension, rest)) => u64::from(dimension.size).saturating_mul(size_of(rest)),
    }
}

/// How many cells a view gives at one of its addresses.
fn target_count(image: &ImageParts, target: Target) -> u64
    ensures { result ≡ min (target_count image.now target) 18446744073709551615 }
{
    match target {
        Target::Cell(_) => 1,
        Target::Shape(shape) => match image.shapes.as_slice().get(shape as usize) {
            None => 0,
            Some(runs) => row_count(runs.as_slice()),
        },
    }
}

/// How many cells a view gives, counted with repeats.
#[tactic(auto, using(crate::proofs::Capped::both))]
fn spread_of(image: &ImageParts, view: &View) -> u64
    ensures { result ≡ min (spread_of image.now view.now) 18446744073709551615 }
{
    size_of(view.dimensions.as_slice()).saturating_mul(target_count(image, view.target))
}

/// How many cells all views give, counted with repeats.
#[tactic(auto, using(crate::proofs::Capped::one_capped, crate::proofs::Capped::all, crate::proofs::Capped::view_more))]
pub(crate) fn view_count(image: &ImageParts) -> u64
    ensures { result ≡ min (sum_by (spread_of image.now) image.now.views) 18446744073709551615 }
{
    let mut count: u64 = 0;
    let views = image.views.as_slice();
    for view in views {
        count = count.saturating_add(spread_of(image, view));
    }
    count
}

/// How many elements an array with these sizes has.
#[tactic(auto, using(crate::proofs::Capped::product))]
pub(crate) fn element_count(sizes: &[u32]) -> u64
    ensures { result ≡ min (elements.size_of sizes.now) 18446744073709551615 }
{
    match sizes.split_first() {
        None => 1,
        Some((size, rest)) => u64::from(*size).saturating_mul(element_count(rest)),
    }
}

/// How many copies a report name has.
pub(crate) fn copies_of(name: &ReportName) -> u32
    ensures { result ≡ copies_of name.now }
{
    if name.copies == 0 { 1 } else { name.copies }
}

/// How many lines a report name gives.
#[tactic(auto, using(crate::proofs::Capped::product))]
fn line_count(name: &ReportName) -> u64
    ensures { result ≡ min (line_count name.now) 18446744073709551615 }
{
    u64::from(copies_of(name)).saturating_mul(element_count(name.dimensions.as_slice()))
}

/// How many lines all report names give.
#[tactic(auto, using(crate::proofs::Capped::one_capped, crate::proofs::Capped::all, crate::proofs::Capped::name_more))]
pub(crate) fn all_lines(names: &[ReportName]) -> u64
    ensures { result ≡ min (sum_by line_count names.now) 18446744073709551615 }
{
    let mut count: u64 = 0;
    for name in names {
        count = count.saturating_add(line_count(name));
    }
    count
}
