//! How the processes of an image begin.

ghost use Rattle.std.specs.Prelude.{◌≡◌, ◌<◌, ◌≤◌, ◌^◌, [], length, map, replicate, IfOk};
ghost use Rattle.hal_base.specs.declared.limits.TheConstants.{PROCESS_LIMIT};
ghost use Rattle.hal_code.specs.Courses.{setting_of};
ghost use Rattle.hal_code.specs.Images.{tables_of};
ghost use Rattle.hal_runner.specs.Prepared.{prepared_seen};
ghost use Rattle.hal_runner.specs.Cases.{AreReady};
ghost use Rattle.hal_right_values.specs.Finding.{HaveCells};
ghost use Rattle.hal_right_values.specs.Ranges.{AreInRange};
ghost use Rattle.hal_runner.specs.Loading.{IsLoaded};
ghost use Rattle.image_procs.specs.Courses.{parts};
ghost use Rattle.image_procs.specs.Running.{AreLoaded, AreCourses, told_in};

use crate::course::Course;
use crate::load::ImageLoad;
use hal_code::ImageParts;
use hal_runner::{Loaded, Prepared};
use hal_values::Tables;
use std::alloc::{AllocError, Global};

/// What is made once for each process of an image.
pub(crate) fn loaded_of(alloc: Global, image: &ImageParts) -> Result<Vec<Loaded>, AllocError>
    requires { length image.now.processes ≤ PROCESS_LIMIT }
    ensures are { IfOk result (λ all. AreLoaded image.now all.items) }
    ensures many { IfOk result (λ all. length all.items ≡ length image.now.processes) }
{
    let mut all = Vec::new(alloc);
    'places: for place in 0..image.processes.as_slice().len() {
        all.push(Loaded::new(alloc, image, place as u8)?)?;
    }
    Ok(all)
}

/// What stays the same while a process runs.
pub(crate) fn setting_of<'a>(
    alloc: Global,
    load: &'a ImageLoad,
    tables: &'a Tables,
    loaded: &'a Loaded,
    process: u8,
) -> Prepared<'a>
    requires tables { tables.now ≡ tables_of load.now.image }
    requires loaded { IsLoaded load.now.image process loaded.now }
    requires ready { AreReady load.now.image load.now.ready }
    ensures seen { prepared_seen result ≡ setting_of load.now.turns load.now.image process }
    ensures ready { AreReady result.plain.image.now result.ready.now }
{
    let turns = u32::from(load.turns);
    loaded.setting(
        alloc,
        &load.image,
        tables.cells.as_slice(),
        &load.ready,
        process,
        turns,
    )
}

/// The processes of an image, before any answer.
pub(crate) fn courses_of(
    alloc: Global,
    load: &ImageLoad,
    tables: &Tables,
    loaded: &[Loaded],
) -> Result<Vec<Course>, AllocError>
    requires cells { HaveCells load.now.image }
    requires ranged { AreInRange load.now.image }
    requires short { length load.now.image.code < 2 ^ 64 }
    requires tables { tables.now ≡ tables_of load.now.image }
    requires loads { AreLoaded load.now.image loaded.now }
    requires many { length loaded.now ≡ length load.now.image.processes }
    requires ready { AreReady load.now.image load.now.ready }
    ensures stand { IfOk result (λ all. AreCourses load.now (map parts all.items)) }
    ensures many { IfOk result (λ all. length all.items ≡ length loaded.now) }
    ensures told { IfOk result (λ all. map told_in all.items ≡ replicate (length loaded.now) []) }
{
    let mut all = Vec::new(alloc);
    'places: for place in 0..loaded.len() {
        let setting = setting_of(alloc, load, tables, &loaded[place], place as u8);
        all.push(Course::start(&setting)?)?;
    }
    Ok(all)
}
