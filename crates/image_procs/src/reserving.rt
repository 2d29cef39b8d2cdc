//! Room for further answers.

ghost use Rattle.std.specs.Prelude.{◌≡◌, ◌<◌, ◌≤◌, ℕ, length, map, slice_index, OnOk};
ghost use Rattle.exec_model.specs.Processes.{NotLower, reserved_room};
ghost use Rattle.image_procs.specs.Courses.{parts, room};

use crate::course::Course;
use std::alloc::AllocError;

/// Makes room for at least four further answers of each process.
pub(crate) fn reserve_all(courses: &mut Vec<Course>) -> Result<(), AllocError>
    ensures same { map parts courses.new.items ≡ map parts courses.old.items }
    ensures room { OnOk result ((p : ℕ) → p < length courses.old.items → reserved_room ≤ slice_index (map room courses.new.items) p) }
    ensures no_lower { NotLower (map room courses.old.items) (map room courses.new.items) }
{
    'places: for place in 0..courses.len() {
        courses[place].reserve()?;
    }
    Ok(())
}
