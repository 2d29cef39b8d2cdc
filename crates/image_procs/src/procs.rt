//! The processes of an image.

use crate::course::Course;
use crate::load::ImageLoad;
use crate::ranges::are_in_range;
use crate::reserving::reserve_all;
use crate::starting::{courses_of, loaded_of, setting_of};
use crate::tables::tables_of;
use exec_model::Procs;
use hal_code::ImageParts;
use hal_runner::{Loaded, Ready};
use hal_values::{Answer, Listing, Request, Tables, Value};
use script_run::Owners;
use std::alloc::{AllocError, Global};
use std::marker::Model;

/// The processes of an image: the load, its tables, what is made once for each process, and where each one stands.
#[derive(Drop)]
pub struct ImageProcs {
    alloc: Global,
    load: ImageLoad,
    tables: Tables,
    loaded: Vec<Loaded>,
    courses: Vec<Course>,
}

impl Model for ImageProcs {
    ghost use Rattle.image_procs.specs.Running.{Running, running, IsRunning};

    ghost Value = { Running };

    ghost view = { λ procs. running procs.load procs.courses.items };

    ghost invariant = { λ procs. IsRunning procs.load procs.tables procs.loaded.items procs.courses.items };
}

impl ImageProcs {
    ghost use Rattle.std.specs.Prelude.{◌≡◌, [], replicate, IfOk};
    ghost use Rattle.hal_values.specs.Tables.{process_count};
    ghost use Rattle.hal_code.specs.Courses.{load_of};
    ghost use Rattle.hal_code.specs.Right.{IsRight};
    ghost use Rattle.hal_right_values.specs.Finding.{HaveCells};
    ghost use Rattle.hal_report.specs.Arrays.{AreArrays};
    ghost use Rattle.image_procs.specs.Loads.{meaning};
    ghost use Rattle.image_procs.specs.Running.{answers_of};

    /// The processes of a right image before any answer, where an UPDATE block has so many turns. The shape of each view has a cell. The names of the report
    /// can be shown.
    pub fn start(alloc: Global, image: ImageParts, turns: u16) -> Result<ImageProcs, AllocError>
        requires right { IsRight image }
        requires cells { HaveCells image }
        ensures load { IfOk result (λ procs. meaning procs.load ≡ load_of turns image) }
        ensures names { IfOk result (λ procs. AreArrays (meaning procs.load).tables.names) }
        ensures answers { IfOk result (λ procs. answers_of procs ≡ replicate (process_count (meaning procs.load).tables) []) }
    {
        are_in_range(&image);
        let ready = Ready::new(alloc, &image)?;
        let load = ImageLoad {
            image,
            turns,
            ready,
        };
        let tables = tables_of(alloc, &load.image)?;
        let loaded = loaded_of(alloc, &load.image)?;
        let courses = courses_of(alloc, &load, &tables, loaded.as_slice())?;
        Ok(ImageProcs {
            alloc,
            load,
            tables,
            loaded,
            courses,
        })
    }
}

impl Procs for ImageProcs {
    type Of = ImageLoad;

    ghost use Rattle.image_procs.specs.Running.{answers_of};

    ghost load = { λ procs. procs.load };

    ghost answers = { answers_of };

    ghost rooms = { λ procs. procs.rooms };

    ghost looks = { λ procs. procs.looks };

    fn tables(&self) -> &Tables {
        &self.tables
    }

    fn ask(&mut self, process: u8) -> Result<Request, AllocError> {
        let place = process as usize;
        let setting = setting_of(
            self.alloc,
            &self.load,
            &self.tables,
            &self.loaded[place],
            process,
        );
        self.courses[place].ask(&setting)
    }

    fn reserve(&mut self) -> Result<(), AllocError> {
        reserve_all(&mut self.courses)
    }

    fn block(
        &mut self,
        process: u8,
        store: &[Value],
        writes: &mut Vec<(u16, Value)>,
    ) -> Result<u16, AllocError> {
        let place = process as usize;
        let setting = setting_of(
            self.alloc,
            &self.load,
            &self.tables,
            &self.loaded[place],
            process,
        );
        self.courses[place].block(&setting, store, writes)
    }

    fn tell(&mut self, process: u8, answer: Answer) {
        self.courses[process as usize].tell(answer);
    }
}

impl Owners for ImageProcs {
    fn own(&self, process: u8) -> Result<Listing<Value>, AllocError> {
        let place = process as usize;
        let setting = setting_of(
            self.alloc,
            &self.load,
            &self.tables,
            &self.loaded[place],
            process,
        );
        let values = self.courses[place].own(&setting, self.tables.names.as_slice())?;
        Ok(Listing::new(values))
    }
}
