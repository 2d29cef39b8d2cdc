//! The ways in which rows are tried.

use crate::devices::{calls, shelves, sinks};
use row_files::Rows;
use std::alloc::{AllocError, Global};

/// What a row separates what is tried from what comes of it with.
const ARROW: &str = " =>";

/// Rows of calls and of devices.
#[derive(Clone, Copy)]
pub(crate) struct DeviceRows<'a> {
    pub(crate) rt: &'a HostRuntime,
}

impl<'a> Rows for DeviceRows<'a> {
    fn written(&self, alloc: Global, way: &str, row: &str) -> Result<String, AllocError> {
        let (tried, _) = row.split_once(ARROW).unwrap_or((row, ""));
        let came = self.came(alloc, way, tried)?;
        format!(in alloc; "{tried}{ARROW}{came}")
    }
}

impl<'a> DeviceRows<'a> {
    /// What came of a row.
    fn came(&self, alloc: Global, way: &str, tried: &str) -> Result<String, AllocError> {
        match way.strip_prefix("call: ") {
            Some(way) => came_of_call(alloc, way, tried),
            None => self.came_of_device(alloc, way, tried),
        }
    }

    /// What came of a device.
    fn came_of_device(&self, alloc: Global, way: &str, tried: &str) -> Result<String, AllocError> {
        match way {
            "shelf in memory" => shelves::of_memory(alloc, tried),
            "sure shelf" => shelves::of_sure(alloc, tried),
            "disk" => shelves::of_disk(self.rt, tried),
            "sink in memory" => sinks::of_memory(alloc, tried),
            "sure sink" => sinks::of_sure(alloc, tried),
            "standard output" => sinks::of_standard(self.rt, tried),
            "stubborn output" => sinks::of_stubborn(alloc, tried),
            _ => String::from_str(alloc, " a way in which nothing is tried"),
        }
    }
}

/// What came of a call.
fn came_of_call(alloc: Global, way: &str, tried: &str) -> Result<String, AllocError> {
    match way {
        "words" => calls::of_words(alloc, tried),
        "files" => calls::of_files(alloc, tried),
        "shelf" => calls::of_shelf(alloc, tried),
        "sink" => calls::of_sink(alloc, tried),
        "image" => calls::of_image(alloc, tried),
        "built" => calls::of_built(alloc, tried),
        _ => String::from_str(alloc, " a way in which nothing is tried"),
    }
}
