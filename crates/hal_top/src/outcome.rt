use exec_model::Journal;
use hal_base::Refusal;
use hal_script::ScriptFault;

/// What a call of `hal` came to.
#[derive(Drop)]
pub struct Outcome {
    /// 0, or why there is no report (docs/EXECUTIVE.md lists the statuses).
    pub status: u8,
    /// The events of the run; none where nothing ran.
    pub journal: Journal,
    /// The file that is at fault, numbered from 0 in the order of the words.
    pub file: Option<u32>,
    /// The rule that is broken, and where; the file is that of the place's unit.
    pub refused: Option<Refusal>,
    /// The first faulty line of the script.
    pub script_fault: Option<ScriptFault>,
    /// Of an image that isn't right, the first instruction that isn't, or the number of instructions where its tables alone aren't; none of bytes that are no image.
    pub image_fault: Option<u64>,
}
