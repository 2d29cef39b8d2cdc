use hal_base::Refusal;
use hal_script::ScriptFault;

/// Why nothing is done.
#[derive(Clone, Copy, PartialEq, Eq)]
pub enum Refused {
    /// The words have no form.
    Usage,
    /// The file with this number is absent.
    Absent(u32),
    /// The file with this number has too many bytes.
    TooLong(u32),
    /// The script has a faulty line.
    Script(ScriptFault),
    /// The set of the units breaks a rule.
    Rule(Refusal),
    /// The bytes are those of no image.
    NotImage,
    /// The image isn't right: its first instruction that isn't, or the number of instructions where its tables alone aren't.
    Unsound(u64),
    /// The shelf failed.
    Shelf,
    /// Memory was wanting.
    Memory,
}
