//! How large things may be. Sizes are in bytes and times in milliseconds.

/// How many units a set has at most.
pub const UNIT_LIMIT: u32 = 64;

/// How long a unit or a script is at most, in bytes.
pub const TEXT_LIMIT: u64 = 1_048_576;

/// How long an image is at most, in bytes.
pub const IMAGE_LIMIT: u64 = 67_108_864;

/// How many words a unit has at most, counted after replacement.
pub const TOKEN_LIMIT: u32 = 65_536;

/// How many words the units of a set have together at most.
pub const TOKEN_SUM_LIMIT: u32 = 262_144;

/// How deep the constructs of a unit are nested at most.
pub const NESTING_LIMIT: u32 = 64;

/// How many processes a set has at most.
pub const PROCESS_LIMIT: u32 = 128;

/// How many declared events a set has at most.
pub const EVENT_LIMIT: u32 = 1_024;

/// How many cells of data a set has at most.
pub const CELL_LIMIT: u32 = 65_536;

/// How many lanes run at most.
pub const LANE_LIMIT: u8 = 16;

/// How many lines a script has at most.
pub const SCRIPT_LINE_LIMIT: u32 = 4_096;

/// How many events one RUN asks for at most.
pub const RUN_LIMIT: u32 = 65_536;

/// How many events the RUNs of a script ask for together at most.
pub const RUN_SUM_LIMIT: u32 = 1_048_576;

/// How far one TICK moves the clock at most, in milliseconds.
pub const TICK_LIMIT: u64 = 1_000_000_000;

/// How far the TICKs of a script move the clock together at most, in milliseconds.
pub const TICK_SUM_LIMIT: u64 = 2_000_000_000_000;

/// How many bytes a name has at most.
pub const NAME_LIMIT: usize = 32;

/// How many channels there are; they are counted from 0.
pub const CHANNEL_COUNT: u8 = 32;

/// How many bits a bit string has at most.
pub const BIT_LIMIT: u8 = 32;

/// How many bytes a text has at most.
pub const CHARACTER_LIMIT: usize = 255;

/// How many bytes the items of one WRITE give at most, the blank before each counted.
pub const LINE_LIMIT: usize = 1_000;

/// How many places a dimension of an array has at most, and how many copies a structure.
pub const SIZE_LIMIT: u16 = 32_767;

/// The least INTEGER SINGLE.
pub const SINGLE_LEAST: i32 = -32_768;

/// The greatest INTEGER SINGLE.
pub const SINGLE_MOST: i32 = 32_767;

/// How many turns an UPDATE block has at most.
pub const TURN_LIMIT: u16 = 65_535;

/// The greatest priority; the least is 0.
pub const PRIORITY_LIMIT: i32 = 255;

/// The greatest group and the greatest number of an error; the least is 1.
pub const ERROR_LIMIT: u32 = 255;
