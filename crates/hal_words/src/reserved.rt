//! The reserved words of the grammar.

ghost use Rattle.std.specs.Prelude.{◌≡◌, map};
ghost use Rattle.hal_words.specs.Reserved.{left_out_words, look_up, reserved_words};
ghost use Rattle.hal_words.specs.Tables.{entry};

use hal_base::rules::{
    ACCESS_LEFT_OUT, COLUMN_LEFT_OUT, EQUATE_LEFT_OUT, FILE_LEFT_OUT, GO_LEFT_OUT, LINE_LEFT_OUT,
    MATRIX_LEFT_OUT, NAME_LEFT_OUT, NONHAL_LEFT_OUT, PAGE_LEFT_OUT, READALL_LEFT_OUT,
    REMOTE_LEFT_OUT, SCALAR_LEFT_OUT, SKIP_LEFT_OUT, SUBBIT_LEFT_OUT, TAB_LEFT_OUT,
    VECTOR_LEFT_OUT,
};

/// A reserved word.
#[derive(Clone, Copy, Debug, PartialEq, Eq)]
pub enum Reserved {
    After,
    Aligned,
    And,
    Array,
    Assign,
    At,
    Automatic,
    Bin,
    Bit,
    Boolean,
    By,
    Call,
    Cancel,
    Case,
    Cat,
    Character,
    Close,
    Compool,
    Constant,
    Dec,
    Declare,
    Dense,
    Dependent,
    Do,
    Double,
    Else,
    End,
    Error,
    Event,
    Every,
    Exclusive,
    Exit,
    External,
    False,
    For,
    Function,
    Hex,
    If,
    Ignore,
    In,
    Include,
    Initial,
    Integer,
    Latched,
    Lock,
    Not,
    Oct,
    Off,
    On,
    Or,
    Priority,
    Procedure,
    Program,
    Read,
    Reentrant,
    Repeat,
    Replace,
    Reset,
    Return,
    Schedule,
    Send,
    Set,
    Signal,
    Single,
    Static,
    Structure,
    System,
    Task,
    Temporary,
    Terminate,
    Then,
    To,
    True,
    Until,
    Update,
    Wait,
    While,
    Write,
}

/// The reserved words as they are written.
const RESERVED: [(&str, Reserved); 78] = [
    ("AFTER", Reserved::After),
    ("ALIGNED", Reserved::Aligned),
    ("AND", Reserved::And),
    ("ARRAY", Reserved::Array),
    ("ASSIGN", Reserved::Assign),
    ("AT", Reserved::At),
    ("AUTOMATIC", Reserved::Automatic),
    ("BIN", Reserved::Bin),
    ("BIT", Reserved::Bit),
    ("BOOLEAN", Reserved::Boolean),
    ("BY", Reserved::By),
    ("CALL", Reserved::Call),
    ("CANCEL", Reserved::Cancel),
    ("CASE", Reserved::Case),
    ("CAT", Reserved::Cat),
    ("CHARACTER", Reserved::Character),
    ("CLOSE", Reserved::Close),
    ("COMPOOL", Reserved::Compool),
    ("CONSTANT", Reserved::Constant),
    ("DEC", Reserved::Dec),
    ("DECLARE", Reserved::Declare),
    ("DENSE", Reserved::Dense),
    ("DEPENDENT", Reserved::Dependent),
    ("DO", Reserved::Do),
    ("DOUBLE", Reserved::Double),
    ("ELSE", Reserved::Else),
    ("END", Reserved::End),
    ("ERROR", Reserved::Error),
    ("EVENT", Reserved::Event),
    ("EVERY", Reserved::Every),
    ("EXCLUSIVE", Reserved::Exclusive),
    ("EXIT", Reserved::Exit),
    ("EXTERNAL", Reserved::External),
    ("FALSE", Reserved::False),
    ("FOR", Reserved::For),
    ("FUNCTION", Reserved::Function),
    ("HEX", Reserved::Hex),
    ("IF", Reserved::If),
    ("IGNORE", Reserved::Ignore),
    ("IN", Reserved::In),
    ("INCLUDE", Reserved::Include),
    ("INITIAL", Reserved::Initial),
    ("INTEGER", Reserved::Integer),
    ("LATCHED", Reserved::Latched),
    ("LOCK", Reserved::Lock),
    ("NOT", Reserved::Not),
    ("OCT", Reserved::Oct),
    ("OFF", Reserved::Off),
    ("ON", Reserved::On),
    ("OR", Reserved::Or),
    ("PRIORITY", Reserved::Priority),
    ("PROCEDURE", Reserved::Procedure),
    ("PROGRAM", Reserved::Program),
    ("READ", Reserved::Read),
    ("REENTRANT", Reserved::Reentrant),
    ("REPEAT", Reserved::Repeat),
    ("REPLACE", Reserved::Replace),
    ("RESET", Reserved::Reset),
    ("RETURN", Reserved::Return),
    ("SCHEDULE", Reserved::Schedule),
    ("SEND", Reserved::Send),
    ("SET", Reserved::Set),
    ("SIGNAL", Reserved::Signal),
    ("SINGLE", Reserved::Single),
    ("STATIC", Reserved::Static),
    ("STRUCTURE", Reserved::Structure),
    ("SYSTEM", Reserved::System),
    ("TASK", Reserved::Task),
    ("TEMPORARY", Reserved::Temporary),
    ("TERMINATE", Reserved::Terminate),
    ("THEN", Reserved::Then),
    ("TO", Reserved::To),
    ("TRUE", Reserved::True),
    ("UNTIL", Reserved::Until),
    ("UPDATE", Reserved::Update),
    ("WAIT", Reserved::Wait),
    ("WHILE", Reserved::While),
    ("WRITE", Reserved::Write),
];

/// The words of HAL/S that the profile leaves out, and the rule that each of them breaks.
const LEFT_OUT: [(&str, u16); 17] = [
    ("SCALAR", SCALAR_LEFT_OUT),
    ("VECTOR", VECTOR_LEFT_OUT),
    ("MATRIX", MATRIX_LEFT_OUT),
    ("GO", GO_LEFT_OUT),
    ("READALL", READALL_LEFT_OUT),
    ("FILE", FILE_LEFT_OUT),
    ("SKIP", SKIP_LEFT_OUT),
    ("TAB", TAB_LEFT_OUT),
    ("COLUMN", COLUMN_LEFT_OUT),
    ("LINE", LINE_LEFT_OUT),
    ("PAGE", PAGE_LEFT_OUT),
    ("NAME", NAME_LEFT_OUT),
    ("SUBBIT", SUBBIT_LEFT_OUT),
    ("NONHAL", NONHAL_LEFT_OUT),
    ("ACCESS", ACCESS_LEFT_OUT),
    ("REMOTE", REMOTE_LEFT_OUT),
    ("EQUATE", EQUATE_LEFT_OUT),
];

/// The reserved word that is written so.
#[tactic(auto, unfolding(crate::specs::Reserved::reserved_words))]
pub fn reserved_word(text: &[u8]) -> Option<Reserved>
    ensures { result ≡ look_up reserved_words text.now }
{
    reserved_among(&RESERVED, text)
}

/// The rule that a text breaks, if it is a word that is left out.
#[tactic(auto, unfolding(crate::specs::Reserved::left_out_words))]
pub fn left_out(text: &[u8]) -> Option<u16>
    ensures { result ≡ look_up left_out_words text.now }
{
    rule_among(&LEFT_OUT, text)
}

/// What a table of reserved words says of the text.
fn reserved_among(table: &[(&str, Reserved)], text: &[u8]) -> Option<Reserved>
    ensures { result ≡ look_up (map entry table.now) text.now }
{
    for (word, reserved) in table {
        if word.as_bytes() == text {
            return Some(*reserved);
        }
    }
    None
}

/// What a table of rules says of the text.
fn rule_among(table: &[(&str, u16)], text: &[u8]) -> Option<u16>
    ensures { result ≡ look_up (map entry table.now) text.now }
{
    for (word, rule) in table {
        if word.as_bytes() == text {
            return Some(*rule);
        }
    }
    None
}
