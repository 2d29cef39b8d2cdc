//! Texts of one kind, of about so many bytes.

use std::alloc::{AllocError, Global};

/// What a text is full of.
#[derive(Clone, Copy)]
pub(crate) enum Kind {
    /// Assignments with comments behind them.
    Ordinary,
    /// One comment over all lines.
    Comment,
    /// One line of names.
    Line,
    /// Text literals of doubled quotes.
    Quotes,
    /// Numbers of many digits.
    Digits,
    /// Names that stand for names that stand for names.
    Replacements,
    /// A name at the head of a chain of definitions, as long as a 64th of the bytes.
    Chain,
    /// A name that stands for nothing, through 40 definitions that each use the one before twice.
    Empties,
    /// A chain of names as long as a 75th of the bytes, whose end is defined again and again by the same
    /// text, with a use of its head behind each.
    Same,
    /// The same by two texts in turn, of which one is a word.
    Turns,
    /// A name that stands for as many times another as there are eighths of the bytes, where the other
    /// comes to nothing by two texts in turn.
    Wide,
    /// A name that stands for as many times another, which comes to nothing, and for one name more, which is
    /// a word and nothing in turn.
    Mixed,
    /// 23 names that are the same one, all of which stand in each of as many texts as fill half of the bytes.
    /// The one is a word and nothing in turn, and a name that stands for these texts is used behind nothing.
    Many,
    /// The chain whose end is defined by four texts in turn.
    Fours,
    /// The same by five texts.
    Fives,
    /// The same by another name each time.
    Fresh,
    /// A chain whose end stands for two names, which are defined in turn.
    Pair,
    /// The chain of which fifty names are defined in turn, each by two texts.
    Fifty,
    /// A chain whose names are defined in no order, and whose end is defined by other names.
    Scattered,
    /// A chain whose end stands for a word and for a name that is defined by other names.
    Beside,
    /// The same as `Many`, where the one is other names, and one more name that stands for it is used.
    Late,
    /// A name that stands for as many words as fit, and for one more name, which is defined by other names
    /// and used alone.
    Leaves,
    /// A chain of names of three and four letters, which are defined in no order and fill half of the bytes.
    /// Its end is a word and nothing in turn.
    Shuffled,
    /// A chain of such names, whose end comes to nothing by two texts in turn, and six times as many names that
    /// stand for themselves in one text with the end of the chain, which isn't needed where its head is used.
    Unneeded,
}

pub(crate) const KINDS: [Kind; 24] = [
    Kind::Ordinary,
    Kind::Comment,
    Kind::Line,
    Kind::Quotes,
    Kind::Digits,
    Kind::Replacements,
    Kind::Chain,
    Kind::Empties,
    Kind::Same,
    Kind::Turns,
    Kind::Wide,
    Kind::Mixed,
    Kind::Many,
    Kind::Fours,
    Kind::Fives,
    Kind::Fresh,
    Kind::Pair,
    Kind::Fifty,
    Kind::Scattered,
    Kind::Beside,
    Kind::Late,
    Kind::Leaves,
    Kind::Shuffled,
    Kind::Unneeded,
];

/// What a name of three or four letters ends with, and its first letters.
const SIGNS: [u8; 36] = *b"ABCDEFGHIJKLMNOPQRSTUVWXYZ0123456789";

/// Adds one of the signs, or none where there is no such one.
fn add_sign(text: &mut Vec<u8>, number: usize) -> Result<(), AllocError> {
    match SIGNS.get(number) {
        Some(sign) => text.extend_from_slice(std::slice::from_ref(sign)),
        None => Ok(()),
    }
}

/// Adds a name of three letters, or four from the 9,360th on: a letter, a digit, which no word of the
/// language has there, and one or two signs.
fn add_short(text: &mut Vec<u8>, number: usize) -> Result<(), AllocError> {
    add_sign(text, number % 26)?;
    add_sign(text, 26 + number / 26 % 10)?;
    add_sign(text, number / 260 % 36)?;
    if number >= 9_360 {
        add_sign(text, number / 9_360 % 36)?;
    }
    Ok(())
}

/// Adds the definition of a short name as the one before it.
fn add_link(text: &mut Vec<u8>, from: usize) -> Result<(), AllocError> {
    text.extend_from_slice(b" REPLACE ")?;
    add_short(text, from.saturating_add(1))?;
    text.extend_from_slice(b" BY\"")?;
    add_short(text, from)?;
    text.extend_from_slice(b"\";")
}

/// A chain of short names from Z to H, in no order: the next name is that 7919 places further on, around the end.
fn add_shuffled(text: &mut Vec<u8>, count: usize) -> Result<(), AllocError> {
    for number in 0..count {
        add_link(text, number.saturating_mul(7_919) % count.max(1))?;
    }
    text.extend_from_slice(b" REPLACE A0A BY\"Z\"; REPLACE H BY\"")?;
    add_short(text, count)?;
    text.extend_from_slice(b"\";\n")
}

/// A line that defines W as Z and so many short names from this one on, and a use of it.
fn add_bystanders(text: &mut Vec<u8>, from: usize, count: usize) -> Result<(), AllocError> {
    text.extend_from_slice(b" REPLACE Z BY\"\"; REPLACE W BY\"Z")?;
    for number in 0..count {
        text.extend_from_slice(b" ")?;
        add_short(text, from.saturating_add(number))?;
    }
    text.extend_from_slice(b"\"; W\n")
}

/// A name that stands for a name, and so on, nine deep.
const CHAIN: &str =
    " REPLACE STEP BY \"STEP_1\";\n REPLACE STEP_1 BY \"STEP_2\";\n REPLACE STEP_2 BY \"STEP_3\";\n REPLACE STEP_3 BY \"STEP_4\";\n REPLACE STEP_4 BY \"STEP_5\";\n REPLACE STEP_5 BY \"STEP_6\";\n REPLACE STEP_6 BY \"STEP_7\";\n REPLACE STEP_7 BY \"STEP_8\";\n REPLACE STEP_8 BY \"2 M\";\n";

/// Lines of which each defines a name as the next name, from C0 on.
fn chain(alloc: Global, count: usize) -> Result<String, AllocError> {
    let mut lines = String::new(alloc);
    for from in 0..count {
        let to = from.saturating_add(1);
        let line = format!(in alloc; " REPLACE C{from} BY \"C{to}\";\n")?;
        lines.push_str(line.as_str())?;
    }
    Ok(lines)
}

/// Lines of which each defines a name as two of the name before, from E1 on.
fn empties(alloc: Global, count: usize) -> Result<String, AllocError> {
    let mut lines = String::new(alloc);
    for from in 0..count {
        let to = from.saturating_add(1);
        let line = format!(in alloc; " REPLACE E{to} BY \"E{from} E{from}\";\n")?;
        lines.push_str(line.as_str())?;
    }
    Ok(lines)
}

/// Lines of which each defines a name as the name before, from Z1 on, and HEAD as the last of them.
fn chain_to_head(alloc: Global, count: usize) -> Result<String, AllocError> {
    let mut lines = String::new(alloc);
    for from in 0..count {
        let to = from.saturating_add(1);
        let line = format!(in alloc; " REPLACE Z{to} BY \"Z{from}\";\n")?;
        lines.push_str(line.as_str())?;
    }
    let head = format!(in alloc; " REPLACE HEAD BY \"Z{count}\";\n")?;
    lines.push_str(head.as_str())?;
    Ok(lines)
}

/// The same in no order: the next name is that 7919 places further on, around the end.
fn scattered(alloc: Global, count: usize) -> Result<String, AllocError> {
    let mut lines = String::new(alloc);
    for number in 0..count {
        let from = number.saturating_mul(7_919) % count.max(1);
        let to = from.saturating_add(1);
        let line = format!(in alloc; " REPLACE Z{to} BY \"Z{from}\";\n")?;
        lines.push_str(line.as_str())?;
    }
    let head = format!(in alloc; " REPLACE HEAD BY \"Z{count}\";\n")?;
    lines.push_str(head.as_str())?;
    Ok(lines)
}

/// The chain to HEAD behind a line that defines its end.
fn chain_over(alloc: Global, end: &str, count: usize) -> Result<String, AllocError> {
    let mut lines = String::new(alloc);
    lines.push_str(end)?;
    let chain = chain_to_head(alloc, count)?;
    lines.push_str(chain.as_str())?;
    Ok(lines)
}

/// A line that defines HEAD as Z0 and so many words more, a use of it, and a name for Z0 with a use of that.
fn leaves(alloc: Global, count: usize) -> Result<String, AllocError> {
    let mut line = String::new(alloc);
    line.push_str(" REPLACE HEAD BY \"Z0")?;
    for number in 0..count {
        let word = format!(in alloc; " L{number}")?;
        line.push_str(word.as_str())?;
    }
    line.push_str("\"; HEAD\n REPLACE TAIL BY \"Z0\"; TAIL\n")?;
    Ok(line)
}

/// A line that defines HEAD as so many times one name, and as another behind them.
fn wide(alloc: Global, count: usize, one: &str, other: &str) -> Result<String, AllocError> {
    let mut line = String::new(alloc);
    line.push_str(" REPLACE HEAD BY \"")?;
    for _ in 0..count {
        line.push_str(one)?;
        line.push_str(" ")?;
    }
    line.push_str(other)?;
    line.push_str("\";\n")?;
    Ok(line)
}

/// 23 names of one letter.
const LETTERS: &str = "A B C D E F G I J K L M N O P Q R S T U V W Y";

/// Lines that define each of the letters as Z0, so many texts as all of the letters, and HEAD as these texts.
fn many(alloc: Global, count: usize) -> Result<String, AllocError> {
    let mut lines = String::new(alloc);
    let mut heads = String::new(alloc);
    let letters = LETTERS;
    for letter in letters.split(' ') {
        let line = format!(in alloc; " REPLACE {letter} BY \"Z0\";\n")?;
        lines.push_str(line.as_str())?;
    }
    for number in 0..count {
        let line = format!(in alloc; " REPLACE W{number} BY \"{letters}\";\n")?;
        lines.push_str(line.as_str())?;
        let head = format!(in alloc; "W{number} ")?;
        heads.push_str(head.as_str())?;
    }
    let text = heads.as_str();
    let line = format!(in alloc; " REPLACE HEAD BY \"{text}\";\n")?;
    lines.push_str(line.as_str())?;
    Ok(lines)
}

/// The same, where Z0 comes to nothing at first, with a use of HEAD and of another name for Z0.
fn late(alloc: Global, count: usize) -> Result<String, AllocError> {
    let mut lines = many(alloc, count)?;
    lines.push_str(" REPLACE TAIL BY \"Z0\";\n REPLACE Z0 BY \"\"; HEAD TAIL\n")?;
    Ok(lines)
}

/// The text that a name has at this round, which is another one at the next.
fn other(number: usize, every: usize) -> &'static str {
    if number / every.max(1) % 2 == 0 {
        ""
    } else {
        " "
    }
}

/// A line that defines one of two names, by a word or nothing, and uses HEAD.
fn pair(alloc: Global, number: usize) -> Result<String, AllocError> {
    match number % 4 {
        0 => format!(in alloc; " REPLACE X0 BY \"\"; HEAD\n"),
        1 => format!(in alloc; " REPLACE Y0 BY \"Q{number}\"; HEAD\n"),
        2 => format!(in alloc; " REPLACE X0 BY \"Q{number}\"; HEAD\n"),
        _ => format!(in alloc; " REPLACE Y0 BY \"\"; HEAD\n"),
    }
}

/// A line that defines one of fifty names of a chain of so many as the name before it, and uses HEAD.
fn fifty(alloc: Global, number: usize, count: usize) -> Result<String, AllocError> {
    let from = (number % 50).saturating_mul(count / 50);
    let to = from.saturating_add(1);
    let blank = other(number, 50);
    format!(in alloc; " REPLACE Z{to} BY \"{blank}Z{from}\"; HEAD\n")
}

/// What the text begins with, what is repeated, and what it ends with.
#[derive(Clone, Copy)]
struct Parts {
    begin: &'static str,
    repeat: &'static str,
    end: &'static str,
}

impl Kind {
    pub(crate) fn name(self) -> &'static str {
        match self {
            Kind::Ordinary => "ordinary",
            Kind::Comment => "comment",
            Kind::Line => "line",
            Kind::Quotes => "quotes",
            Kind::Digits => "digits",
            Kind::Replacements => "replacements",
            Kind::Chain => "chain",
            Kind::Empties => "empties",
            Kind::Same => "same",
            Kind::Turns => "turns",
            Kind::Wide => "wide",
            Kind::Mixed => "mixed",
            Kind::Many => "many",
            Kind::Fours => "fours",
            Kind::Fives => "fives",
            Kind::Fresh => "fresh",
            Kind::Pair => "pair",
            Kind::Fifty => "fifty",
            Kind::Scattered => "scattered",
            Kind::Beside => "beside",
            Kind::Late => "late",
            Kind::Leaves => "leaves",
            Kind::Shuffled => "shuffled",
            Kind::Unneeded => "unneeded",
        }
    }

    fn parts(self) -> Parts {
        match self {
            Kind::Ordinary => Parts {
                begin: "",
                repeat: "C  THE NEXT POSITION FROM THE LAST ONE AND THE RATE, WHICH THE FILTER GAVE\nC  AS IT IS AT THE END OF THE STEP. BEYOND THE LIMIT THE ARM IS HALTED.\nC  THE RATE IS KEPT FOR THE NEXT STEP, WHERE IT IS SMOOTHED.\n   POSITION = POSITION + RATE STEP; /* IN METRES */\n   IF POSITION > LIMIT THEN CALL HALT(POSITION);\n",
                end: "",
            },
            Kind::Comment => Parts {
                begin: " /*",
                repeat: "\n * NOTHING BUT STARS ** AND / SLASHES",
                end: " */\n",
            },
            Kind::Line => Parts {
                begin: " ",
                repeat: "A_NAME_OF_SIXTEEN ",
                end: "\n",
            },
            Kind::Quotes => Parts {
                begin: "",
                repeat: " '''''''''''''''''''''''''''''''''''''''' ''''''''''''''''''''\n",
                end: "",
            },
            Kind::Digits => Parts {
                begin: "",
                repeat: " 000000000000000000000000000000000000000000000000000000000000001\n",
                end: "",
            },
            Kind::Replacements => Parts {
                begin: CHAIN,
                repeat: " N = N + STEP; /* FROM THE LAST POSITION */\n",
                end: "",
            },
            Kind::Chain => Parts {
                begin: "",
                repeat: " N = N + C0; /* FROM THE LAST POSITION */\n",
                end: "",
            },
            Kind::Empties => Parts {
                begin: " REPLACE E0 BY \"\";\n",
                repeat: " N = N + E40 1; /* FROM THE LAST POSITION */\n",
                end: "",
            },
            Kind::Same => Parts {
                begin: "",
                repeat: " REPLACE Z0 BY \"\"; HEAD\n",
                end: "",
            },
            Kind::Turns => Parts {
                begin: "",
                repeat: " REPLACE Z0 BY \"\"; HEAD\n REPLACE Z0 BY \"X\"; HEAD\n",
                end: "",
            },
            Kind::Wide => Parts {
                begin: "",
                repeat: " REPLACE Z0 BY \"\"; HEAD\n REPLACE Z0 BY \" \"; HEAD\n",
                end: "",
            },
            Kind::Mixed => Parts {
                begin: " REPLACE B BY \"\";\n",
                repeat: " REPLACE Z0 BY \"\"; HEAD\n REPLACE Z0 BY \"X\"; HEAD\n",
                end: "",
            },
            Kind::Many => Parts {
                begin: "",
                repeat: " REPLACE Z0 BY \"\"; HEAD\n REPLACE Z0 BY \"X\"; Z0\n",
                end: "",
            },
            Kind::Fours => Parts {
                begin: "",
                repeat: " REPLACE Z0 BY \"\"; HEAD\n REPLACE Z0 BY \"X\"; HEAD\n REPLACE Z0 BY \"Y\"; HEAD\n REPLACE Z0 BY \"0\"; HEAD\n",
                end: "",
            },
            Kind::Fresh
            | Kind::Pair
            | Kind::Fifty
            | Kind::Scattered
            | Kind::Beside
            | Kind::Late
            | Kind::Leaves => Parts {
                begin: "",
                repeat: "",
                end: "",
            },
            Kind::Shuffled => Parts {
                begin: "",
                repeat: " REPLACE Z BY\"\";H\n REPLACE Z BY\"X\";H\n",
                end: "",
            },
            Kind::Unneeded => Parts {
                begin: "",
                repeat: " REPLACE Z BY\"\";H\n REPLACE Z BY\" \";H\n",
                end: "",
            },
            Kind::Fives => Parts {
                begin: "",
                repeat: " REPLACE Z0 BY \"\"; HEAD\n REPLACE Z0 BY \"X\"; HEAD\n REPLACE Z0 BY \"Y\"; HEAD\n REPLACE Z0 BY \"0\"; HEAD\n REPLACE Z0 BY \"1\"; HEAD\n",
                end: "",
            },
        }
    }

    /// The definitions that the text begins with, where they are counted.
    fn definitions(self, alloc: Global, size: usize) -> Result<String, AllocError> {
        match self {
            Kind::Chain => chain(alloc, size / 64),
            Kind::Empties => empties(alloc, 40),
            Kind::Same | Kind::Turns | Kind::Fours | Kind::Fives | Kind::Fresh | Kind::Fifty =>
                chain_to_head(alloc, size / 75),
            Kind::Pair => chain_over(alloc, " REPLACE Z0 BY \"X0 Y0\";\n", size / 75),
            Kind::Beside => chain_over(alloc, " REPLACE Z0 BY \"X0 W\";\n", size / 75),
            Kind::Scattered => scattered(alloc, size / 75),
            Kind::Leaves => leaves(alloc, size / 32),
            Kind::Wide => wide(alloc, size / 8, "Z0", ""),
            Kind::Mixed => wide(alloc, size / 4, "B", "Z0"),
            Kind::Many => many(alloc, size / 140),
            Kind::Late => late(alloc, size / 140),
            _ => Ok(String::new(alloc)),
        }
    }

    /// The lines of a round that says its number, for texts of so many bytes.
    fn round(self, alloc: Global, number: usize, size: usize) -> Result<String, AllocError> {
        match self {
            Kind::Fresh | Kind::Scattered => {
                format!(in alloc; " REPLACE Z0 BY \"N{number}\"; HEAD\n")
            }
            Kind::Pair => pair(alloc, number),
            Kind::Fifty => fifty(alloc, number, size / 75),
            Kind::Beside => format!(in alloc; " REPLACE X0 BY \"N{number}\"; HEAD\n"),
            Kind::Late | Kind::Leaves => {
                format!(in alloc; " REPLACE Z0 BY \"N{number}\"; TAIL\n")
            }
            _ => Ok(String::new(alloc)),
        }
    }

    /// Adds the definitions of short names that the text begins with.
    fn add_short_names(self, size: usize, text: &mut Vec<u8>) -> Result<(), AllocError> {
        match self {
            Kind::Shuffled => add_shuffled(text, size / 43),
            Kind::Unneeded => {
                let count = size / 110;
                add_bystanders(text, count.saturating_add(1), size / 18)?;
                add_shuffled(text, count)
            }
            _ => Ok(()),
        }
    }

    /// Adds rounds that say their numbers, up to so many bytes.
    fn add_rounds(self, alloc: Global, size: usize, text: &mut Vec<u8>) -> Result<(), AllocError> {
        for number in 0..size {
            let round = self.round(alloc, number, size)?;
            if text.len() >= size || round.is_empty() {
                return Ok(());
            }
            text.extend_from_slice(round.as_bytes())?;
        }
        Ok(())
    }

    /// A text of the kind with at least so many bytes.
    pub(crate) fn text(self, alloc: Global, size: usize) -> Result<Vec<u8>, AllocError> {
        let parts = self.parts();
        let mut text = Vec::new(alloc);
        text.extend_from_slice(parts.begin.as_bytes())?;
        let definitions = self.definitions(alloc, size)?;
        text.extend_from_slice(definitions.as_bytes())?;
        self.add_short_names(size, &mut text)?;
        self.add_rounds(alloc, size, &mut text)?;
        let left = size.saturating_sub(text.len());
        for _ in 0..=left / parts.repeat.len().max(1) {
            text.extend_from_slice(parts.repeat.as_bytes())?;
        }
        text.extend_from_slice(parts.end.as_bytes())?;
        Ok(text)
    }
}
