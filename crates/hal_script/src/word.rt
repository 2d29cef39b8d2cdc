ghost use Rattle.std.specs.Prelude.{◌≡◌, ◌∷◌, [], ◌<◌, length, IfNone, IfSome, position};
ghost use Rattle.hal_script.specs.Words.{words, behind_word, is_blank, is_printable as is_printable_line};

/// A line's first word, which ends at a blank or at the line's end, and the text after it. None where
/// there are blanks alone.
pub fn first_word(line: &[u8]) -> Option<(&[u8], &[u8])>
    ensures none { IfNone result (words line.now ≡ []) }
    ensures first { IfSome result (λ cut. words line.now ≡ cut.0.now ∷ words cut.1.now) }
    ensures behind { IfSome result (λ cut. cut.1.now ≡ behind_word line.now) }
{
    let mut rest = line;
    while let Some(end) = blank_at(rest) {
        let word = rest.split_at(end).0;
        let after = rest.split_at(end + 1).1;
        if !word.is_empty() {
            return Some((word, after));
        }
        rest = after;
    }
    if rest.is_empty() {
        return None;
    }
    Some((rest, &[]))
}

/// Where the first blank stands.
fn blank_at(text: &[u8]) -> Option<usize>
    ensures { result ≡ position is_blank text.now }
{
    text.iter().position(|byte| *byte == b' ' || *byte == b'\t')
}

/// Whether each byte is one from 32 to 126.
pub fn is_printable(line: &[u8]) -> bool
    ensures { result ≡ is_printable_line line.now }
{
    line.iter().all(|byte| *byte >= 32 && *byte <= 126)
}
