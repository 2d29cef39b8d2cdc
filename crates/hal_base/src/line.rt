ghost use Rattle.std.specs.Prelude.{◌≡◌, ◌∷◌, [], ◌<◌, ◌↔◌, ◌==◌, length, IsNone, IfSome, position};
ghost use Rattle.std.specs.Str.Lines.{lines, strip_carriage_return};

/// A text's first line, without the newline byte that ends it and a carriage return before that, and
/// the text after it. The last line may lack the newline byte. None where the text is empty.
pub fn first_line(text: &[u8]) -> Option<(&[u8], &[u8])>
    ensures none { IsNone result ↔ (text.now ≡ []) }
    ensures first { IfSome result (λ cut. lines text.now ≡ cut.0.now ∷ lines cut.1.now) }
    ensures shorter { IfSome result (λ cut. length cut.1.now < length text.now) }
{
    if text.is_empty() {
        return None;
    }
    match newline_at(text) {
        None => Some((text, &[])),
        Some(end) => Some((
            without_return(text.split_at(end).0),
            text.split_at(end + 1).1,
        )),
    }
}

/// Where the first newline byte stands.
fn newline_at(text: &[u8]) -> Option<usize>
    ensures { result ≡ position (λ byte. byte == 10) text.now }
{
    text.iter().position(|byte| *byte == b'\n')
}

/// The line without the carriage return at its end, if it has one.
fn without_return(line: &[u8]) -> &[u8]
    ensures { result.now ≡ strip_carriage_return line.now }
{
    match line {
        [front @ .., b'\r'] => front,
        _ => line,
    }
}
