ghost use Rattle.std.specs.Prelude.{◌≡◌, false, length, IfSome, ◌≤◌};
ghost use Rattle.hal_pieces.specs.Reading.{closing};

/// How many bytes of the rest of a line a comment takes, to the end of its `*/`. None where it goes on
/// behind the line.
pub fn comment_end(text: &[u8]) -> Option<usize>
    ensures { result ≡ closing false text.now }
{
    let mut after = false;
    let mut size = 0;
    for byte in text {
        size += 1;
        if after && *byte == b'/' {
            return Some(size);
        }
        after = *byte == b'*';
    }
    None
}
