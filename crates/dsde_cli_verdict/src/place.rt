//! The lines and columns of bytes.

ghost use Rattle.std.specs.Prelude.{◌≡◌, ◌≤◌, length, take, count_by};
ghost use Rattle.std.specs.List.{suffix_len};
ghost use Rattle.dsde_lexer.specs.Lines.{ends_line, is_in_line};
ghost use Rattle.dsde_cli_verdict.specs.Verdict.{place_at};

/// The line and the column of a byte, both counted from 1, columns in bytes.
pub(crate) fn line_column(bytes: &[u8], offset: u32) -> (u32, u32)
    requires { length bytes.now ≤ 1_048_576 }
    ensures { result ≡ place_at bytes.now offset }
{
    let front = front(bytes, offset as usize);
    (1 + feeds(front) as u32, 1 + last_line_size(front) as u32)
}

/// The bytes before an offset, or all of them.
fn front(bytes: &[u8], offset: usize) -> &[u8]
    ensures { result.now ≡ take offset bytes.now }
{
    &bytes[..offset.min(bytes.len())]
}

/// How many lines end in a text.
fn feeds(text: &[u8]) -> usize
    ensures count { result ≡ count_by ends_line text.now }
    ensures within { result ≤ length text.now }
{
    text.iter().filter(|byte| **byte == b'\n').count()
}

/// How many bytes of a text stand behind its last line feed.
fn last_line_size(text: &[u8]) -> usize
    ensures size { result ≡ suffix_len is_in_line text.now }
    ensures within { result ≤ length text.now }
{
    text.iter().rev().take_while(|byte| **byte != b'\n').count()
}
