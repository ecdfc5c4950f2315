//! Where a line ends.

ghost use Rattle.std.specs.Prelude.{◌≡◌, ◌≢◌, ◌==◌, ◌≤◌, [], length, take, drop};
ghost use Rattle.std.specs.List.{position};
ghost use Rattle.dsde_input_parser.specs.given.input_records.Lines.{Lacks};
ghost use Rattle.dsde_input.specs.Reader.{Opens};

use memchr::memchr;

/// Where the first line feed stands, in bytes of which the first so many have none.
pub fn feed_at(bytes: &[u8], searched: usize) -> Option<usize>
    requires within { searched ≤ length bytes.now }
    requires none { Lacks 10 (take searched bytes.now) }
    ensures { result ≡ position (λ byte. byte == 10) bytes.now }
{
    match memchr(b'\n', &bytes[searched..]) {
        Some(more) => Some(searched + more),
        None => None,
    }
}

/// The sizes of the first line, without its line feed and with it, in bytes of which the first so
/// many have none.
pub fn line_sizes(bytes: &[u8], searched: usize) -> (usize, usize)
    requires some { bytes.now ≢ [] }
    requires within { searched ≤ length bytes.now }
    requires none { Lacks 10 (take searched bytes.now) }
    ensures within { (result.0 ≤ length bytes.now) × (result.1 ≤ length bytes.now) }
    ensures opens { Opens bytes.now (take result.0 bytes.now) (drop result.1 bytes.now) }
{
    match feed_at(bytes, searched) {
        Some(at) => (at, at + 1),
        None => (bytes.len(), bytes.len()),
    }
}
