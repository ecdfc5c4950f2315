//! Numbers written in decimal at the end of a text.

ghost use Rattle.std.specs.Prelude.{◌≡◌, ◌++◌, decimal, OnOk, OnErr};
ghost use Rattle.std.specs.Fmt.{signed_decimal};

use crate::{Memory, Text};
use itoa::Buffer;

/// Appends a number without leading zeros. Without memory the text stays as it was.
pub fn append_decimal(number: u64, text: &mut Text) -> Result<(), Memory>
    ensures ok { OnOk result (text.new ≡ text.old ++ decimal number) }
    ensures err { OnErr result (text.new ≡ text.old) }
{
    text.extend_from_slice(Buffer::new().format(number).as_bytes())
}

/// Appends a number without leading zeros, a negative one behind a `-`. Without memory the text
/// stays as it was.
pub fn append_signed_decimal(number: i64, text: &mut Text) -> Result<(), Memory>
    ensures ok { OnOk result (text.new ≡ text.old ++ signed_decimal number) }
    ensures err { OnErr result (text.new ≡ text.old) }
{
    text.extend_from_slice(Buffer::new().format(number).as_bytes())
}
