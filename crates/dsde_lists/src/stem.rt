//! Short texts.

ghost use Rattle.std.specs.Prelude.{◌≡◌, ◌≤◌, length, IfOk};

use crate::Memory;
use std::alloc::Global;
use std::marker::Model;

/// How many bytes of a text take no memory.
const SHORT: usize = 16;

/// A text of which the first 16 bytes take no memory, which contracts see as its bytes.
#[derive(Debug, Drop)]
pub struct Stem {
    kept: Kept,
}

/// Where the bytes of a text are.
#[derive(Debug, Drop)]
enum Kept {
    /// The first bytes of an array.
    Short { bytes: [u8; SHORT], len: usize },
    /// Too many for the array.
    Long { bytes: Vec<u8> },
}

impl Model for Stem {
    ghost use Rattle.std.specs.Prelude.{ℕ, List};
    ghost use Rattle.std.specs.Coded.{coded_list, coded_ℕ};
    ghost use Rattle.dsde_lists.specs.Stem.{bytes_of, IsWithinTheArray};

    ghost Value = { List ℕ };

    ghost coded = { coded_list coded_ℕ };

    ghost view = { λ stem. bytes_of stem.kept };

    ghost invariant = { λ stem. IsWithinTheArray stem.kept };
}

impl Stem {
    /// A copy of these bytes. `Memory` where there is none.
    pub fn from_slice(alloc: Global, bytes: &[u8]) -> Result<Stem, Memory>
        ensures { IfOk result (λ stem. stem ≡ bytes.now) }
    {
        if bytes.len() <= SHORT {
            return Ok(Stem::short(bytes));
        }
        let bytes = Vec::from_slice(alloc, bytes)?;
        Ok(Stem {
            kept: Kept::Long { bytes },
        })
    }

    // A copy of bytes that fit the array.
    fn short(bytes: &[u8]) -> Stem
        requires { length bytes.now ≤ 16 }
        ensures { result ≡ bytes.now }
    {
        let len = bytes.len();
        let mut array = [0; SHORT];
        array[..len].copy_from_slice(bytes);
        Stem {
            kept: Kept::Short { bytes: array, len },
        }
    }

    /// Its bytes.
    pub fn as_slice(&self) -> &[u8]
        ensures { result.now ≡ self.now }
    {
        match &self.kept {
            Kept::Short { bytes, len } => &bytes[..*len],
            Kept::Long { bytes } => bytes.as_slice(),
        }
    }
}
