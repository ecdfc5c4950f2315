//! The lines and columns of tokens.

ghost use Rattle.std.specs.Prelude.{◌≡◌, ◌+◌, ◌≤◌, ◌<◌, ℕ, length, Ok, IfOk, slice_get};
ghost use Rattle.dsde_lexer.specs.Tokens.{tokens as tokens_of_text};
ghost use Rattle.dsde_lexer.specs.Lines.{place_of};
ghost use Rattle.dsde_lexer.specs.Spots.{IsSpot, spot_behind};

use dsde_syntax::{Items, Memory, Token};
use std::alloc::Global;
use std::marker::Model;

/// The line and the column of each place of a text. A place is the index of a token, or the number
/// of the tokens for the end of the text. Contracts see the list of the lines and columns.
#[derive(Drop)]
pub struct Places {
    spots: Items<(u32, u32)>,
}

impl Model for Places {
    ghost use Rattle.std.specs.Prelude.{ℕ, List};

    ghost Value = { List (ℕ × ℕ) };

    ghost view = { λ places. places.spots };
}

impl Places {
    /// The places of a text whose tokens these are.
    pub fn new(alloc: Global, bytes: &[u8], tokens: &[Token]) -> Result<Places, Memory>
        requires { tokens_of_text bytes.now ≡ Ok tokens.now }
        ensures many { IfOk result (λ places. length places ≡ length tokens.now + 1) }
        ensures each { IfOk result (λ places. (at : ℕ) → at ≤ length tokens.now → slice_get places at ≡ Some (place_of bytes.now tokens.now at)) }
    {
        let mut spots = Items::new(alloc);
        let mut spot = Spot::START;
        for token in tokens {
            spot = spot.moved_to(bytes, token.from as usize);
            spots.push((spot.line, spot.column))?;
        }
        spot = spot.moved_to(bytes, bytes.len());
        spots.push((spot.line, spot.column))?;
        Ok(Places { spots })
    }

    /// The line and the column of a place as `line_column` gives them; `None` exactly where the text
    /// has no such place.
    pub fn find(&self, at: u32) -> Option<(u32, u32)>
        ensures { result ≡ slice_get self.now at }
    {
        self.spots.get(at as usize).copied()
    }

    /// The line and the column at which a place's token begins, both counted from 1, columns in
    /// bytes; the end of the text stands behind its last byte.
    pub fn line_column(&self, at: u32) -> (u32, u32)
        requires { at < length self.now }
        ensures { slice_get self.now at ≡ Some result }
    {
        self.spots.as_slice()[at as usize]
    }
}

/// Where a walk over a text stands.
#[derive(Clone, Copy)]
struct Spot {
    /// How many bytes are behind it.
    offset: usize,
    line: u32,
    column: u32,
}

impl Spot {
    /// Before the first byte.
    const START: Spot = Spot {
        offset: 0,
        line: 1,
        column: 1,
    };

    /// The spot at a later offset.
    fn moved_to(self, bytes: &[u8], offset: usize) -> Spot
        requires here { IsSpot bytes.now self }
        requires later { self.offset ≤ offset }
        requires within { offset ≤ length bytes.now }
        ensures there { IsSpot bytes.now result }
        ensures exact { result.offset ≡ offset }
    {
        let mut spot = self;
        while spot.offset < offset {
            spot = spot.behind(bytes[spot.offset]);
        }
        spot
    }

    /// The spot behind one byte.
    fn behind(self, byte: u8) -> Spot
        requires room { self.offset < 1048576 }
        requires line { self.line ≤ 1048576 }
        requires column { self.column ≤ 1048576 }
        ensures { result ≡ spot_behind self byte }
    {
        let ends_line = byte == b'\n';
        Spot {
            offset: self.offset + 1,
            line: if ends_line { self.line + 1 } else { self.line },
            column: if ends_line { 1 } else { self.column + 1 },
        }
    }
}
