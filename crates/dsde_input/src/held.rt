//! Bytes that were read and not given yet.

ghost use Rattle.std.specs.Prelude.{◌≡◌, ◌+◌, ◌≤◌, [], length, take, drop, IfOk, OnErr, IfSome};
ghost use Rattle.dsde_io.specs.Fault.{Rose};
ghost use Rattle.dsde_io.specs.Bytes.{Keeps, Takes};

use dsde_input_parser::LONGEST_LINE;
use dsde_io::{Failed, Source};
use dsde_values::Memory;
use std::alloc::Global;
use std::marker::Model;

/// The most bytes that one read asks for.
pub const PIECE: usize = 4_096;

/// The bytes that were read and not given yet, with room for the longest line and one read more.
#[derive(Drop)]
pub struct Held {
    /// Those that are held stand from `start` to `end`.
    room: Vec<u8>,
    start: usize,
    end: usize,
}

impl Model for Held {
    ghost use Rattle.std.specs.Prelude.{◌≡◌, ◌-◌, ◌≤◌, ℕ, List, length, take, drop};

    ghost Value = { List ℕ };

    ghost view = { λ held. take (held.end - held.start) (drop held.start held.room.items) };

    ghost invariant = { λ held. (held.start ≤ held.end) × (held.end ≤ length held.room.items) × (length held.room.items ≡ 69632) };
}

impl Held {
    /// No bytes.
    pub fn new(alloc: Global) -> Result<Held, Memory>
        ensures { IfOk result (λ held. held ≡ []) }
    {
        Ok(Held {
            room: vec![in alloc; 0; LONGEST_LINE + PIECE]?,
            start: 0,
            end: 0,
        })
    }

    /// The bytes.
    pub fn as_slice(&self) -> &[u8]
        ensures { result.now ≡ self.now }
    {
        &self.room[self.start..self.end]
    }

    /// Lets go of so many bytes from the front.
    pub fn pass(&mut self, count: usize)
        requires { count ≤ length self.old }
        ensures { self.new ≡ drop count self.old }
    {
        self.start += count;
    }

    /// Reads at most 4,096 bytes behind those that are held, and answers how many there were.
    pub fn read<R: Source>(&mut self, source: &mut R) -> Result<usize, Failed>
        requires { length self.old ≤ 65536 }
        ensures kept { take (length self.old) self.new ≡ self.old }
        ensures taken { IfOk result (λ count. Takes (R.left source.old) (R.left source.new) (drop (length self.old) self.new)) }
        ensures count { IfOk result (λ count. (count ≤ 4096) × (length self.new ≡ length self.old + count)) }
        ensures end { IfOk result (λ count. count ≡ 0 → IfSome (R.left source.old) (λ bytes. bytes ≡ [])) }
        ensures unread { OnErr result ((self.new ≡ self.old) × Keeps (R.left source.old) (R.left source.new)) }
        ensures cause { OnErr result (Rose (R.faults source.old) (R.faults source.new)) }
        ensures counted { R.faults source.old ≤ R.faults source.new }
    {
        if self.start > 0 {
            self.room.copy_within(self.start..self.end, 0);
            self.end -= self.start;
            self.start = 0;
        }
        let count = read_behind(self.room.as_mut_slice(), self.end, source)?;
        self.end += count;
        Ok(count)
    }
}

/// Reads a piece behind the first so many bytes.
fn read_behind<R: Source>(room: &mut [u8], end: usize, source: &mut R) -> Result<usize, Failed>
    requires { end + 4096 ≤ length room.old }
    ensures size { length room.new ≡ length room.old }
    ensures kept { take end room.new ≡ take end room.old }
    ensures within { IfOk result (λ count. (count ≤ 4096) × (end + count ≤ length room.old)) }
    ensures taken { IfOk result (λ count. Takes (R.left source.old) (R.left source.new) (take count (drop end room.new))) }
    ensures end { IfOk result (λ count. count ≡ 0 → IfSome (R.left source.old) (λ bytes. bytes ≡ [])) }
    ensures unread { OnErr result (Keeps (R.left source.old) (R.left source.new)) }
    ensures cause { OnErr result (Rose (R.faults source.old) (R.faults source.new)) }
    ensures counted { R.faults source.old ≤ R.faults source.new }
{
    source.read(&mut room[end..end + PIECE])
}
