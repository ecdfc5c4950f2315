//! The calls of an object in memory, and which of them fail.

ghost use Rattle.std.specs.Prelude.{◌≡◌, ◌≤◌, ◌↔◌, IsTrue, MatchBool};

use dsde_values::Seq;

/// The calls that an object in memory has answered, and those that are to fail.
#[derive(Drop)]
pub struct Calls {
    /// The numbers, counted from 1, of the calls that fail.
    pub failing: Seq<u64>,
    /// How many calls there were, up to 2^64 - 1.
    pub made: u64,
    /// How many of them failed, up to 2^64 - 1.
    pub faults: u64,
}

impl Calls {
    ghost use Rattle.dsde_io.specs.Calls.{no_calls, NextFails, after_call, after_fault};

    /// No calls yet.
    pub fn new(failing: Seq<u64>) -> Calls
        ensures { result ≡ no_calls failing }
    {
        Calls {
            failing,
            made: 0,
            faults: 0,
        }
    }

    /// How many calls there were, up to 2^64 - 1.
    pub fn made(&self) -> u64
        ensures { result ≡ self.now.made }
    {
        self.made
    }

    /// Counts a call, and answers whether it is to fail.
    pub fn next_fails(&mut self) -> bool
        ensures fails { IsTrue result ↔ NextFails self.old }
        ensures counts { MatchBool result (self.new ≡ after_fault self.old)
            (self.new ≡ after_call self.old) }
        ensures counted { self.old.faults ≤ self.new.faults }
    {
        let fails = self.is_next();
        self.made = self.made.saturating_add(1);
        if fails {
            self.faults = self.faults.saturating_add(1);
        }
        fails
    }

    /// Whether the next call is to fail. The calls past the last that is counted have no number.
    fn is_next(&self) -> bool
        ensures { IsTrue result ↔ NextFails self.now }
    {
        let failing = self.failing.as_slice();
        match self.made.checked_add(1) {
            Some(number) => failing.contains(&number),
            None => false,
        }
    }
}
