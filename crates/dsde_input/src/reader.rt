//! The records of an input, one a call.

ghost use Rattle.std.specs.Prelude.{◌≡◌, ◌<◌, ◌≤◌, ◌+◌, max, true, false, List, ℕ, Some, None, [], length, IfOk, IfErr, OnOk, OnErr, IsErrOf, IfSome, IsSomeAnd, OnSome, MatchOption};
ghost use Rattle.dsde_values.specs.Value.{IsLawful};
ghost use Rattle.dsde_values.specs.When.{IsMoment};
ghost use Rattle.dsde_io.specs.Fault.{Rose};
ghost use Rattle.dsde_input_parser.specs.given.input_records.Lines.{behind_line};
ghost use Rattle.dsde_input_parser.specs.given.input_records.Record.{ArePorts, AreItems};
ghost use Rattle.dsde_input.specs.Reader.{fresh, to_come, records, least_time, Tells, has_line, reads_left, IsOffence, Moves, given, IsLineOf, TakesOfLine, TakesLine, SeesEnd};

use crate::InputEnd;
use crate::feed::{feed_at, line_sizes};
use crate::held::Held;
use dsde_input_parser::{LONGEST_LINE, line_record};
use dsde_io::{Failed, Source};
use dsde_values::{Arrival, Field, Memory, Seq, Types};
use std::alloc::Global;
use std::marker::Model;

/// Reads the records of an input one after the other, from a source that is handed in.
#[derive(Drop)]
pub struct InputReader {
    alloc: Global,
    /// What was read and not given: bytes of the wanted line, and what came behind it.
    held: Held,
    /// So many of these bytes, from the front, have no line feed.
    searched: usize,
    /// The number of the last line that was given.
    number: u64,
    /// The time of its record.
    last: Option<u64>,
    /// The least time that a record may have.
    floor: u64,
    /// The end of the input was seen.
    ended: bool,
    /// The offence that was answered.
    offence: Option<InputEnd>,
}

impl Model for InputReader {
    ghost use Rattle.std.specs.Prelude.{◌≤◌, IfSome, length, take};
    ghost use Rattle.dsde_input_parser.specs.given.input_records.Lines.{Lacks};
    ghost use Rattle.dsde_input.specs.Reader.{Reader, IsOffence};

    ghost Value = { Reader };

    ghost view = { λ reader. record { held = reader.held; number = reader.number; last = reader.last; floor = reader.floor; ended = reader.ended; offence = reader.offence } };

    ghost invariant = { λ reader. (reader.searched ≤ length reader.held) × Lacks 10 (take reader.searched reader.held) × IfSome reader.offence IsOffence };
}

impl InputReader {
    /// A reader at the start of an input, with room for a line.
    pub fn new(alloc: Global) -> Result<InputReader, Memory>
        ensures { IfOk result (λ reader. reader ≡ fresh) }
    {
        Ok(InputReader {
            alloc,
            held: Held::new(alloc)?,
            searched: 0,
            number: 0,
            last: None,
            floor: 0,
            ended: false,
            offence: None,
        })
    }

    /// The next record; `None` exactly at the end of the input. An offence is that of the wanted
    /// line, and each later call answers it again. `ReadFault` comes only where a read failed
    /// before the wanted line was there with its line feed. After it, and after `Memory`, the bytes
    /// that were read are kept, and the call may be repeated. The ports' names are identifiers that
    /// differ, and the table of types is lawful.
    pub fn next<R: Source>(
        &mut self,
        source: &mut R,
        ports: &Seq<Field>,
        types: &Types,
    ) -> Result<Option<Arrival>, InputEnd>
        requires ports { ArePorts ports.now }
        requires types { IsLawful types.now }

        // The records to come, where the source tells its bytes.
        ensures records { IfSome (R.left source.old) (λ before. IsSomeAnd (R.left source.new) (λ after.
            Tells (records ports.now types.now self.old (to_come self.old before))
            (records ports.now types.now self.new (to_come self.new after)) result)) }

        // After a record those bytes are gone that are of its line, with its line feed.
        ensures given { IfOk result (λ found. IfSome found (λ arrival. self.new ≡ record (given self.old arrival) { held = self.new.held; ended = self.new.ended })) }
        ensures taken { IfOk result (λ found. OnSome found (IfSome (R.left source.old) (λ before. IsSomeAnd (R.left source.new) (λ after.
            to_come self.new after ≡ behind_line (to_come self.old before))))) }
        ensures end { result ≡ Ok None → self.new ≡ record self.old { held = []; ended = true } }

        // An offence is answered again, and nothing is read.
        ensures stays { IfErr result (λ end. IsOffence end → self.new.offence ≡ Some end) }
        ensures again { IfSome self.old.offence (λ offence. (result ≡ Err offence) × (self.new ≡ self.old) × (source.new ≡ source.old)) }

        // A record's time is one of a run, and not before that of the last record or the floor; its items come by the ports.
        ensures early { IfOk result (λ found. IfSome found (λ arrival. IsMoment arrival.time)) }
        ensures late { IfOk result (λ found. IfSome found (λ arrival. least_time self.old ≤ arrival.time)) }
        ensures fits { IfOk result (λ found. IfSome found (λ arrival. AreItems ports.now types.now arrival.items)) }

        // One read asks for at most 4,096 bytes, and none is made where the wanted line is there:
        // a line that is too long is refused as soon as 65,537 of its bytes were seen.
        ensures of_line { IfSome (R.left source.old) (λ before. IsSomeAnd (R.left source.new) (λ after. TakesOfLine self.old before after)) }
        ensures line { IfOk result (λ found. OnSome found (self.new.ended ≡ false
            → IfSome (R.left source.old) (λ before. IsSomeAnd (R.left source.new) (λ after. TakesLine self.old self.new before after)))) }

        // The end of the input is seen only where no byte is left.
        ensures over { IfOk result (λ _. SeesEnd self.old self.new (R.left source.old) (R.left source.new)) }

        // Nothing is lost where a read failed, or memory ran out.
        ensures fault_keeps { IsErrOf result InputEnd.ReadFault → Moves self.old self.new (R.left source.old) (R.left source.new) }
        ensures memory_keeps { IsErrOf result InputEnd.Memory → Moves self.old self.new (R.left source.old) (R.left source.new) }

        // A read failed before all was there that the wanted line needs; only then the source is read.
        ensures cause { IsErrOf result InputEnd.ReadFault → Rose (R.faults source.old) (R.faults source.new) }
        ensures wanted { IsErrOf result InputEnd.ReadFault → (has_line self.old ≡ false) × (has_line self.new ≡ false) }
        ensures idle { has_line self.old ≡ true → source.new ≡ source.old }
        ensures counted { R.faults source.old ≤ R.faults source.new }
    {
        if let Some(offence) = self.offence {
            return Err(offence);
        }
        self.fill(source)?;
        self.give(ports, types)
    }

    /// Lets no record come before this time.
    pub fn raise_floor(&mut self, time: u64)
        ensures { self.new ≡ record self.old { floor = max self.old.floor time } }
    {
        self.floor = self.floor.max(time);
    }

    /// Reads until all is there that the wanted line needs.
    fn fill<R: Source>(&mut self, source: &mut R) -> Result<(), Failed>
        ensures moves { Moves self.old self.new (R.left source.old) (R.left source.new) }
        ensures whole { OnOk result (has_line self.new ≡ true) }
        ensures wanted { OnErr result ((has_line self.old ≡ false) × (has_line self.new ≡ false)) }
        ensures of_line { IfSome (R.left source.old) (λ before. IsSomeAnd (R.left source.new) (λ after. TakesOfLine self.old before after)) }
        ensures cause { OnErr result (Rose (R.faults source.old) (R.faults source.new)) }
        ensures counted { R.faults source.old ≤ R.faults source.new }
        ensures idle { has_line self.old ≡ true → (self.new ≡ self.old) × (source.new ≡ source.old) }
    {
        while !self.look() {
            self.read_piece(source)?;
        }
        Ok(())
    }

    /// Whether all is there that the wanted line needs. What was searched is not searched again.
    fn look(&mut self) -> bool
        ensures answer { result ≡ has_line self.old }
        ensures same { self.new ≡ self.old }
    {
        let held = self.held.as_slice();
        match feed_at(held, self.searched) {
            Some(at) => {
                self.searched = at;
                true
            }
            None => {
                self.searched = held.len();
                self.ended || held.len() > LONGEST_LINE
            }
        }
    }

    /// Reads a piece behind what is held, or sees the end of the input.
    fn read_piece<R: Source>(&mut self, source: &mut R) -> Result<(), Failed>
        requires { has_line self.old ≡ false }
        ensures moves { Moves self.old self.new (R.left source.old) (R.left source.new) }
        ensures piece { length self.new.held ≤ length self.old.held + 4096 }
        ensures fewer { OnOk result (reads_left self.new < reads_left self.old) }
        ensures kept { OnErr result (self.new ≡ self.old) }
        ensures cause { OnErr result (Rose (R.faults source.old) (R.faults source.new)) }
        ensures counted { R.faults source.old ≤ R.faults source.new }
    {
        if self.held.read(source)? == 0 {
            self.ended = true;
        }
        Ok(())
    }

    /// Gives the record of the wanted line, which is there, or its offence.
    fn give(&mut self, ports: &Seq<Field>, types: &Types) -> Result<Option<Arrival>, InputEnd>
        requires ports { ArePorts ports.now }
        requires types { IsLawful types.now }
        requires whole { has_line self.old ≡ true }
        requires lawful { self.old.offence ≡ None }

        ensures records { (left : List ℕ) → Tells (records ports.now types.now self.old (to_come self.old left))
            (records ports.now types.now self.new (to_come self.new left)) result }
        ensures given { IfOk result (λ found. MatchOption found ((self.new ≡ self.old) × (self.old.held ≡ []) × (self.old.ended ≡ true)) (λ arrival. self.new ≡ given self.old arrival)) }
        ensures taken { IfOk result (λ found. OnSome found ((left : List ℕ) → to_come self.new left ≡ behind_line (to_come self.old left))) }
        ensures line { IfOk result (λ found. OnSome found (self.old.ended ≡ false → IsLineOf self.old.held self.new.held)) }
        ensures early { IfOk result (λ found. IfSome found (λ arrival. IsMoment arrival.time)) }
        ensures late { IfOk result (λ found. IfSome found (λ arrival. least_time self.old ≤ arrival.time)) }
        ensures fits { IfOk result (λ found. IfSome found (λ arrival. AreItems ports.now types.now arrival.items)) }
        ensures stays { IfErr result (λ end. IsOffence end → self.new.offence ≡ Some end) }
        ensures memory { IsErrOf result InputEnd.Memory → self.new ≡ self.old }
        ensures no_fault { ¬ (IsErrOf result InputEnd.ReadFault) }
    {
        let held = self.held.as_slice();
        if held.is_empty() {
            return Ok(None);
        }
        let (size, whole) = line_sizes(held, self.searched);
        let number = self.number.saturating_add(1);
        let least = self.last.unwrap_or(0).max(self.floor);
        match line_record(self.alloc, &held[..size], number, least, ports, types)? {
            Ok(arrival) => {
                self.held.pass(whole);
                self.searched = 0;
                self.number = number;
                self.last = Some(arrival.time);
                Ok(Some(arrival))
            }
            Err(offence) => {
                self.offence = Some(offence);
                Err(offence)
            }
        }
    }
}
