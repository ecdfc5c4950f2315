//! The line at the front of some bytes.

ghost use Rattle.std.specs.Prelude.{◌≡◌, ◌≤◌, IfOk};
ghost use Rattle.dsde_values.specs.Value.{IsLawful};
ghost use Rattle.dsde_values.specs.When.{IsMoment};
ghost use Rattle.dsde_input_records.specs.Lines.{without_last};
ghost use Rattle.dsde_input_records.specs.Record.{ArePorts, AreItems};
ghost use Rattle.dsde_input_records.specs.Records.{line_record};

use crate::InputEnd;
use crate::read_record::read_record;
use dsde_values::{Arrival, Field, Memory, Seq, Types};
use std::alloc::Global;

/// The most bytes that a line may have before its end, a carriage return counted.
pub const LONGEST_LINE: usize = 65_536;

/// The record of a line of this number, or its offence. No time may be before the least.
pub fn line_record(
    alloc: Global,
    line: &[u8],
    number: u64,
    least: u64,
    ports: &Seq<Field>,
    types: &Types,
) -> Result<Result<Arrival, InputEnd>, Memory>
    requires ports { ArePorts ports.now }
    requires types { IsLawful types.now }
    ensures value { IfOk result (λ found. found ≡ line_record ports.now types.now number least line.now) }
    ensures early { IfOk result (λ found. IfOk found (λ arrival. IsMoment arrival.time)) }
    ensures late { IfOk result (λ found. IfOk found (λ arrival. least ≤ arrival.time)) }
    ensures fits { IfOk result (λ found. IfOk found (λ arrival. AreItems ports.now types.now arrival.items)) }
{
    if line.len() > LONGEST_LINE {
        return Ok(Err(InputEnd::LineTooLong(number)));
    }
    match read_record(alloc, without_last(line, b'\r'), number, ports, types)? {
        None => Ok(Err(InputEnd::BadLine(number))),
        Some(arrival) if arrival.time < least => Ok(Err(InputEnd::Backwards(number))),
        Some(arrival) => Ok(Ok(arrival)),
    }
}

/// The bytes without this one at their end, if it stands there.
pub fn without_last(bytes: &[u8], byte: u8) -> &[u8]
    ensures { result.now ≡ without_last byte bytes.now }
{
    match bytes.split_last() {
        Some((last, front)) if *last == byte => front,
        _ => bytes,
    }
}
