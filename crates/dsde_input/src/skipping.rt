//! A reader behind some of the records of its input.

ghost use Rattle.std.specs.Prelude.{◌≡◌, ◌≤◌, ℕ, None, IfOk, IfErr, OnOk, IfSome, IsSomeAnd, IsErrOf};
ghost use Rattle.dsde_values.specs.Value.{IsLawful};
ghost use Rattle.dsde_io.specs.Fault.{Rose};
ghost use Rattle.dsde_input_records.specs.Record.{ArePorts};
ghost use Rattle.dsde_input.specs.Reader.{least_time};
ghost use Rattle.dsde_input.specs.Skipped.{floored_in};
ghost use Rattle.dsde_input.specs.Skipping.{IsBehind, IsRefused, IsStopped, PassesOne, TakesSkipped};

use crate::reader::InputReader;
use dsde_input_parser::given::input_records::InputEnd;
use dsde_io::Source;
use dsde_values::{Field, Memory, Seq, Types};
use std::alloc::Global;

/// Why records of an input cannot be skipped.
#[derive(Clone, Copy)]
pub enum SkipEnd {
    /// The input ends before so many.
    Few,
    /// A line among them is no record, a read failed, or memory ran out.
    Refused(InputEnd),
}

/// The reader of an input behind its first records, of which there are so many, that lets none of the others
/// come before the floor.
///
/// `Few` comes exactly where the input ends before, with no bad line among its records; `BadLine`, `Backwards`
/// and `LineTooLong` exactly where one of these lines is the first that is no record; `ReadFault` only where a
/// read failed before they were all there with their line feeds. No more of the source is taken than up to the last
/// of these lines, and at most 4,096 bytes behind it. This project's profile.
pub fn skip<R: Source>(
    alloc: Global,
    source: &mut R,
    ports: &Seq<Field>,
    types: &Types,
    count: u64,
    floor: u64,
) -> Result<InputReader, SkipEnd>
    requires ports { ArePorts ports.now }
    requires types { IsLawful types.now }
    ensures behind { IfOk result (λ reader. IfSome (R.left source.old) (λ before. IsSomeAnd (R.left source.new) (λ after.
        IsBehind ports.now types.now count (floored_in ports.now types.now count floor before) reader before after))) }
    ensures late { IfOk result (λ reader. floor ≤ least_time reader) }
    ensures stopped { IfErr result (λ why. IfSome (R.left source.old) (λ before. IsSomeAnd (R.left source.new) (λ after.
        IsStopped count (floored_in ports.now types.now count floor before) why before after))) }
    ensures taken { IfSome (R.left source.old) (λ before. IsSomeAnd (R.left source.new) (λ after.
        TakesSkipped count (floored_in ports.now types.now count floor before) before after)) }
    ensures idle { count ≡ 0 → source.new ≡ source.old }
    ensures cause { IsErrOf result (SkipEnd.Refused InputEnd.ReadFault) → Rose (R.faults source.old) (R.faults source.new) }
    ensures counted { R.faults source.old ≤ R.faults source.new }
{
    let mut reader = match InputReader::new(alloc) {
        Ok(reader) => reader,
        Err(Memory) => return Err(SkipEnd::Refused(InputEnd::Memory)),
    };
    for _done in 0..count {
        match pass(&mut reader, source, ports, types) {
            Ok(true) => {}
            Ok(false) => return Err(SkipEnd::Few),
            Err(why) => return Err(SkipEnd::Refused(why)),
        }
    }
    reader.raise_floor(floor);
    Ok(reader)
}

/// Passes over a record. `false` where there is none.
fn pass<R: Source>(
    reader: &mut InputReader,
    source: &mut R,
    ports: &Seq<Field>,
    types: &Types,
) -> Result<bool, InputEnd>
    requires ports { ArePorts ports.now }
    requires types { IsLawful types.now }
    requires floor { reader.old.floor ≡ 0 }
    requires lawful { reader.old.offence ≡ None }
    ensures one { IfOk result (λ found. IfSome (R.left source.old) (λ before. IsSomeAnd (R.left source.new) (λ after.
        PassesOne ports.now types.now reader.old reader.new found before after))) }
    ensures refused { IfErr result (λ why. IfSome (R.left source.old) (λ before. IsSomeAnd (R.left source.new) (λ after.
        IsRefused ports.now types.now reader.old why before after))) }
    ensures floor { OnOk result (reader.new.floor ≡ 0) }
    ensures lawful { OnOk result (reader.new.offence ≡ None) }
    ensures cause { IsErrOf result InputEnd.ReadFault → Rose (R.faults source.old) (R.faults source.new) }
    ensures counted { R.faults source.old ≤ R.faults source.new }
{
    match reader.next(source, ports, types) {
        Ok(found) => Ok(found.is_some()),
        Err(why) => Err(why),
    }
}
