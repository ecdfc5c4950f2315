//! Inputs: the records that a reader gives of them.

ghost use Rattle.std.specs.Prelude.{◌≡◌, IfOk};
ghost use Rattle.dsde_input_records.specs.Record.{ArePorts};

use crate::calls::Answer;
use dsde_input::{InputEnd, InputReader};
use dsde_io::MemorySource;
use dsde_values::{Arrival, Field, Memory, Seq, Text, Ty, Types, Value};
use std::alloc::Global;

/// Other numbers of a source.
pub(crate) fn set(alloc: Global, numbers: &mut Vec<u64>, words: &str) -> Result<Answer, Memory> {
    *numbers = Vec::new(alloc);
    for word in words.split(' ') {
        if let Ok(number) = word.parse::<u64>() {
            numbers.push(number)?;
        }
    }
    Ok(Answer::Done)
}

/// Appends what so many calls of a reader come to as the first number says, over a source of this
/// text, of which one read gives at most as many bytes as the second says. The reads of the others
/// fail.
pub(crate) fn append(
    alloc: Global,
    answers: &mut String,
    numbers: &[u64],
    text: Vec<u8>,
) -> Result<(), Memory> {
    let [calls, largest, failing @ ..] = numbers else {
        return Ok(());
    };
    let largest = *largest as usize;
    if largest == 0 {
        return Ok(());
    }
    let failing = Seq::from_slice(alloc, failing)?;
    let mut source = MemorySource::new(Text::from_vec(text), largest, failing);
    append_answers(alloc, answers, &mut source, *calls)?;
    append_rest(answers, &source)
}

/// Appends how many bytes a source has left and how many reads there were.
fn append_rest(answers: &mut String, source: &MemorySource) -> Result<(), Memory> {
    let left = source.contents().len();
    let reads = source.calls();
    writeln!(answers, "left {left}, reads {reads}")?;
    Ok(())
}

/// Appends what a reader answers to so many calls, a line for each.
fn append_answers(
    alloc: Global,
    answers: &mut String,
    source: &mut MemorySource,
    calls: u64,
) -> Result<(), Memory> {
    let ports = two_ports(alloc)?;
    let types = Types {
        defs: Seq::new(alloc),
    };
    let mut reader = InputReader::new(alloc)?;
    for _ in 0..calls {
        append_answer(answers, &reader.next(source, &ports, &types))?;
    }
    Ok(())
}

/// The ports `x` and `y_2`.
fn two_ports(alloc: Global) -> Result<Seq<Field>, Memory>
    ensures { IfOk result ArePorts }
{
    let mut ports = Seq::new(alloc);
    ports.push(port(alloc, b"x")?)?;
    ports.push(port(alloc, b"y_2")?)?;
    Ok(ports)
}

fn port(alloc: Global, name: &[u8]) -> Result<Field, Memory>
    ensures { IfOk result (λ port. port ≡ record { name = name.now; ty = Ty.Int }) }
{
    Ok(Field {
        name: Text::from_slice(alloc, name)?,
        ty: Ty::Int,
    })
}

fn append_answer(
    answers: &mut String,
    answer: &Result<Option<Arrival>, InputEnd>,
) -> Result<(), Memory> {
    match answer {
        Ok(Some(arrival)) => append_record(answers, arrival),
        Ok(None) => append_word(answers, "end\n"),
        Err(end) => append_end(answers, *end),
    }
}

fn append_word(answers: &mut String, word: &str) -> Result<(), Memory> {
    answers.push_str(word)?;
    Ok(())
}

fn append_end(answers: &mut String, end: InputEnd) -> Result<(), Memory> {
    let (word, line) = match end {
        InputEnd::BadLine(line) => ("bad", line),
        InputEnd::Backwards(line) => ("backwards", line),
        InputEnd::LineTooLong(line) => ("long", line),
        InputEnd::ReadFault => return append_word(answers, "fault\n"),
        InputEnd::Memory => return Err(Memory),
    };
    writeln!(answers, "{word} {line}")?;
    Ok(())
}

/// Appends `LINE:TIME PORT=VALUE ..` of a record, without items that are as the one before, and how
/// many items there are.
fn append_record(answers: &mut String, arrival: &Arrival) -> Result<(), Memory> {
    let (line, time) = (arrival.line, arrival.time);
    write!(answers, "{line}:{time}")?;
    append_items(answers, arrival)?;
    let count = arrival.items.len();
    writeln!(answers, " ({count})")?;
    Ok(())
}

fn append_items(answers: &mut String, arrival: &Arrival) -> Result<(), Memory> {
    let mut before = (u32::MAX, 0i64);
    for item in arrival.items.iter() {
        if let Value::Int(number) = item.value
            && before != (item.port, number)
        {
            let port = item.port;
            write!(answers, " {port}={number}")?;
            before = (port, number);
        }
    }
    Ok(())
}
