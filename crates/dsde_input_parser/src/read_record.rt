//! The record that a line spells.

ghost use Rattle.std.specs.Prelude.{◌≡◌, ◌==◌, List, IfOk, IfSome};
ghost use Rattle.std.specs.List.{position};
ghost use Rattle.std.specs.Str.{bytes_eq};
ghost use Rattle.dsde_values.specs.When.{IsMoment};
ghost use Rattle.dsde_values.specs.Value.{IsLawful};
ghost use Rattle.dsde_values.specs.declared.arrival.Item.{Item};
ghost use Rattle.dsde_input_parser.specs.Reading.{Reads, Anything, NoWord};
ghost use Rattle.dsde_input_records.specs.Record.{ArePorts, IsItem, AreItems, time_text, item_text, later_item_text, items_text, record_of};

use dsde_input_records::record_is_spelled;
use dsde_values::{
    Arrival, Field, Item, LAST_MOMENT, Memory, ReadValue, Seq, Types, decimal_of, read_value,
};
use std::alloc::Global;

/// The record that a line of this number spells, if it spells one.
pub fn read_record(
    alloc: Global,
    line: &[u8],
    number: u64,
    ports: &Seq<Field>,
    types: &Types,
) -> Result<Option<Arrival>, Memory>
    requires ports { ArePorts ports.now }
    requires types { IsLawful types.now }
    ensures value { IfOk result (λ found. found ≡ record_of ports.now types.now number line.now) }
    ensures early { IfOk result (λ found. IfSome found (λ arrival. IsMoment arrival.time)) }
    ensures fits { IfOk result (λ found. IfSome found (λ arrival. AreItems ports.now types.now arrival.items)) }
{
    record_is_spelled();
    let Some((time, size)) = read_time(line) else {
        return Ok(None);
    };
    let Some(items) = read_items(alloc, &line[size..], ports, types)? else {
        return Ok(None);
    };
    Ok(Some(Arrival {
        time,
        items,
        line: number,
    }))
}

/// The time at the front of a line with the space behind it, and how many bytes these have.
fn read_time(line: &[u8]) -> Option<(u64, usize)>
    ensures { Reads IsMoment time_text Anything line.now result }
{
    let size = space_at(line)?;
    let time = decimal_of(&line[..size])?;
    (time <= LAST_MOMENT).then_some((time, size + 1))
}

/// The items that a text spells, if it spells some.
fn read_items(
    alloc: Global,
    text: &[u8],
    ports: &Seq<Field>,
    types: &Types,
) -> Result<Option<Seq<Item>>, Memory>
    requires ports { ArePorts ports.now }
    requires types { IsLawful types.now }
    ensures spelled { IfOk result (λ found. IfSome found (λ items. AreItems ports.now types.now items × (text.now ≡ items_text ports.now types.now items))) }
    ensures only { IfOk result (λ found. (items : List Item) → AreItems ports.now types.now items → text.now ≡ items_text ports.now types.now items → found ≡ Some items) }
{
    let mut items = Seq::new(alloc);
    let Some((item, mut at)) = read_item(alloc, text, ports, types)? else {
        return Ok(None);
    };
    items.push(item)?;
    while at < text.len() {
        let Some((later, size)) = read_later_item(alloc, &text[at..], ports, types)? else {
            return Ok(None);
        };
        items.push(later)?;
        at += size;
    }
    Ok(Some(items))
}

/// The item at the front of a text behind a semicolon and a space, and how many bytes these have.
fn read_later_item(
    alloc: Global,
    text: &[u8],
    ports: &Seq<Field>,
    types: &Types,
) -> Result<Option<(Item, usize)>, Memory>
    requires ports { ArePorts ports.now }
    requires types { IsLawful types.now }
    ensures { IfOk result (Reads (IsItem ports.now types.now) (later_item_text ports.now types.now) NoWord text.now) }
{
    let Some(rest) = text.strip_prefix(b"; ") else {
        return Ok(None);
    };
    match read_item(alloc, rest, ports, types)? {
        Some((item, size)) => Ok(Some((item, 2 + size))),
        None => Ok(None),
    }
}

/// The item at the front of a text, where no word goes on from it, and how many bytes it has.
pub fn read_item(
    alloc: Global,
    text: &[u8],
    ports: &Seq<Field>,
    types: &Types,
) -> Result<Option<(Item, usize)>, Memory>
    requires ports { ArePorts ports.now }
    requires types { IsLawful types.now }
    ensures { IfOk result (Reads (IsItem ports.now types.now) (item_text ports.now types.now) NoWord text.now) }
{
    let Some(size) = space_at(text) else {
        return Ok(None);
    };
    let Some(port) = port_of(ports, &text[..size]) else {
        return Ok(None);
    };
    let field = &ports.as_slice()[port];
    match read_value(alloc, &text[size + 1..], &field.ty, types) {
        Ok((value, more)) => {
            let port = port as u32;
            Ok(Some((Item { port, value }, size + 1 + more)))
        }
        Err(ReadValue::NotAValue) => Ok(None),
        Err(ReadValue::Memory) => Err(Memory),
    }
}

/// The number of the first port with this name.
fn port_of(ports: &Seq<Field>, name: &[u8]) -> Option<usize>
    ensures { result ≡ position (λ port. bytes_eq port.name name.now) ports.now }
{
    ports.iter().position(|port| port.name.as_slice() == name)
}

/// Where the first space stands.
pub fn space_at(text: &[u8]) -> Option<usize>
    ensures { result ≡ position (λ byte. byte == 32) text.now }
{
    text.iter().position(|byte| *byte == b' ')
}
