//! The spelling of values.

ghost use Rattle.std.specs.Prelude.{◌≡◌, ◌++◌, length, take, map, unwrap_or, slice_index_or, [], codes, OnOk, OnErr};
ghost use Rattle.dsde_values.specs.Value.{spelling, joined, field_texts, name_at, variants_at, fields_at};

use crate::typing::{fields_at, name_at, variants_at};
use crate::{Field, Types, Value};
use dsde_lists::{Memory, Text, append_signed_decimal};

/// Appends the value's one spelling: a whole number in decimal, `true` or `false`, `E::v` for an
/// enum's variant, `R{f: v, g: w}` for a record, `[v, w]` for a list, `none` or `some(v)` for an
/// option. A definition, variant or field that the table lacks is spelled by nothing.
/// Without memory the text stays as it was.
pub fn write_value(value: &Value, types: &Types, text: &mut Text) -> Result<(), Memory>
    ensures ok { OnOk result (text.new ≡ text.old ++ spelling types.now value.now) }
    ensures err { OnErr result (text.new ≡ text.old) }
{
    let start = text.len();
    let written = append_value(value, types, text);
    text.whole_or_none(start, written)
}

/// Appends fields and their values, as many as there are of both: `f: v, g: w`.
/// Without memory the text stays as it was.
pub fn write_fields(
    fields: &[Field],
    values: &[Value],
    types: &Types,
    text: &mut Text,
) -> Result<(), Memory>
    ensures ok { OnOk result (text.new ≡ text.old ++ joined (field_texts fields.now (map (spelling types.now) values.now))) }
    ensures err { OnErr result (text.new ≡ text.old) }
{
    let start = text.len();
    let written = append_fields(fields, values, types, text);
    text.whole_or_none(start, written)
}

#[cycle(writing)]
#[tactic(auto, unfolding(crate::specs::Value::spelling))]
fn append_value(value: &Value, types: &Types, text: &mut Text) -> Result<(), Memory>
    ensures ok { OnOk result (text.new ≡ text.old ++ spelling types.now value.now) }
    ensures grows { take (length text.old) text.new ≡ text.old }
{
    match value {
        Value::Int(number) => append_signed_decimal(*number, text),
        Value::Bool(true) => text.extend_from_slice(b"true"),
        Value::Bool(false) => text.extend_from_slice(b"false"),
        Value::Enum(number, variant) => append_variant(*number, *variant, types, text),
        Value::Rec(number, parts) => append_record(*number, parts.as_slice(), types, text),
        Value::List(items) => append_list(items.as_slice(), types, text),
        Value::Nothing => text.extend_from_slice(b"none"),
        Value::Some(inner) => {
            text.extend_from_slice(b"some(")?;
            append_value(inner.get(), types, text)?;
            text.push(b')')
        }
    }
}

fn append_variant(number: u32, variant: u32, types: &Types, text: &mut Text) -> Result<(), Memory>
    ensures ok { OnOk result (text.new ≡ text.old ++ name_at types.now number ++ codes "::" ++ slice_index_or (variants_at types.now number) variant []) }
    ensures grows { take (length text.old) text.new ≡ text.old }
{
    text.extend_from_slice(name_at(types, number))?;
    text.extend_from_slice(b"::")?;
    match variants_at(types, number).get(variant as usize) {
        Some(variant) => text.extend_from_slice(variant.as_slice()),
        None => Ok(()),
    }
}

#[cycle(writing)]
fn append_record(number: u32, parts: &[Value], types: &Types, text: &mut Text) -> Result<(), Memory>
    ensures ok { OnOk result (text.new ≡ text.old ++ name_at types.now number ++ codes "{" ++ joined (field_texts (unwrap_or (fields_at types.now number) []) (map (spelling types.now) parts.now)) ++ codes "}") }
    ensures grows { take (length text.old) text.new ≡ text.old }
{
    text.extend_from_slice(name_at(types, number))?;
    text.push(b'{')?;
    append_fields(fields_at(types, number).unwrap_or(&[]), parts, types, text)?;
    text.push(b'}')
}

/// Appends fields and their values, as many as there are of both.
#[cycle(writing)]
fn append_fields(
    fields: &[Field],
    parts: &[Value],
    types: &Types,
    text: &mut Text,
) -> Result<(), Memory>
    ensures ok { OnOk result (text.new ≡ text.old ++ joined (field_texts fields.now (map (spelling types.now) parts.now))) }
    ensures grows { take (length text.old) text.new ≡ text.old }
{
    let Some((first, other_fields)) = fields.split_first() else {
        return Ok(());
    };
    let Some((first_part, other_parts)) = parts.split_first() else {
        return Ok(());
    };
    append_field(first, first_part, types, text)?;
    for (field, part) in other_fields.iter().zip(other_parts) {
        text.extend_from_slice(b", ")?;
        append_field(field, part, types, text)?;
    }
    Ok(())
}

#[cycle(writing)]
fn append_field(field: &Field, part: &Value, types: &Types, text: &mut Text) -> Result<(), Memory>
    ensures ok { OnOk result (text.new ≡ text.old ++ field.now.name ++ codes ": " ++ spelling types.now part.now) }
    ensures grows { take (length text.old) text.new ≡ text.old }
{
    text.extend_from_slice(field.name.as_slice())?;
    text.extend_from_slice(b": ")?;
    append_value(part, types, text)
}

#[cycle(writing)]
fn append_list(items: &[Value], types: &Types, text: &mut Text) -> Result<(), Memory>
    ensures ok { OnOk result (text.new ≡ text.old ++ codes "[" ++ joined (map (spelling types.now) items.now) ++ codes "]") }
    ensures grows { take (length text.old) text.new ≡ text.old }
{
    text.push(b'[')?;
    if let Some((first, others)) = items.split_first() {
        append_value(first, types, text)?;
        for item in others {
            text.extend_from_slice(b", ")?;
            append_value(item, types, text)?;
        }
    }
    text.push(b']')
}
