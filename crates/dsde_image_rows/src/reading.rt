//! Values, read from whole texts.

ghost use Rattle.std.specs.Prelude.{◌≡◌, IfOk};
ghost use Rattle.dsde_values.specs.Value.{IsLawful};
ghost use Rattle.dsde_image_rows.specs.Values.{spelled_value, values_by};

use dsde_input_records::value_is_spelled;
use dsde_values::{Field, Memory, ReadValue, Seq, Text, Ty, Types, Value, Values, read_value};
use std::alloc::Global;

/// The value of a type that a whole text spells, if it spells one.
#[tactic(auto, unfolding(crate::specs::Values::spelled_value))]
fn whole_value(alloc: Global, types: &Types, ty: &Ty, text: &[u8]) -> Result<Option<Value>, Memory>
    requires { IsLawful types.now }
    ensures { IfOk result (λ found. found ≡ spelled_value types.now ty.now text.now) }
{
    value_is_spelled();
    match read_value(alloc, text, ty, types) {
        Ok((value, size)) if size == text.len() => Ok(Some(value)),
        Ok(_) => Ok(None),
        Err(ReadValue::NotAValue) => Ok(None),
        Err(ReadValue::Memory) => Err(Memory),
    }
}

/// The values of fields that texts spell, one each in their order, if they spell them.
pub(crate) fn values_of(
    alloc: Global,
    types: &Types,
    fields: &[Field],
    texts: &[Text],
) -> Result<Option<Values>, Memory>
    requires { IsLawful types.now }
    ensures { IfOk result (λ found. found ≡ values_by (spelled_value types.now) fields.now texts.now) }
{
    let mut values = Seq::new(alloc);
    let mut fields = fields;
    let mut texts = texts;
    while let Some((field, others)) = fields.split_first() {
        let Some((text, later)) = texts.split_first() else {
            return Ok(None);
        };
        let Some(value) = whole_value(alloc, types, &field.ty, text.as_slice())? else {
            return Ok(None);
        };
        values.push(value)?;
        fields = others;
        texts = later;
    }
    if texts.is_empty() {
        Ok(Some(values))
    } else {
        Ok(None)
    }
}
