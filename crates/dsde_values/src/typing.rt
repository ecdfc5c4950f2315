//! What type a value has.

ghost use Rattle.std.specs.Prelude.{◌≡◌, ◌↔◌, IsTrue, map};
ghost use Rattle.std.specs.List.{list_all};
ghost use Rattle.std.specs.Option.{option_copied};
ghost use Rattle.dsde_values.specs.Value.{HasType, has_type, fill, is_variant, variants_at, fields_at, name_at};

use crate::{Def, Field, Shape, Ty, Types, Value};
use dsde_lists::Text;

/// The most items that a list may have.
pub const LONGEST_LIST: usize = 65_536;

/// Whether a value has a type of a table: a whole number `Int`, a list of at most 65,536 items the
/// type of lists of the type that all of them have, an option that of options of the type that its
/// value has, and an enum's and a record's value that with its number, where the table's enum has
/// the variant, or the values have the types of the table's record's fields in their order.
pub fn has_type(value: &Value, ty: &Ty, types: &Types) -> bool
    ensures { IsTrue result ↔ HasType types.now value.now ty.now }
{
    is_typed(value, ty, types)
}

/// Whether a value has a type.
#[cycle(typing)]
#[tactic(auto, using(crate::proofs::Layers::typings), unfolding(crate::specs::Value::has_type))]
pub fn is_typed(value: &Value, ty: &Ty, types: &Types) -> bool
    ensures { result ≡ has_type types.now value.now ty.now }
{
    match (value, ty) {
        (Value::Int(number), Ty::Int) => {
            // It is read, so that it is known to have 64 bits.
            let _number = *number;
            true
        }
        (Value::Bool(_), Ty::Bool) => true,
        (Value::Enum(own, variant), Ty::Enum(number)) => {
            own == number && is_variant(types, *number, *variant)
        }
        (Value::Rec(own, parts), Ty::Rec(number)) => {
            own == number
                && match fields_at(types, *number) {
                    Some(fields) => fill(parts.as_slice(), fields, types),
                    None => false,
                }
        }
        (Value::List(items), Ty::List(inner)) => {
            items.len() <= LONGEST_LIST && are_typed(items.as_slice(), inner.get(), types)
        }
        (Value::Nothing, Ty::Opt(_)) => true,
        (Value::Some(value), Ty::Opt(inner)) => is_typed(value.get(), inner.get(), types),
        _ => false,
    }
}

/// Whether all values have a type.
#[cycle(typing)]
fn are_typed(values: &[Value], ty: &Ty, types: &Types) -> bool
    ensures { result ≡ list_all (λ value. has_type types.now value ty.now) values.now }
{
    for value in values {
        if !is_typed(value, ty, types) {
            return false;
        }
    }
    true
}

/// Whether values have the types of fields, one each in their order.
#[cycle(typing)]
fn fill(values: &[Value], fields: &[Field], types: &Types) -> bool
    ensures { result ≡ fill (map (has_type types.now) values.now) fields.now }
{
    if values.len() != fields.len() {
        return false;
    }
    for (value, field) in values.iter().zip(fields) {
        if !is_typed(value, &field.ty, types) {
            return false;
        }
    }
    true
}

/// Whether the enum with this number has a variant with this one.
fn is_variant(types: &Types, number: u32, variant: u32) -> bool
    ensures { result ≡ is_variant types.now number variant }
{
    (variant as usize) < variants_at(types, number).len()
}

/// The variants of the enum with this number; none, if it is no enum.
pub fn variants_at(types: &Types, number: u32) -> &[Text]
    ensures { result.now ≡ variants_at types.now number }
{
    match types.defs.get(number as usize) {
        Some(
            Def {
                shape: Shape::Enum(variants),
                ..
            },
        ) => variants.as_slice(),
        _ => &[],
    }
}

/// The fields of the record with this number, if it is one.
pub fn fields_at(types: &Types, number: u32) -> Option<&[Field]>
    ensures { option_copied result ≡ fields_at types.now number }
{
    match types.defs.get(number as usize) {
        Some(
            Def {
                shape: Shape::Rec(fields),
                ..
            },
        ) => Some(fields.as_slice()),
        _ => None,
    }
}

/// The name of the definition with this number; nothing, if there is none.
pub fn name_at(types: &Types, number: u32) -> &[u8]
    ensures { result.now ≡ name_at types.now number }
{
    match types.defs.get(number as usize) {
        Some(def) => def.name.as_slice(),
        None => &[],
    }
}
