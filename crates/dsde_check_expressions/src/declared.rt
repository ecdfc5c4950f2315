//! Enums and records that are declared before: their variants and fields.

ghost use Rattle.std.specs.Prelude.{◌≡◌, not, length, map, OnOk};
ghost use Rattle.std.specs.Str.{bytes_eq};
ghost use Rattle.dsde_names.specs.Table.{is_among};
ghost use Rattle.dsde_language.specs.declared.wrong.WrongKind.TheVariants.{Unknown, WrongType};
ghost use Rattle.dsde_language.specs.Steps.{unless};
ghost use Rattle.dsde_language.specs.RuleTables.{field_name};
ghost use Rattle.dsde_language.specs.Judge.{field_in, field_of, variant_in, variant_at, variant_of, all_fields, in_order};
ghost use Rattle.dsde_check_scope.specs.Says.{Says};
ghost use Rattle.dsde_check_expressions.specs.Parts.{field_seen, judge_set, whole_record};

use dsde_check_scope::given::check_tables::{Known, Member, Word};
use dsde_check_scope::{Around, CheckError, copy_type, narrow, seen_as};
use dsde_language::{Seen, WrongKind};
use dsde_names::{Entry, Named, Names};
use dsde_syntax::{FieldSet, Id};
use dsde_values::Ty;
use std::alloc::Global;

fn field_in(alloc: Global, fields: &Names<Member<'_>>, name: &Id) -> Result<Ty, CheckError>
    ensures { Says (field_in fields.now name.now) result }
{
    let Some(field) = fields.get(name.name.as_slice()) else {
        return Err(CheckError::Wrong(WrongKind::Unknown, name.at));
    };
    Ok(copy_type(alloc, field.ty())?)
}

/// The type of a field: `WrongType` at an expression that is no record, and `Unknown` at a name that
/// is none of its fields.
fn field_of(around: &Around<'_>, seen: &Seen, name: &Id) -> Result<Ty, CheckError>
    ensures { Says (field_of around.now.known seen.now name.now) result }
{
    let Some(fields) = around.known().fields_of(&seen.ty) else {
        return Err(CheckError::Wrong(WrongKind::WrongType, seen.at));
    };
    field_in(around.alloc(), fields, name)
}

/// `e.name`, behind `e`.
pub(crate) fn field_seen(
    around: &Around<'_>,
    name: &Id,
    first: Seen,
    at: u32,
) -> Result<Seen, CheckError>
    ensures { Says (field_seen around.now name.now first at) result }
{
    let ty = field_of(around, &first, name)?;
    around.made(ty, first.height, at)
}

fn variant_in(
    number: u32,
    variants: &Names<Word<'_>>,
    variant: &Id,
    at: u32,
) -> Result<Seen, CheckError>
    ensures { Says (variant_in number variants.now variant.now at) result }
{
    if !variants.has(variant.name.as_slice()) {
        return Err(CheckError::Wrong(WrongKind::Unknown, variant.at));
    }
    Ok(seen_as(Ty::Enum(number), 0, at))
}

fn variant_at(known: &Known<'_>, owner: &Id, variant: &Id, number: u32) -> Result<Seen, CheckError>
    ensures { Says (variant_at known.now owner.now variant.now number) result }
{
    let Some(variants) = known.variants_at(number) else {
        return Err(CheckError::Wrong(WrongKind::Unknown, owner.at));
    };
    variant_in(number, variants, variant, owner.at)
}

/// `owner::variant`: `Unknown` at an owner that is no enum that is declared before, and at a name that
/// is none of its variants.
pub(crate) fn variant_of(known: &Known<'_>, owner: &Id, variant: &Id) -> Result<Seen, CheckError>
    ensures { Says (variant_of known.now owner.now variant.now) result }
{
    let Some(number) = known.before().number_of(owner.name.as_slice()) else {
        return Err(CheckError::Wrong(WrongKind::Unknown, owner.at));
    };
    variant_at(known, owner, variant, narrow(number)?)
}

fn is_field(fields: &Names<Member<'_>>, name: &Id) -> Result<(), CheckError>
    ensures { Says (unless (not (is_among field_name fields.now name.now.name)) Unknown name.now.at) result }
{
    if !fields.has(name.name.as_slice()) {
        return Err(CheckError::Wrong(WrongKind::Unknown, name.at));
    }
    Ok(())
}

/// Each of these names is a field's: else `Unknown` at it.
fn all_fields(
    _around: &Around<'_>,
    fields: &Names<Member<'_>>,
    sets: &[FieldSet],
) -> Result<(), CheckError>
    ensures { Says (all_fields fields.now (map (judge_set _around.now) sets.now)) result }
{
    for set in sets {
        is_field(fields, &set.name)?;
    }
    Ok(())
}

/// Whether a field has this name.
fn is_named(field: &Member<'_>, name: &Id) -> bool
    ensures { result ≡ bytes_eq field.now.name name.now.name }
{
    field.name() == name.name.as_slice()
}

/// Whether these are the names of fields, in their order.
fn in_order(_around: &Around<'_>, fields: &[Entry<Member<'_>>], sets: &[FieldSet]) -> bool
    requires { length fields.now ≡ length sets.now }
    ensures { result ≡ in_order fields.now (map (judge_set _around.now) sets.now) }
{
    let mut same = true;
    for index in 0..sets.len() {
        same = same & is_named(fields[index].get(), &sets[index].name);
    }
    same
}

/// These are the names of all fields, in their order: else `WrongType` at the record.
fn all_in_order(
    around: &Around<'_>,
    owner: &Id,
    fields: &Names<Member<'_>>,
    sets: &[FieldSet],
) -> Result<(), CheckError>
    ensures says { Says (unless (not (in_order fields.now (map (judge_set around.now) sets.now))) WrongType owner.now.at) result }
    ensures whole { OnOk result (length sets.now ≡ length fields.now) }
{
    if fields.len() != sets.len() {
        return Err(CheckError::Wrong(WrongKind::WrongType, owner.at));
    }
    if !in_order(around, fields.as_slice(), sets) {
        return Err(CheckError::Wrong(WrongKind::WrongType, owner.at));
    }
    Ok(())
}

/// A new record has all fields in their order: else `Unknown` at a name that is no field's, and then
/// `WrongType` at the record.
pub(crate) fn whole_record(
    around: &Around<'_>,
    owner: &Id,
    fields: &Names<Member<'_>>,
    sets: &[FieldSet],
) -> Result<(), CheckError>
    ensures says { Says (whole_record owner.now fields.now (map (judge_set around.now) sets.now)) result }
    ensures whole { OnOk result (length sets.now ≡ length fields.now) }
{
    all_fields(around, fields, sets)?;
    all_in_order(around, owner, fields, sets)
}
