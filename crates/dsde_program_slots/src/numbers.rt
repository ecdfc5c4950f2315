//! The numbers of what expressions name. Where something is wrong they are of no account.

ghost use Rattle.std.specs.Prelude.{◌≡◌, position, unwrap_or, IfOk};
ghost use Rattle.std.specs.Str.{bytes_eq};
ghost use Rattle.dsde_language.specs.Names.{type_number, variant_number};
ghost use Rattle.dsde_language.specs.Typing.{field_number, func_number};
ghost use Rattle.dsde_language.specs.DeclaredModels.{model_id, model_number};

use crate::scope::slot_of;
use dsde_check_tables::{Known, Word, narrow};
use dsde_language::ModelId;
use dsde_language::given::names::Names;
use dsde_syntax::given::lists::Memory;
use dsde_values::Ty;

/// The number of a type.
pub fn type_number(known: &Known<'_>, name: &[u8]) -> Result<u32, Memory>
    ensures { IfOk result (λ number. number ≡ type_number known.now name.now) }
{
    narrow(known.words().number_of(name).unwrap_or(0))
}

/// The number of a variant of an enum.
pub fn variant_number(known: &Known<'_>, owner: &[u8], name: &[u8]) -> Result<u32, Memory>
    ensures { IfOk result (λ number. number ≡ variant_number known.now owner.now name.now) }
{
    let number = type_number(known, owner)?;
    match known.variants_at(number) {
        Some(variants) => word_number(variants, name),
        None => Ok(0),
    }
}

/// The number of a name, or 0 where it is not among these.
fn word_number(words: &Names<Word<'_>>, name: &[u8]) -> Result<u32, Memory>
    ensures { IfOk result (λ number. number ≡ unwrap_or (position (λ own. bytes_eq own name.now) words.now) 0) }
{
    narrow(words.number_of(name).unwrap_or(0))
}

/// The number of a record's field.
pub fn field_number(known: &Known<'_>, ty: &Ty, name: &[u8]) -> Result<u32, Memory>
    ensures { IfOk result (λ number. number ≡ field_number known.now ty.now name.now) }
{
    match known.fields_of(ty) {
        Some(fields) => slot_of(fields, name),
        None => Ok(0),
    }
}

/// The number of a function.
pub fn func_number(known: &Known<'_>, name: &[u8]) -> Result<u32, Memory>
    ensures { IfOk result (λ number. number ≡ func_number known.now name.now) }
{
    narrow(known.funcs().number_of(name).unwrap_or(0))
}

/// The number of a model.
pub fn model_number(known: &Known<'_>, name: &[u8]) -> Result<u32, Memory>
    ensures { IfOk result (λ number. number ≡ model_number known.now name.now) }
{
    narrow(known.models().number_of(name).unwrap_or(0))
}

/// A model, by its number.
pub fn model_id(known: &Known<'_>, name: &[u8]) -> Result<ModelId, Memory>
    ensures { IfOk result (λ id. id ≡ model_id known.now name.now) }
{
    Ok(ModelId(model_number(known, name)?))
}
