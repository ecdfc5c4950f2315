//! The table of types, in values that are owned.

ghost use Rattle.std.specs.Prelude.{◌≡◌, [], ◌++◌, unwrap_or, IfOk, OnOk};
ghost use Rattle.dsde_values.specs.Value.{fields};
ghost use Rattle.dsde_language.specs.DeclaredModels.{defs_from};

use dsde_check_tables::{Known, Made, Member, TypeEntry, Word, copy_type};
use dsde_language::given::names::{Named, Names};
use dsde_syntax::given::lists::Memory;
use dsde_values::{Def, Field, Seq, Shape, Text, Types};
use std::alloc::Global;

/// The types that a file declares.
pub fn types_of(alloc: Global, known: &Known<'_>) -> Result<Types, Memory>
    ensures { IfOk result (λ types. types ≡ record { defs = defs_from known.now.words known.now.types }) }
{
    let mut defs = Seq::new(alloc);
    add_defs(alloc, known.words(), known.types(), &mut defs)?;
    Ok(Types { defs })
}

/// Adds types with their identifiers.
fn add_defs(
    alloc: Global,
    words: &Names<TypeEntry<'_>>,
    types: &[Made<'_>],
    defs: &mut Seq<Def>,
) -> Result<(), Memory>
    ensures { OnOk result (defs.new ≡ defs.old ++ defs_from words.now types.now) }
{
    for (word, made) in words.as_slice().iter().zip(types) {
        defs.push(def(alloc, word.get(), made)?)?;
    }
    Ok(())
}

/// A type with its identifier.
fn def(alloc: Global, word: &TypeEntry<'_>, made: &Made<'_>) -> Result<Def, Memory>
    ensures { IfOk result (λ def. def ≡ record { name = word.now.name; shape = made.now }) }
{
    let name = Text::from_slice(alloc, word.name())?;
    let shape = shape(alloc, made)?;
    Ok(Def { name, shape })
}

/// What a type is.
fn shape(alloc: Global, made: &Made<'_>) -> Result<Shape, Memory>
    ensures { IfOk result (λ shape. shape ≡ made.now) }
{
    match made.variants() {
        Some(names) => Ok(Shape::Enum(variants(alloc, names)?)),
        None => Ok(Shape::Rec(members(alloc, made)?)),
    }
}

/// The names of variants.
fn variants(alloc: Global, names: &Names<Word<'_>>) -> Result<Seq<Text>, Memory>
    ensures { IfOk result (λ variants. variants ≡ names.now) }
{
    let mut variants = Seq::new(alloc);
    for word in names.as_slice() {
        variants.push(Text::from_slice(alloc, word.get().name())?)?;
    }
    Ok(variants)
}

/// The fields of a type, none where it is no record.
fn members(alloc: Global, made: &Made<'_>) -> Result<Seq<Field>, Memory>
    ensures { IfOk result (λ members. members ≡ unwrap_or (fields made.now) []) }
{
    match made.fields() {
        Some(members) => fields(alloc, members),
        None => Ok(Seq::new(alloc)),
    }
}

/// The fields of a record.
fn fields(alloc: Global, members: &Names<Member<'_>>) -> Result<Seq<Field>, Memory>
    ensures { IfOk result (λ fields. fields ≡ members.now) }
{
    let mut fields = Seq::new(alloc);
    for member in members.as_slice() {
        fields.push(field(alloc, member.get())?)?;
    }
    Ok(fields)
}

/// A field of a record.
fn field(alloc: Global, member: &Member<'_>) -> Result<Field, Memory>
    ensures { IfOk result (λ field. field ≡ member.now) }
{
    let name = Text::from_slice(alloc, member.name())?;
    let ty = copy_type(alloc, member.ty())?;
    Ok(Field { name, ty })
}
