//! Types and their tables, read from words.

use crate::calls::{Answer, truth};
use dsde_values::{Boxed, Def, Field, Memory, Seq, Shape, Text, Ty, Types, is_lawful};
use std::alloc::Global;

/// Whether the table is lawful.
pub(crate) fn lawful(types: &Types) -> Answer {
    truth(is_lawful(types))
}

/// No definitions any more.
pub(crate) fn clear(alloc: Global, types: &mut Types) -> Answer {
    types.defs = Seq::new(alloc);
    Answer::Done
}

/// Another type.
pub(crate) fn set(alloc: Global, ty: &mut Ty, words: &str) -> Result<Answer, Memory> {
    *ty = type_of(alloc, words)?;
    Ok(Answer::Done)
}

/// Adds the enum of a name and its variants.
pub(crate) fn add_enum(alloc: Global, types: &mut Types, words: &str) -> Result<Answer, Memory> {
    let (name, words) = words.split_once(' ').unwrap_or((words, ""));
    let mut variants = Seq::new(alloc);
    append_variants(alloc, &mut variants, words)?;
    add(alloc, types, name, Shape::Enum(variants))
}

fn append_variants(alloc: Global, variants: &mut Seq<Text>, words: &str) -> Result<(), Memory> {
    for word in words.split(',') {
        if !word.is_empty() {
            variants.push(Text::from_slice(alloc, word.as_bytes())?)?;
        }
    }
    Ok(())
}

/// Adds the record of a name and its fields.
pub(crate) fn add_record(alloc: Global, types: &mut Types, words: &str) -> Result<Answer, Memory> {
    let (name, words) = words.split_once(' ').unwrap_or((words, ""));
    let mut fields = Seq::new(alloc);
    append_fields(alloc, &mut fields, words)?;
    add(alloc, types, name, Shape::Rec(fields))
}

fn append_fields(alloc: Global, fields: &mut Seq<Field>, words: &str) -> Result<(), Memory> {
    for words in words.split(", ") {
        if let Some((name, ty)) = words.split_once(' ') {
            let ty = type_of(alloc, ty)?;
            let name = Text::from_slice(alloc, name.as_bytes())?;
            fields.push(Field { name, ty })?;
        }
    }
    Ok(())
}

fn add(alloc: Global, types: &mut Types, name: &str, shape: Shape) -> Result<Answer, Memory> {
    let name = Text::from_slice(alloc, name.as_bytes())?;
    types.defs.push(Def { name, shape })?;
    Ok(Answer::Done)
}

/// The type that is written so, from outside in, as `list opt enum#0`, where `enum#9` is the enum of
/// this number, `record#9` the record.
pub(crate) fn type_of(alloc: Global, words: &str) -> Result<Ty, Memory> {
    let mut ty = Ty::Bool;
    for word in words.rsplit(' ') {
        ty = match word {
            "list" => Ty::List(Boxed::new(alloc, ty)?),
            "opt" => Ty::Opt(Boxed::new(alloc, ty)?),
            word => plain_type(word),
        };
    }
    Ok(ty)
}

fn plain_type(word: &str) -> Ty {
    match word.split_once('#') {
        Some(("enum", number)) => Ty::Enum(number_of(number)),
        Some((_, number)) => Ty::Rec(number_of(number)),
        None if word == "int" => Ty::Int,
        None => Ty::Bool,
    }
}

fn number_of(word: &str) -> u32 {
    word.parse::<u32>().unwrap_or(u32::MAX)
}
