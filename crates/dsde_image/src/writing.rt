//! Images, written as text.

ghost use Rattle.std.specs.Prelude.{◌≡◌, IfOk, OnOk, IsUtf8};
ghost use Rattle.std.specs.List.{AllByRecursion};
ghost use Rattle.serde_json.specs.Data.{string};
ghost use Rattle.serde_json.specs.View.{view, members_view};
ghost use Rattle.serde_json.specs.Written.{compact_text};
ghost use Rattle.dsde_image.specs.Written.{AreUtf8, IsWrittenBody, IsWrittenRow, IsWritten};
ghost use Rattle.dsde_image.specs.Json.{when_data, texts_data, row_data, rows_data, body_data, atomic_data, net_data, executive_data, image_data};
ghost use Rattle.dsde_image.specs.Members.{with_numbers, with_args, with_place, with_standing};
ghost use Rattle.dsde_image.specs.Text.{IsReading};

use crate::{Body, Image, Location, Row, Standing};
use dsde_values::{Memory, Seq, Text, When};
use serde_json::{Map, Value, put};
use std::alloc::Global;

/// The text of an image of version 2: its JSON value, written compact with its keys in the order of
/// their bytes. What is read of the text is that value again.
pub fn write_image(alloc: Global, image: &Image) -> Result<Text, Memory>
    requires { IsWritten image.now }
    ensures text { IfOk result (λ text. text ≡ compact_text (image_data image.now)) }
    ensures read { IfOk result (λ text. IsReading text (image_data image.now)) }
{
    let bytes = image_value(alloc, image)?.to_vec(alloc)?;
    Ok(Text::from_vec(bytes))
}

fn image_value(alloc: Global, image: &Image) -> Result<Value, Memory>
    requires { IsWritten image.now }
    ensures { IfOk result (λ value. view value ≡ image_data image.now) }
{
    let mut members = Map::new(alloc);
    let kind = Value::try_from_str(alloc, "dsde-save")?;
    put(&mut members, alloc, "kind", kind)?;
    let parts = rows_value(alloc, image.parts.as_slice())?;
    put(&mut members, alloc, "parts", parts)?;
    put_numbers(alloc, image, &mut members)?;
    Ok(Value::Object(members))
}

/// Puts how far a run is, and the version, which is 2.
fn put_numbers(alloc: Global, image: &Image, members: &mut Map<String, Value>) -> Result<(), Memory>
    ensures { OnOk result (members_view members.new.entries ≡ with_numbers image.now.records image.now.time image.now.turn (members_view members.old.entries)) }
{
    put(members, alloc, "records", Value::from(image.records))?;
    put(members, alloc, "time", Value::from(image.time))?;
    put(members, alloc, "turn", Value::from(image.turn))?;
    put(members, alloc, "version", Value::from(2u64))?;
    Ok(())
}

fn rows_value(alloc: Global, rows: &[Row]) -> Result<Value, Memory>
    requires { AllByRecursion IsWrittenRow rows.now }
    ensures { IfOk result (λ value. view value ≡ rows_data rows.now) }
{
    let mut values = Vec::new(alloc);
    for row in rows {
        values.push(row_value(alloc, row)?)?;
    }
    Ok(Value::Array(values))
}

fn row_value(alloc: Global, row: &Row) -> Result<Value, Memory>
    requires { IsWrittenRow row.now }
    ensures { IfOk result (λ value. view value ≡ row_data row.now) }
{
    match &row.location {
        Location::Path(_) => unreachable!(),
        Location::Last { name, depth } => body_value(alloc, name, *depth, &row.model, &row.body),
    }
}

fn body_value(
    alloc: Global,
    name: &Text,
    depth: u32,
    model: &Text,
    body: &Body,
) -> Result<Value, Memory>
    requires name { IsUtf8 name.now }
    requires model { IsUtf8 model.now }
    requires body { IsWrittenBody body.now }
    ensures { IfOk result (λ value. view value ≡ body_data name.now depth model.now body.now) }
{
    match body {
        Body::Atomic { args, standing } => atomic_value(alloc, name, depth, model, args, standing),
        Body::Net { args } => net_value(alloc, name, depth, model, args),
        Body::Executive { standing } => executive_value(alloc, name, depth, model, standing),
    }
}

fn atomic_value(
    alloc: Global,
    name: &Text,
    depth: u32,
    model: &Text,
    args: &Seq<Text>,
    standing: &Standing,
) -> Result<Value, Memory>
    requires name { IsUtf8 name.now }
    requires model { IsUtf8 model.now }
    requires args { AreUtf8 args.now }
    requires state { AreUtf8 standing.now.state }
    ensures { IfOk result (λ value. view value ≡ atomic_data name.now depth model.now args.now standing.now) }
{
    let mut members = Map::new(alloc);
    put_args(alloc, args, &mut members)?;
    put_place(alloc, name, depth, model, &mut members)?;
    put_standing(alloc, standing, &mut members)?;
    Ok(Value::Object(members))
}

fn net_value(
    alloc: Global,
    name: &Text,
    depth: u32,
    model: &Text,
    args: &Seq<Text>,
) -> Result<Value, Memory>
    requires name { IsUtf8 name.now }
    requires model { IsUtf8 model.now }
    requires args { AreUtf8 args.now }
    ensures { IfOk result (λ value. view value ≡ net_data name.now depth model.now args.now) }
{
    let mut members = Map::new(alloc);
    put_args(alloc, args, &mut members)?;
    put_place(alloc, name, depth, model, &mut members)?;
    Ok(Value::Object(members))
}

fn executive_value(
    alloc: Global,
    name: &Text,
    depth: u32,
    model: &Text,
    standing: &Standing,
) -> Result<Value, Memory>
    requires name { IsUtf8 name.now }
    requires model { IsUtf8 model.now }
    requires state { AreUtf8 standing.now.state }
    ensures { IfOk result (λ value. view value ≡ executive_data name.now depth model.now standing.now) }
{
    let mut members = Map::new(alloc);
    put_place(alloc, name, depth, model, &mut members)?;
    put_standing(alloc, standing, &mut members)?;
    Ok(Value::Object(members))
}

/// Puts the arguments with which a part started.
fn put_args(alloc: Global, args: &Seq<Text>, members: &mut Map<String, Value>) -> Result<(), Memory>
    requires { AreUtf8 args.now }
    ensures { OnOk result (members_view members.new.entries ≡ with_args args.now (members_view members.old.entries)) }
{
    let args = texts_value(alloc, args.as_slice())?;
    put(members, alloc, "args", args)?;
    Ok(())
}

/// Puts where a part stands, and its model.
fn put_place(
    alloc: Global,
    name: &Text,
    depth: u32,
    model: &Text,
    members: &mut Map<String, Value>,
) -> Result<(), Memory>
    requires name { IsUtf8 name.now }
    requires model { IsUtf8 model.now }
    ensures { OnOk result (members_view members.new.entries ≡ with_place name.now depth model.now (members_view members.old.entries)) }
{
    put(members, alloc, "depth", Value::from(depth))?;
    let model = text_value(alloc, model.as_slice())?;
    put(members, alloc, "model", model)?;
    let name = text_value(alloc, name.as_slice())?;
    put(members, alloc, "name", name)?;
    Ok(())
}

/// Puts when a component moved last and moves next, and its state.
fn put_standing(
    alloc: Global,
    standing: &Standing,
    members: &mut Map<String, Value>,
) -> Result<(), Memory>
    requires { AreUtf8 standing.now.state }
    ensures { OnOk result (members_view members.new.entries ≡ with_standing standing.now (members_view members.old.entries)) }
{
    put(members, alloc, "last", Value::from(standing.last))?;
    put(members, alloc, "next", when_value(standing.next))?;
    let state = texts_value(alloc, standing.state.as_slice())?;
    put(members, alloc, "state", state)?;
    Ok(())
}

fn when_value(next: When) -> Value
    ensures { view result ≡ when_data next }
{
    match next {
        When::At(time) => Value::from(time),
        When::Never => Value::Null,
    }
}

fn texts_value(alloc: Global, texts: &[Text]) -> Result<Value, Memory>
    requires { AreUtf8 texts.now }
    ensures { IfOk result (λ value. view value ≡ texts_data texts.now) }
{
    let mut values = Vec::new(alloc);
    for text in texts {
        values.push(text_value(alloc, text.as_slice())?)?;
    }
    Ok(Value::Array(values))
}

fn text_value(alloc: Global, text: &[u8]) -> Result<Value, Memory>
    requires { IsUtf8 text.now }
    ensures { IfOk result (λ value. view value ≡ string text.now) }
{
    match String::from_utf8(Vec::from_slice(alloc, text)?) {
        Ok(text) => Ok(Value::String(text)),
        Err(_) => unreachable!(),
    }
}
