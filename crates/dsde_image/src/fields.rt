//! Members of objects, found by their keys, and the values under them.

ghost use Rattle.std.specs.Prelude.{◌≡◌, option_map};
ghost use Rattle.serde_json.specs.View.{view, items_view};
ghost use Rattle.serde_json.specs.Find.{as_str, as_array};
ghost use Rattle.dsde_image.specs.Form.{GivesIt, number_of, moment_of, depth_of, version_of, when_of, each_of, under, texts_under, count_in};

use crate::Version;
use crate::reading::ReadImage;
use dsde_values::{LAST_MOMENT, Seq, Text, When};
use serde_json::Value;
use std::alloc::Global;

/// How many members an object has, which stand in the order of their keys; any other value has none.
pub(crate) fn count_in(value: &Value) -> usize
    ensures { result ≡ count_in (view value.now) }
{
    match value.as_object() {
        Some(members) => members.len(),
        None => 0,
    }
}

#[tactic(auto, unfolding(crate::specs::Form::under))]
pub(crate) fn str_under<'a>(value: &'a Value, key: &str) -> Option<&'a str>
    ensures { option_map (λ text. text.now) result ≡ under as_str key.now (view value.now) }
{
    match value.get(key) {
        Some(found) => found.as_str(),
        None => None,
    }
}

#[tactic(auto, unfolding(crate::specs::Form::under))]
pub(crate) fn array_under<'a>(value: &'a Value, key: &str) -> Option<&'a Vec<Value>>
    ensures { option_map (λ own. items_view own.now.items) result ≡ under as_array key.now (view value.now) }
{
    match value.get(key) {
        Some(found) => found.as_array(),
        None => None,
    }
}

#[tactic(auto, unfolding(crate::specs::Form::under))]
pub(crate) fn number_under(value: &Value, key: &str) -> Option<u64>
    ensures { result ≡ under number_of key.now (view value.now) }
{
    match value.get(key) {
        Some(found) => number_of(found),
        None => None,
    }
}

#[tactic(auto, unfolding(crate::specs::Form::under))]
pub(crate) fn moment_under(value: &Value, key: &str) -> Option<u64>
    ensures { result ≡ under moment_of key.now (view value.now) }
{
    match value.get(key) {
        Some(found) => moment_of(found),
        None => None,
    }
}

#[tactic(auto, unfolding(crate::specs::Form::under, crate::specs::Form::depth_of))]
pub(crate) fn depth_under(value: &Value, key: &str) -> Option<u32>
    ensures { result ≡ under depth_of key.now (view value.now) }
{
    match value.get(key) {
        Some(found) => depth_of(found),
        None => None,
    }
}

#[tactic(auto, unfolding(crate::specs::Form::under))]
pub(crate) fn version_under(value: &Value, key: &str) -> Option<Version>
    ensures { result ≡ under version_of key.now (view value.now) }
{
    match value.get(key) {
        Some(found) => version_of(found),
        None => None,
    }
}

#[tactic(auto, unfolding(crate::specs::Form::under))]
pub(crate) fn when_under(value: &Value, key: &str) -> Option<When>
    ensures { result ≡ under when_of key.now (view value.now) }
{
    match value.get(key) {
        Some(found) => when_of(found),
        None => None,
    }
}

/// A whole number below 2^64, written without sign, fraction and exponent.
#[tactic(auto, unfolding(crate::specs::Form::number_of))]
fn number_of(value: &Value) -> Option<u64>
    ensures { result ≡ number_of (view value.now) }
{
    value.as_u64()
}

#[tactic(auto, unfolding(crate::specs::Form::moment_of))]
fn moment_of(value: &Value) -> Option<u64>
    ensures { result ≡ moment_of (view value.now) }
{
    match number_of(value) {
        Some(time) if time <= LAST_MOMENT => Some(time),
        _ => None,
    }
}

#[tactic(auto, unfolding(crate::specs::Form::depth_of))]
fn depth_of(value: &Value) -> Option<u32>
    ensures { result ≡ depth_of (view value.now) }
{
    match number_of(value) {
        Some(depth) if depth < 1 << 32 => Some(depth as u32),
        _ => None,
    }
}

#[tactic(auto, unfolding(crate::specs::Form::version_of))]
fn version_of(value: &Value) -> Option<Version>
    ensures { result ≡ version_of (view value.now) }
{
    match number_of(value) {
        Some(1) => Some(Version::One),
        Some(2) => Some(Version::Two),
        _ => None,
    }
}

#[tactic(auto, unfolding(crate::specs::Form::when_of))]
fn when_of(value: &Value) -> Option<When>
    ensures { result ≡ when_of (view value.now) }
{
    if value.is_null() {
        return Some(When::Never);
    }
    match moment_of(value) {
        Some(time) => Some(When::At(time)),
        None => None,
    }
}

/// A text, where there is one.
pub(crate) fn text_of(alloc: Global, text: Option<&str>) -> Result<Text, ReadImage>
    ensures { GivesIt result (option_map (λ own. own.now) text.entry) }
{
    match text {
        Some(text) => Ok(Text::from_slice(alloc, text.as_bytes())?),
        None => Err(ReadImage::WrongForm),
    }
}

pub(crate) fn texts_under(alloc: Global, value: &Value, key: &str) -> Result<Seq<Text>, ReadImage>
    ensures { GivesIt result (texts_under key.now (view value.now)) }
{
    match array_under(value, key) {
        Some(items) => each_text(alloc, items),
        None => Err(ReadImage::WrongForm),
    }
}

fn each_text(alloc: Global, items: &[Value]) -> Result<Seq<Text>, ReadImage>
    ensures { GivesIt result (each_of as_str (items_view items.now)) }
{
    let mut texts = Seq::new(alloc);
    for item in items {
        texts.push(text_of(alloc, item.as_str())?)?;
    }
    Ok(texts)
}
