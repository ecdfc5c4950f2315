//! Images, read from their text.

ghost use Rattle.std.specs.Prelude.{◌≡◌, ◌≢◌, ◌&&◌, ◌^◌, nat_le, IfOk, IsErrOf};
ghost use Rattle.serde_json.specs.Data.{Data};
ghost use Rattle.serde_json.specs.View.{view};
ghost use Rattle.dsde_image.specs.Image.{IsImage};
ghost use Rattle.dsde_image.specs.declared.image.Image.{Image};
ghost use Rattle.dsde_image.specs.Json.{image_data};
ghost use Rattle.dsde_image.specs.Text.{IsReading};
ghost use Rattle.dsde_image.specs.Form.{GivesIt, version_in, progress_of, image_of};
ghost use Rattle.dsde_image.specs.declared.reading.ReadImage.TheVariants as read_image;

use crate::fields::{array_under, count_in, moment_under, number_under, str_under, version_under};
use crate::names::with_names;
use crate::rows::each_row;
use crate::{Image, Version};
use dsde_values::Memory;
use serde_json::{Category, Value};
use std::alloc::Global;

/// Why no image was read.
#[derive(Clone, Copy)]
pub enum ReadImage {
    /// The bytes say no JSON value.
    NotJson,
    /// They say another one.
    WrongForm,
    Memory,
}

impl From<Memory> for ReadImage {
    ghost from_gives = { λ _ why. why ≡ read_image.Memory };

    fn from(_: Memory) -> ReadImage {
        ReadImage::Memory
    }
}

/// The image of version 1 or 2 that a text says. `NotJson` comes exactly where the bytes say no JSON
/// value that nests at most 127 deep, and `WrongForm` exactly where they say one that is no image's.
/// Blanks, the order of keys and the spelling of strings are free, and of a key that stands twice
/// the last value counts; a whole number is written without sign, fraction and exponent.
pub fn read_image(alloc: Global, bytes: &[u8]) -> Result<Image, ReadImage>
    ensures image { IfOk result IsImage }
    ensures says { IfOk result (λ image. IsReading bytes.now (image_data image)) }
    ensures only { IfOk result (λ image. (other : Image) → IsImage other → IsReading bytes.now (image_data other) → other ≡ image) }
    ensures not_json { IsErrOf result ReadImage.NotJson → (seen : Data) → ¬ IsReading bytes.now seen }
    ensures wrong_form { IsErrOf result ReadImage.WrongForm → (seen : Data) × IsReading bytes.now seen × ((image : Image) → IsImage image → seen ≢ image_data image) }
{
    let value = value_of(alloc, bytes)?;
    read_value(alloc, &value)
}

/// The JSON value that bytes say.
fn value_of(alloc: Global, bytes: &[u8]) -> Result<Value, ReadImage>
    ensures says { IfOk result (λ value. IsReading bytes.now (view value)) }
    ensures not_json { IsErrOf result ReadImage.NotJson → (seen : Data) → ¬ IsReading bytes.now seen }
    ensures other { IsErrOf result ReadImage.WrongForm → ⊥ }
{
    match Value::from_slice(alloc, bytes) {
        Ok(value) => Ok(value),
        Err(error) if error.classify() == Category::Memory => Err(ReadImage::Memory),
        Err(_) => Err(ReadImage::NotJson),
    }
}

/// The image that a JSON value is.
fn read_value(alloc: Global, value: &Value) -> Result<Image, ReadImage>
    ensures image { IfOk result IsImage }
    ensures is { IfOk result (λ image. view value.now ≡ image_data image) }
    ensures only { IfOk result (λ image. (other : Image) → IsImage other → view value.now ≡ image_data other → other ≡ image) }
    ensures not_json { IsErrOf result ReadImage.NotJson → ⊥ }
    ensures wrong_form { IsErrOf result ReadImage.WrongForm → (image : Image) → IsImage image → view value.now ≢ image_data image }
{
    let image = image_of(alloc, value)?;
    with_names(alloc, image)
}

#[tactic(auto, unfolding(crate::specs::Form::image_of))]
fn image_of(alloc: Global, value: &Value) -> Result<Image, ReadImage>
    ensures { GivesIt result (image_of (view value.now)) }
{
    let Some(version) = version_in(value) else {
        return Err(ReadImage::WrongForm);
    };
    let Some((records, time, turn)) = progress_of(value) else {
        return Err(ReadImage::WrongForm);
    };
    let Some(parts) = array_under(value, "parts") else {
        return Err(ReadImage::WrongForm);
    };
    let parts = each_row(alloc, version, parts)?;
    Ok(Image {
        version,
        turn,
        time,
        records,
        parts,
    })
}

/// The version of an image, where a value is marked as one.
#[tactic(auto, unfolding(crate::specs::Form::version_in))]
fn version_in(value: &Value) -> Option<Version>
    ensures { result ≡ version_in (view value.now) }
{
    let Some(kind) = str_under(value, "kind") else {
        return None;
    };
    let Some(version) = version_under(value, "version") else {
        return None;
    };
    if kind == "dsde-save" && count_in(value) == 6 {
        Some(version)
    } else {
        None
    }
}

/// How many records an image says to be taken, its time, and how many turns are done.
#[tactic(auto, unfolding(crate::specs::Form::progress_of))]
fn progress_of(value: &Value) -> Option<(u64, u64, u64)>
    ensures { result ≡ progress_of (view value.now) }
{
    let Some(records) = number_under(value, "records") else {
        return None;
    };
    let Some(time) = moment_under(value, "time") else {
        return None;
    };
    let Some(turn) = number_under(value, "turn") else {
        return None;
    };
    if are_bounded(records, turn) {
        Some((records, time, turn))
    } else {
        None
    }
}

/// The most turns of an image.
const MOST_TURNS: u64 = 1 << 62;

fn are_bounded(records: u64, turn: u64) -> bool
    ensures { result ≡ nat_le records turn && nat_le turn (2 ^ 62) }
{
    records <= turn && turn <= MOST_TURNS
}
