//! The rows of an image, read from JSON values.

ghost use Rattle.std.specs.Prelude.{◌≡◌, ◌-◌};
ghost use Rattle.serde_json.specs.View.{view, items_view};
ghost use Rattle.dsde_image.specs.Form.{GivesIt, each_of, count_in, place_members, location_of, standing_of, body_of, row_of};

use crate::fields::{
    count_in, depth_under, moment_under, str_under, text_of, texts_under, when_under,
};
use crate::reading::ReadImage;
use crate::{Body, Location, Row, Standing, Version};
use dsde_values::Seq;
use serde_json::Value;
use std::alloc::Global;

pub(crate) fn each_row(
    alloc: Global,
    version: Version,
    items: &[Value],
) -> Result<Seq<Row>, ReadImage>
    ensures { GivesIt result (each_of (row_of version) (items_view items.now)) }
{
    let mut rows = Seq::new(alloc);
    for item in items {
        rows.push(row_of(alloc, version, item)?)?;
    }
    Ok(rows)
}

/// A part, whose kind the number of its members says.
#[tactic(auto, unfolding(crate::specs::Form::row_of))]
fn row_of(alloc: Global, version: Version, value: &Value) -> Result<Row, ReadImage>
    ensures { GivesIt result (row_of version (view value.now)) }
{
    let location = location_of(alloc, version, value)?;
    let model = text_of(alloc, str_under(value, "model"))?;
    let body = body_of(alloc, body_members(version, value), value)?;
    Ok(Row {
        location,
        model,
        body,
    })
}

#[tactic(auto, unfolding(crate::specs::Form::location_of))]
fn location_of(alloc: Global, version: Version, value: &Value) -> Result<Location, ReadImage>
    ensures { GivesIt result (location_of version (view value.now)) }
{
    match version {
        Version::One => Ok(Location::Path(text_of(alloc, str_under(value, "path"))?)),
        Version::Two => {
            let Some(depth) = depth_under(value, "depth") else {
                return Err(ReadImage::WrongForm);
            };
            let name = text_of(alloc, str_under(value, "name"))?;
            Ok(Location::Last { name, depth })
        }
    }
}

/// How many members are left to say what a part is.
fn body_members(version: Version, value: &Value) -> usize
    ensures { result ≡ count_in (view value.now) - place_members version }
{
    let count = count_in(value);
    match version {
        Version::One => count.saturating_sub(2),
        Version::Two => count.saturating_sub(3),
    }
}

#[tactic(auto, unfolding(crate::specs::Form::body_of))]
fn body_of(alloc: Global, many: usize, value: &Value) -> Result<Body, ReadImage>
    ensures { GivesIt result (body_of many (view value.now)) }
{
    match many {
        1 => {
            let args = texts_under(alloc, value, "args")?;
            Ok(Body::Net { args })
        }
        3 => {
            let standing = standing_of(alloc, value)?;
            Ok(Body::Executive { standing })
        }
        4 => {
            let args = texts_under(alloc, value, "args")?;
            let standing = standing_of(alloc, value)?;
            Ok(Body::Atomic { args, standing })
        }
        _ => Err(ReadImage::WrongForm),
    }
}

#[tactic(auto, unfolding(crate::specs::Form::standing_of))]
fn standing_of(alloc: Global, value: &Value) -> Result<Standing, ReadImage>
    ensures { GivesIt result (standing_of (view value.now)) }
{
    let Some(last) = moment_under(value, "last") else {
        return Err(ReadImage::WrongForm);
    };
    let Some(next) = when_under(value, "next") else {
        return Err(ReadImage::WrongForm);
    };
    let state = texts_under(alloc, value, "state")?;
    Ok(Standing { state, last, next })
}
