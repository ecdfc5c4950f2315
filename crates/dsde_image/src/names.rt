//! Paths and last names in the rows of an image.

ghost use Rattle.std.specs.Prelude.{◌≡◌, OnOk, IfOk, IsErrOf, ◌++◌, codes};
ghost use Rattle.std.specs.List.{AllByRecursion};
ghost use Rattle.dsde_image.specs.Image.{SpellsPath, SpellsLast};
ghost use Rattle.dsde_image.specs.Form.{Spells, SpellsRow};

use crate::reading::ReadImage;
use crate::{Image, Location};
use dsde_values::{Memory, ReadPath, Text, read_path};
use std::alloc::Global;

/// The image, where the names of its parts are names.
pub(crate) fn with_names(alloc: Global, image: Image) -> Result<Image, ReadImage>
    ensures same { IfOk result (λ own. own ≡ image) }
    ensures names { IfOk result (λ own. AllByRecursion SpellsRow own.parts) }
    ensures none { IsErrOf result ReadImage.WrongForm → ¬ AllByRecursion SpellsRow image.parts }
    ensures not_json { IsErrOf result ReadImage.NotJson → ⊥ }
{
    for row in image.parts.as_slice() {
        check_location(alloc, &row.location)?;
    }
    Ok(image)
}

fn check_location(alloc: Global, location: &Location) -> Result<(), ReadImage>
    ensures ok { OnOk result (Spells location.now) }
    ensures none { IsErrOf result ReadImage.WrongForm → ¬ Spells location.now }
    ensures not_json { IsErrOf result ReadImage.NotJson → ⊥ }
{
    match location {
        Location::Path(text) => check_path(alloc, text.as_slice()),
        Location::Last { name, .. } => check_last(alloc, name.as_slice()),
    }
}

/// Whether a text is that of a path.
fn check_path(alloc: Global, text: &[u8]) -> Result<(), ReadImage>
    ensures ok { OnOk result (SpellsPath text.now) }
    ensures none { IsErrOf result ReadImage.WrongForm → ¬ SpellsPath text.now }
    ensures not_json { IsErrOf result ReadImage.NotJson → ⊥ }
{
    match read_path(alloc, text) {
        Ok(_) => Ok(()),
        Err(ReadPath::NotAPath) => Err(ReadImage::WrongForm),
        Err(ReadPath::Memory) => Err(ReadImage::Memory),
    }
}

/// Whether a text is that of the last name of a path: it is where it is that of a component, or of
/// an executive, right below `root`.
fn check_last(alloc: Global, name: &[u8]) -> Result<(), ReadImage>
    ensures ok { OnOk result (SpellsLast name.now) }
    ensures none { IsErrOf result ReadImage.WrongForm → ¬ SpellsLast name.now }
    ensures not_json { IsErrOf result ReadImage.NotJson → ⊥ }
{
    let text = below_root(alloc, name)?;
    match read_path(alloc, text.as_slice()) {
        Ok(path) if path.names.len() == 2 => Ok(()),
        Ok(_) => Err(ReadImage::WrongForm),
        Err(ReadPath::NotAPath) => Err(ReadImage::WrongForm),
        Err(ReadPath::Memory) => Err(ReadImage::Memory),
    }
}

fn below_root(alloc: Global, name: &[u8]) -> Result<Text, Memory>
    ensures { IfOk result (λ text. text ≡ codes "root/" ++ name.now) }
{
    let mut text = Text::from_slice(alloc, b"root/")?;
    text.extend_from_slice(name)?;
    Ok(text)
}
