//! Where the rows of an image say that parts stand.

ghost use Rattle.std.specs.Prelude.{◌≡◌, IfOk};
ghost use Rattle.dsde_values.specs.Path.{name_text, path_text};
ghost use Rattle.dsde_image.specs.Image.{last_text, location_of};
ghost use Rattle.dsde_image_rows.specs.Walk.{is_same_location};

use dsde_image::{Location, Version};
use dsde_sim_starting::given::check_tables::narrow;
use dsde_values::{Memory, Name, Path, Seq, Text, write_path};
use std::alloc::Global;

fn path_text(alloc: Global, path: &Path) -> Result<Text, Memory>
    ensures { IfOk result (λ text. text ≡ path_text path.now) }
{
    let mut text = Text::new(alloc);
    write_path(path, &mut text)?;
    Ok(text)
}

fn name_text(alloc: Global, name: &Name) -> Result<Text, Memory>
    ensures { IfOk result (λ text. text ≡ name_text name.now) }
{
    let mut names = Seq::new(alloc);
    names.push(name.copy(alloc)?)?;
    path_text(alloc, &Path { names })
}

fn last_text(alloc: Global, path: &Path) -> Result<Text, Memory>
    ensures { IfOk result (λ text. text ≡ last_text path.now.names) }
{
    match path.names.as_slice().split_last() {
        None => Ok(Text::new(alloc)),
        Some((name, _)) => name_text(alloc, name),
    }
}

/// Where a row of an image of this version says that the part at a path stands.
pub fn location_of(alloc: Global, version: Version, path: &Path) -> Result<Location, Memory>
    ensures { IfOk result (λ own. own ≡ location_of version path.now) }
{
    match version {
        Version::One => Ok(Location::Path(path_text(alloc, path)?)),
        Version::Two => {
            let depth = narrow(path.names.len())?;
            let name = last_text(alloc, path)?;
            Ok(Location::Last { name, depth })
        }
    }
}

fn is_same_location(own: &Location, other: &Location) -> bool
    ensures { result ≡ is_same_location own.now other.now }
{
    match (own, other) {
        (Location::Path(text), Location::Path(other)) => text.as_slice() == other.as_slice(),
        (
            Location::Last { name, depth },
            Location::Last {
                name: other,
                depth: many,
            },
        ) => name.as_slice() == other.as_slice() && *depth == *many,
        _ => false,
    }
}

/// Whether a row of an image of this version stands at a path by its location.
pub fn is_at(
    alloc: Global,
    version: Version,
    path: &Path,
    location: &Location,
) -> Result<bool, Memory>
    ensures { IfOk result (λ same. same ≡ is_same_location location.now (location_of version path.now)) }
{
    let expected = location_of(alloc, version, path)?;
    Ok(is_same_location(location, &expected))
}
