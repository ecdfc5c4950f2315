//! Why no tree is restored.

ghost use Rattle.std.specs.Prelude.{◌≡◌};
ghost use Rattle.dsde_image.specs.Image.{IsLocation};
ghost use Rattle.dsde_image_rows.specs.Walk.{left_over};
ghost use Rattle.dsde_image_rows.specs.Walks.{Misses, IsLeftOver};

use crate::given::sim_telling::copy_path;
use dsde_image::{Location, Version};
use dsde_values::{Memory, Path, ReadPath, read_path};
use std::alloc::Global;

/// Why no tree was restored.
#[derive(Drop)]
pub enum RestoreEnd {
    /// The first path, in the order of the rows, at which they do not fit the program.
    DoesNotFit(Path),
    Memory,
}

impl From<Memory> for RestoreEnd {
    ghost use Rattle.dsde_image_rows.specs.declared.ends.RestoreEnd.TheVariants as restore_end;

    ghost from_gives = { λ _ why. why ≡ restore_end.Memory };

    fn from(_: Memory) -> RestoreEnd {
        RestoreEnd::Memory
    }
}

/// The rows do not fit at this path.
pub(crate) fn misfit(alloc: Global, path: &Path) -> RestoreEnd
    ensures { Misses path.now result }
{
    match copy_path(alloc, path) {
        Ok(path) => RestoreEnd::DoesNotFit(path),
        Err(Memory) => RestoreEnd::Memory,
    }
}

/// A row with this location is left over.
pub(crate) fn left_over(alloc: Global, version: Version, location: &Location) -> RestoreEnd
    requires { IsLocation version location.now }
    ensures { IsLeftOver (left_over location.now) result }
{
    match location {
        Location::Path(text) => match read_path(alloc, text.as_slice()) {
            Ok(path) => RestoreEnd::DoesNotFit(path),
            Err(ReadPath::Memory) => RestoreEnd::Memory,
            Err(ReadPath::NotAPath) => unreachable!(),
        },
        Location::Last { .. } => match Path::root(alloc) {
            Ok(root) => RestoreEnd::DoesNotFit(root),
            Err(Memory) => RestoreEnd::Memory,
        },
    }
}
