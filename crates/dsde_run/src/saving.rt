//! The text of the image of an engine.

ghost use Rattle.std.specs.Prelude.{◌≡◌, ◌≤◌, ◌^◌, is_some, true, IfOk, IfSome};
ghost use Rattle.serde_json.specs.Written.{compact_text};
ghost use Rattle.dsde_image.specs.declared.image.Version.TheVariants as version;
ghost use Rattle.dsde_image.specs.Json.{image_data};
ghost use Rattle.dsde_image.specs.Text.{IsReading};
ghost use Rattle.dsde_run.specs.Saved.{Says, image_of};

use dsde_core::Core;
use dsde_image::{Image, Version, write_image};
use dsde_image_rows::{images_are_written, list, rows_are_right};
use dsde_values::{Memory, Path, Seq, Text};
use std::alloc::Global;

/// The text of the image, of version 2, of an engine between two turns, without blanks; its tree is copied once.
/// Where at most 2^62 turns are done, it says this image, and `restore` gives an engine with the same tree, turn,
/// time and records again, whose parts have new births. `Memory` where there is none; the engine stays as it is.
pub fn save(alloc: Global, engine: &Core) -> Result<Text, Memory>
    requires { is_some engine.now.engine.tree ≡ true }
    ensures text { IfOk result (λ text. IfSome engine.now.engine.tree (λ tree. text ≡ compact_text (image_data (image_of engine.now.program version.Two engine.now.engine tree)))) }
    ensures says { engine.now.engine.turn ≤ 2 ^ 62 → IfOk result (λ text. IfSome engine.now.engine.tree (λ tree. Says text (image_of engine.now.program version.Two engine.now.engine tree))) }
    ensures read { IfOk result (λ text. IfSome engine.now.engine.tree (λ tree. IsReading text (image_data (image_of engine.now.program version.Two engine.now.engine tree)))) }
{
    images_are_written();
    rows_are_right();
    engine.stands();
    let program = engine.program();
    program.right();
    let tree = engine.tree_of()?;
    let root = Path::root(alloc)?;
    let mut parts = Seq::new(alloc);
    list(alloc, program, Version::Two, &tree, &root, &mut parts)?;
    let image = Image {
        version: Version::Two,
        turn: engine.turn(),
        time: engine.time(),
        records: engine.taken(),
        parts,
    };
    write_image(alloc, &image)
}
