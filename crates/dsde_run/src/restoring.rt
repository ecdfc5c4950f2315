//! Engines, restored from the bytes of an image.

ghost use Rattle.std.specs.Prelude.{◌≡◌, ◌≢◌, ◌≤◌, IfOk, IfErr, IsErrOf};
ghost use Rattle.serde_json.specs.Data.{Data};
ghost use Rattle.dsde_image.specs.Image.{IsImage};
ghost use Rattle.dsde_image.specs.declared.image.Image.{Image};
ghost use Rattle.dsde_image.specs.Json.{image_data};
ghost use Rattle.dsde_image.specs.Text.{IsReading};
ghost use Rattle.dsde_run.specs.Saved.{at_work, Answers, GivesAgain, IsMisfit, IsMisfitOf, IsOf, IsRestored, Says};

use dsde_core::Core;
use dsde_image::{Image, ReadImage, read_image};
use dsde_image_rows::{RestoreEnd, images_are_restored, restored_tree};
use dsde_trace::given::program::Program;
use dsde_values::{Memory, Path};
use std::alloc::Global;

/// Why no engine was restored, in the order in which it is looked for.
#[derive(Drop)]
pub enum RestoreError {
    /// The bytes say no JSON value that nests at most 127 deep.
    NotJson,
    /// They say another one than an image.
    WrongForm,
    /// They say an image of no engine of the program: the first path, in the order of the rows, at
    /// which these do not fit; where a row is left over, its path in version 1, and that of the root
    /// in version 2.
    DoesNotFit(Path),
    Memory,
}

impl From<Memory> for RestoreError {
    ghost use Rattle.dsde_run.specs.declared.restoring.RestoreError.TheVariants as restore_error;

    ghost from_gives = { λ _ why. why ≡ restore_error.Memory };

    fn from(_: Memory) -> RestoreError {
        RestoreError::Memory
    }
}

impl From<RestoreEnd> for RestoreError {
    ghost use Rattle.dsde_run.specs.Saved.{told_as};

    ghost from_gives = { λ end why. why ≡ told_as end };

    fn from(end: RestoreEnd) -> RestoreError {
        match end {
            RestoreEnd::DoesNotFit(path) => RestoreError::DoesNotFit(path),
            RestoreEnd::Memory => RestoreError::Memory,
        }
    }
}

/// The engine of a program that an image says.
fn with_image<'p>(
    alloc: Global,
    program: &'p Program<'p>,
    image: &Image,
) -> Result<Core<'p>, RestoreError>
    requires { IsImage image.now }
    ensures ok { IfOk result (λ core. IsOf program.now image.now (at_work core)) }
    ensures born { IfOk result (λ core. core.born ≤ 131_072) }
    ensures err { IfErr result (IsMisfitOf program.now image.now) }
{
    let tree = restored_tree(
        alloc,
        program,
        image.version,
        image.time,
        image.parts.as_slice(),
    )?;
    let engine = Core::from_tree(alloc, program, tree, image.turn, image.time, image.records)?;
    Ok(engine)
}

/// The engine that bytes say, with each cause of another answer.
fn answered<'p>(
    alloc: Global,
    program: &'p Program<'p>,
    bytes: &[u8],
) -> Result<Core<'p>, RestoreError>
    ensures restored { IfOk result (λ core. IsRestored program.now bytes.now (at_work core)) }
    ensures not_json { IsErrOf result RestoreError.NotJson → (seen : Data) → ¬ IsReading bytes.now seen }
    ensures wrong_form { IsErrOf result RestoreError.WrongForm → (seen : Data) × IsReading bytes.now seen × ((image : Image) → IsImage image → seen ≢ image_data image) }
    ensures misfit { IfErr result (IsMisfit program.now bytes.now) }
    ensures exact { (image : Image) → Says bytes.now image → Answers program.now image result }
    ensures born { IfOk result (λ core. core.born ≤ 131_072) }
{
    match read_image(alloc, bytes) {
        Ok(image) => with_image(alloc, program, &image),
        Err(ReadImage::NotJson) => Err(RestoreError::NotJson),
        Err(ReadImage::WrongForm) => Err(RestoreError::WrongForm),
        Err(ReadImage::Memory) => Err(RestoreError::Memory),
    }
}

/// The engine of a program that the bytes of an image of either version say: of its tree, turn, time
/// and records taken, and ready for its next turn.
///
/// `NotJson` comes exactly where the bytes say no JSON value that nests at most 127 deep, `WrongForm`
/// exactly where they say one that is no image's, and `DoesNotFit` exactly where its rows are those of
/// no tree of the program that stands at its time. So the image of an engine gives an equal one. Its
/// parts take new births: no more than may be alive.
pub fn restore<'p>(
    alloc: Global,
    program: &'p Program<'p>,
    bytes: &[u8],
) -> Result<Core<'p>, RestoreError>
    ensures restored { IfOk result (λ core. IsRestored program.now bytes.now (at_work core)) }
    ensures not_json { IsErrOf result RestoreError.NotJson → (seen : Data) → ¬ IsReading bytes.now seen }
    ensures wrong_form { IsErrOf result RestoreError.WrongForm → (seen : Data) × IsReading bytes.now seen × ((image : Image) → IsImage image → seen ≢ image_data image) }
    ensures misfit { IfErr result (IsMisfit program.now bytes.now) }
    ensures exact { (image : Image) → Says bytes.now image → Answers program.now image result }
    ensures born { IfOk result (λ core. core.born ≤ 131_072) }
    ensures again { GivesAgain program.now bytes.now result }
{
    images_are_restored();
    program.right();
    answered(alloc, program, bytes)
}
