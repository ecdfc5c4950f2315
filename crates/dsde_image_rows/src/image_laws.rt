//! The images of the trees of a program. Each law is a call that does nothing.

ghost use Rattle.dsde_image_rows.specs.Plain.{ImagesAreRestored, ImagesAreWritten, RowsAreRight};

use crate::fit_laws::images_fit;
use crate::text_laws::{
    components_are_called, names_are_allowed, scripts_are_exact, texts_are_ascii,
};

/// The texts of the image of a tree of a program are UTF-8.
pub fn images_are_written()
    ensures { ImagesAreWritten }
{
    texts_are_ascii();
    components_are_called();
}

/// The rows of a tree of a program are rows of an image of either version: each has a path that a model
/// can have, and times of a run.
pub fn rows_are_right()
    ensures { RowsAreRight }
{
    components_are_called();
    names_are_allowed();
}

/// The rows of a tree of a program that stands are restored to it, of either version.
pub fn images_are_restored()
    ensures { ImagesAreRestored }
{
    scripts_are_exact();
    images_fit();
}
