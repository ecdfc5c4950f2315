//! Images of trees, and the trees that are restored of rows. Each law is a call that does nothing.

ghost use Rattle.dsde_image_rows.specs.Fits.{ImagesFit, LeftAreLast, OnlyImagesFit};

/// The rows of a tree that stands are restored to it, of either version, where its values are read
/// again from their texts.
pub fn images_fit()
    ensures { ImagesFit }
{}

/// What is restored of rows stands, and the rows are its image.
pub fn only_images_fit()
    ensures { OnlyImagesFit }
{}

/// What is left behind a part that is restored are the last of the rows.
pub fn left_are_last()
    ensures { LeftAreLast }
{}
