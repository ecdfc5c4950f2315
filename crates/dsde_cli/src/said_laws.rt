//! What the texts of images say. The law is a call that does nothing.

ghost use Rattle.dsde_cli.specs.Said.{ImagesAreSaid};

/// A law: the text of an image of version 2, written without blanks, is UTF-8, and the JSON value that is read of it
/// is that image.
pub fn images_are_said()
    ensures { ImagesAreSaid }
{}
