//! What has a name.

ghost use Rattle.std.specs.Prelude.{◌≡◌, ℕ, List};

use dsde_lists::Seq;

/// What has a name.
pub trait Named {
    ghost name: { Self → List ℕ };

    /// Its name.
    fn name(&self) -> &[u8]
        ensures { result.now ≡ name self.now };
}

impl Named for Seq<u8> {
    ghost name = { λ text. text };

    fn name(&self) -> &[u8] {
        self.as_slice()
    }
}
