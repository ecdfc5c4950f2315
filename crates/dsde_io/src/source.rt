//! What a source does and tells.

ghost use Rattle.std.specs.Prelude.{◌≡◌, ◌<◌, ◌≤◌, ℕ, List, [], Option, length, take, IfOk, OnErr, IfSome};
ghost use Rattle.dsde_io.specs.Fault.{Rose};
ghost use Rattle.dsde_io.specs.Bytes.{Keeps, Takes};

/// A read failed.
#[derive(Clone, Copy)]
pub struct Failed;

/// Where a run's input comes from.
pub trait Source {
    /// The bytes that are left, where the source tells them.
    ghost left: { Self → Option (List ℕ) };

    /// How many faults there were, up to 2^64 - 1.
    ghost faults: { Self → ℕ };

    /// Reads the next bytes into the front of `piece`, and answers how many there are.
    /// 0 is the end of the input. `Failed` takes nothing.
    fn read(&mut self, piece: &mut [u8]) -> Result<usize, Failed>
        requires { 0 < length piece.old }
        ensures within { IfOk result (λ count. count ≤ length piece.old) }
        ensures taken { IfOk result (λ count. Takes (left self.old) (left self.new) (take count piece.new)) }
        ensures end { IfOk result (λ count. count ≡ 0 → IfSome (left self.old) (λ bytes. bytes ≡ [])) }
        ensures kept { OnErr result (Keeps (left self.old) (left self.new)) }
        ensures cause { OnErr result (Rose (faults self.old) (faults self.new)) }
        ensures counted { faults self.old ≤ faults self.new };
}
