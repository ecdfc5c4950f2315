//! What two commands come to, one after the other. The law is a call that does nothing.

ghost use Rattle.dsde_cli.specs.CliCut.{CutLaw};

use crate::stored_runs_are_taken_up;

/// A law: `run MODEL --turns N --save FILE` and behind it `resume MODEL FILE --turns M` on the same input, with the
/// same selection of lines, write together what `run MODEL --turns K` writes, for K = N + M, up to the last line of
/// the first: for every accepted model and every input, where the first run ended by its bound, or quietly and M is
/// at least 1. The image that is stored is restored to the engine of that run, and the second ends as the whole does.
pub fn cut_law()
    ensures { CutLaw }
{
    stored_runs_are_taken_up();
}
