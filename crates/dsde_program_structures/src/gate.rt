//! The ports of one network, executive or component.

ghost use Rattle.std.specs.Prelude.{◌≡◌, if◌then◌else◌};

use dsde_language::given::names::Names;
use dsde_program_expressions::given::check_tables::Member;

/// In ports and out ports, each at its number among those of its direction.
#[derive(Drop)]
pub(crate) struct Gate<'m> {
    pub(crate) ins: Names<Member<'m>>,
    pub(crate) outs: Names<Member<'m>>,
}

impl<'m> Gate<'m> {
    /// The ports of one direction.
    pub(crate) fn side(&self, out: bool) -> &Names<Member<'m>>
        ensures { result.now ≡ (if out then self.now.outs else self.now.ins) }
    {
        if out { &self.outs } else { &self.ins }
    }
}
