//! Room for the nodes of chains, each of which stands in front of what is to its left.

ghost use Rattle.std.specs.Prelude.{◌≡◌, ◌+◌, length, map, OnOk};
ghost use Rattle.dsde_program_layout.specs.Lay.{lay_suffix, lay_sign_tail, lay_tail, words_of, rooms};

use crate::resolver::Resolver;
use crate::table::rooms;
use dsde_language::{Binary, Node};
use dsde_syntax::given::lists::Memory;
use dsde_syntax::{SignTail, Suffix, Tail};
use dsde_values::Seq;

impl<'m> Resolver<'m> {
    /// Keeps room for the nodes of what `or` or `and` joins.
    #[tactic(auto, using(crate::proofs::Rooms::rooms_rules))]
    pub(crate) fn word_rooms(
        &self,
        _which: Binary,
        links: &[Tail],
        nodes: &mut Seq<Node>,
    ) -> Result<(), Memory>
        ensures nodes { OnOk result (nodes.new ≡ rooms (length (words_of _which (map (lay_tail self.now) links.now))) nodes.old) }
        ensures grows { OnOk result (length nodes.new ≡ length nodes.old + length links.now) }
    {
        rooms(nodes, links.len())
    }

    /// Keeps room for the nodes of what signs join.
    #[tactic(auto, using(crate::proofs::Rooms::rooms_rules))]
    pub(crate) fn sign_rooms(&self, links: &[SignTail], nodes: &mut Seq<Node>) -> Result<(), Memory>
        ensures nodes { OnOk result (nodes.new ≡ rooms (length (map (lay_sign_tail self.now) links.now)) nodes.old) }
        ensures grows { OnOk result (length nodes.new ≡ length nodes.old + length links.now) }
    {
        rooms(nodes, links.len())
    }

    /// Keeps room for the nodes of suffixes.
    #[tactic(auto, using(crate::proofs::Rooms::rooms_rules))]
    pub(crate) fn suffix_rooms(&self, links: &[Suffix], nodes: &mut Seq<Node>) -> Result<(), Memory>
        ensures nodes { OnOk result (nodes.new ≡ rooms (length (map (lay_suffix self.now) links.now)) nodes.old) }
        ensures grows { OnOk result (length nodes.new ≡ length nodes.old + length links.now) }
    {
        rooms(nodes, links.len())
    }
}
