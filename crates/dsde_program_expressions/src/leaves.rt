//! Expressions that have no parts, and links of chains that have none.

ghost use Rattle.std.specs.Prelude.{◌≡◌, ◌-◌, ◌<◌, ◌∷◌, [], ◌++◌, pos, length, slice_set, IfOk, OnOk};
ghost use Rattle.dsde_values.specs.declared.types.Ty.TheVariants as own;
ghost use Rattle.dsde_language.specs.RuleTables.{by_text};
ghost use Rattle.dsde_language.specs.declared.node.Node.TheVariants as made;
ghost use Rattle.dsde_language.specs.Expressions.{expr_id};
ghost use Rattle.dsde_language.specs.Names.{slot_of, type_number, variant_number, elapsed_name};
ghost use Rattle.dsde_language.specs.Typing.{slot_type, field_number, field_type};

use crate::resolver::{Laid, Resolver};
use crate::table::{leaf, put};
use dsde_language::given::names::Names;
use dsde_language::{ExprId, Node};
use dsde_program_slots::given::check_tables::{Member, list_type, option_type};
use dsde_program_slots::{
    field_number, field_type, slot_of, slot_type, type_number, variant_number,
};
use dsde_syntax::given::lists::Memory;
use dsde_syntax::{Id, TypeName};
use dsde_values::{Seq, Ty};

/// A number of a text, which is at most 2^63 - 1.
fn whole(number: u64) -> Result<i64, Memory>
    ensures { IfOk result (λ whole. whole ≡ pos number) }
{
    match i64::try_from(number) {
        Ok(whole) => Ok(whole),
        Err(_) => Err(Memory),
    }
}

/// Lays a number.
pub(crate) fn number(value: u64, nodes: &mut Seq<Node>) -> Result<Laid, Memory>
    ensures number { IfOk result (λ laid. laid.number ≡ expr_id (length nodes.old)) }
    ensures ty { IfOk result (λ laid. laid.ty ≡ own.Int) }
    ensures nodes { OnOk result (nodes.new ≡ nodes.old ++ made.Int (pos value) ∷ []) }
{
    let value = whole(value)?;
    leaf(nodes, Ty::Int, Node::Int(value))
}

/// Lays `elapsed`.
pub(crate) fn elapsed(scope: &Names<Member<'_>>, nodes: &mut Seq<Node>) -> Result<Laid, Memory>
    ensures number { IfOk result (λ laid. laid.number ≡ expr_id (length nodes.old)) }
    ensures ty { IfOk result (λ laid. laid.ty ≡ own.Int) }
    ensures nodes { OnOk result (nodes.new ≡ nodes.old ++ made.Slot (slot_of scope.now elapsed_name) ∷ []) }
{
    let slot = slot_of(scope, b"elapsed")?;
    leaf(nodes, Ty::Int, Node::Slot(slot))
}

impl<'m> Resolver<'m> {
    /// Lays a name.
    pub(crate) fn name(
        &self,
        id: &Id,
        scope: &Names<Member<'m>>,
        nodes: &mut Seq<Node>,
    ) -> Result<Laid, Memory>
        ensures number { IfOk result (λ laid. laid.number ≡ expr_id (length nodes.old)) }
        ensures ty { IfOk result (λ laid. laid.ty ≡ slot_type scope.now id.now.name) }
        ensures nodes { OnOk result (nodes.new ≡ nodes.old ++ made.Slot (slot_of scope.now id.now.name) ∷ []) }
    {
        let slot = slot_of(scope, id.name.as_slice())?;
        let ty = slot_type(self.alloc(), scope, id.name.as_slice())?;
        leaf(nodes, ty, Node::Slot(slot))
    }

    /// Lays a variant of an enum.
    pub(crate) fn variant(
        &self,
        owner: &Id,
        variant: &Id,
        nodes: &mut Seq<Node>,
    ) -> Result<Laid, Memory>
        ensures number { IfOk result (λ laid. laid.number ≡ expr_id (length nodes.old)) }
        ensures ty { IfOk result (λ laid. laid.ty ≡ own.Enum (type_number self.now owner.now.name)) }
        ensures nodes { OnOk result (nodes.new ≡ nodes.old ++ made.Variant (type_number self.now owner.now.name) (variant_number self.now owner.now.name variant.now.name) ∷ []) }
    {
        let owner_number = type_number(self.known(), owner.name.as_slice())?;
        let number = variant_number(self.known(), owner.name.as_slice(), variant.name.as_slice())?;
        leaf(
            nodes,
            Ty::Enum(owner_number),
            Node::Variant(owner_number, number),
        )
    }

    /// Lays `none<ty>`.
    pub(crate) fn none(&self, ty: &TypeName, nodes: &mut Seq<Node>) -> Result<Laid, Memory>
        ensures number { IfOk result (λ laid. laid.number ≡ expr_id (length nodes.old)) }
        ensures ty { IfOk result (λ laid. laid.ty ≡ own.Opt (by_text self.now.words ty.now)) }
        ensures nodes { OnOk result (nodes.new ≡ nodes.old ++ made.Nothing ∷ []) }
    {
        let inner = self.known().by_text(self.alloc(), ty)?;
        let ty = option_type(self.alloc(), inner)?;
        leaf(nodes, ty, Node::Nothing)
    }

    /// Lays `empty<ty>`.
    pub(crate) fn empty(&self, ty: &TypeName, nodes: &mut Seq<Node>) -> Result<Laid, Memory>
        ensures number { IfOk result (λ laid. laid.number ≡ expr_id (length nodes.old)) }
        ensures ty { IfOk result (λ laid. laid.ty ≡ own.List (by_text self.now.words ty.now)) }
        ensures nodes { OnOk result (nodes.new ≡ nodes.old ++ made.Empty ∷ []) }
    {
        let inner = self.known().by_text(self.alloc(), ty)?;
        let ty = list_type(self.alloc(), inner)?;
        leaf(nodes, ty, Node::Empty)
    }

    /// Puts a field's node in front of its record.
    pub(crate) fn field(&self, name: &Id, left: Laid, nodes: &mut Seq<Node>) -> Result<Laid, Memory>
        requires above { 0 < left.number.0 }
        ensures number { IfOk result (λ laid. laid.number ≡ expr_id (left.number.0 - 1)) }
        ensures ty { IfOk result (λ laid. laid.ty ≡ field_type self.now left.ty name.now.name) }
        ensures nodes { OnOk result (nodes.new ≡ slice_set nodes.old (left.number.0 - 1) (made.Field (field_number self.now left.ty name.now.name) (expr_id left.number.0))) }
    {
        let number = field_number(self.known(), &left.ty, name.name.as_slice())?;
        let ty = field_type(self.alloc(), self.known(), &left.ty, name.name.as_slice())?;
        let own = left.number.0;
        Ok(put(nodes, ty, own - 1, Node::Field(number, ExprId(own))))
    }
}
