//! What the definitions themselves keep.

ghost use Rattle.std.specs.Prelude.{◌≡◌, ◌↔◌, List, ℕ};
ghost use Rattle.std.specs.Cmp.{IsTotalOrder};
ghost use Rattle.std.specs.declared.cmp.Ordering.TheVariants.{Equal};
ghost use Rattle.dsde_values.specs.declared.name.Name.{Name};
ghost use Rattle.dsde_values.specs.declared.types.Ty.{Ty};
ghost use Rattle.dsde_values.specs.declared.types.Types.{Types};
ghost use Rattle.dsde_values.specs.declared.value.Value.{Value};
ghost use Rattle.dsde_values.specs.Path.{name_cmp, path_cmp};
ghost use Rattle.dsde_values.specs.Value.{HasType, IsLawful, spelling};
ghost use Rattle.dsde_values.specs.Word.{Begins};

/// The order of names and the order of paths are total. A law: the call does nothing.
#[tactic(auto, using(crate::proofs::Orders::total_orders))]
pub fn orders_are_total()
    ensures names { IsTotalOrder name_cmp }
    ensures paths { IsTotalOrder path_cmp }
{}

/// The order of names answers `Equal` at the same name alone. A law: the call does nothing.
pub fn one_name()
    ensures { (name other : Name) → (name_cmp name other ≡ Equal) ↔ (name ≡ other) }
{}

/// In a lawful table at most one value of a type begins given bytes. A law: the call does nothing.
pub fn at_most_one_value_begins()
    ensures { (types : Types) → IsLawful types → (ty : Ty) (value other : Value) (bytes : List ℕ) → HasType types value ty → HasType types other ty → Begins (spelling types value) bytes → Begins (spelling types other) bytes → value ≡ other }
{}
