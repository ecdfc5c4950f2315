//! What the tests of equality keep.

ghost use Rattle.std.specs.Prelude.{◌≡◌, ◌↔◌, true, List};
ghost use Rattle.dsde_values.specs.declared.value.Value.{Value};
ghost use Rattle.dsde_values_equality.specs.Same.{is_same_value, are_same_values};

/// The test of equality is true exactly at equal values, and at equal lists of values. A law: the
/// call does nothing.
pub fn same_values_are_equal()
    ensures value { (value other : Value) → (is_same_value value other ≡ true) ↔ (value ≡ other) }
    ensures values { (values others : List Value) → (are_same_values values others ≡ true) ↔ (values ≡ others) }
{}
