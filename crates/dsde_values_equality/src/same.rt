//! Equality of lists of values.

ghost use Rattle.std.specs.Prelude.{◌≡◌};
ghost use Rattle.dsde_values_equality.specs.Same.{are_same_values};

use dsde_values::{Value, are_equal};

/// Whether two lists of values are equal, as the test that definitions take.
pub fn are_same(values: &[Value], others: &[Value]) -> bool
    ensures { result ≡ are_same_values values.now others.now }
{
    are_equal(values, others)
}
