//! Whole numbers of 64 signed bits.

ghost use Rattle.std.specs.Prelude.{◌≡◌, ◌+ℤ◌, ◌-ℤ◌, ◌*ℤ◌, Ok, Err, IsTrue, MatchOption};
ghost use Rattle.dsde_faults.specs.declared.end.EvalEnd.TheVariants as eval_end;
ghost use Rattle.dsde_faults.specs.declared.kind.FaultKind.TheVariants as kind;
ghost use Rattle.dsde_language.specs.MeaningOperators.{operated, whole, divided, remaining, nearest};
ghost use Rattle.dsde_values.specs.declared.value.Value.TheVariants as value;
ghost use Rattle.dsde_eval_operators.specs.Reckoning.{reckons, Reckons};

use dsde_faults::{EvalEnd, FaultKind};
use dsde_language::Binary;

/// Whether an operator makes a whole number of two whole numbers.
pub fn reckons(which: Binary) -> bool
    ensures { result ≡ reckons which }
{
    matches!(
        which,
        Binary::Add
            | Binary::Sub
            | Binary::Mul
            | Binary::Div
            | Binary::Rem
            | Binary::CapAdd
            | Binary::CapSub
            | Binary::CapMul
    )
}

/// What such an operator makes of the numbers on its two sides. The faults, at the operator's place,
/// are `Overflow` and `DivideByZero`; memory never runs out.
pub fn reckoned(which: Binary, at: u32, left: i64, right: i64) -> Result<i64, EvalEnd>
    requires { IsTrue (reckons which) }
    ensures { Reckons (operated which at (value.Int left) (value.Int right)) result }
{
    match which {
        Binary::Add => sum(at, left, right),
        Binary::Sub => difference(at, left, right),
        Binary::Mul => product(at, left, right),
        Binary::Div => quotient(at, left, right),
        Binary::Rem => remainder(at, left, right),
        Binary::CapAdd => Ok(capped_sum(left, right)),
        Binary::CapSub => Ok(capped_difference(left, right)),
        Binary::CapMul => Ok(capped_product(left, right)),
        _ => unreachable!(),
    }
}

/// A number that was found; where none was, the fault that it would have too many bits.
fn fitting(at: u32, found: Option<i64>) -> Result<i64, EvalEnd>
    ensures { MatchOption found (result ≡ Err (eval_end.Fault kind.Overflow at)) (λ number. result ≡ Ok number) }
{
    match found {
        Some(number) => Ok(number),
        None => Err(EvalEnd::Fault(FaultKind::Overflow, at)),
    }
}

/// The sum; the fault `Overflow` where it does not have 64 signed bits.
pub(crate) fn sum(at: u32, left: i64, right: i64) -> Result<i64, EvalEnd>
    ensures { Reckons (whole at (left +ℤ right)) result }
{
    fitting(at, left.checked_add(right))
}

/// The difference; the fault `Overflow` where it does not have 64 signed bits.
pub(crate) fn difference(at: u32, left: i64, right: i64) -> Result<i64, EvalEnd>
    ensures { Reckons (whole at (left -ℤ right)) result }
{
    fitting(at, left.checked_sub(right))
}

/// The product; the fault `Overflow` where it does not have 64 signed bits.
pub(crate) fn product(at: u32, left: i64, right: i64) -> Result<i64, EvalEnd>
    ensures { Reckons (whole at (left *ℤ right)) result }
{
    fitting(at, left.checked_mul(right))
}

/// The quotient, cut towards 0; the fault `DivideByZero` where the divisor is 0, and `Overflow` where
/// the quotient does not have 64 signed bits.
pub(crate) fn quotient(at: u32, left: i64, right: i64) -> Result<i64, EvalEnd>
    ensures { Reckons (divided at left right) result }
{
    if right == 0 {
        return Err(EvalEnd::Fault(FaultKind::DivideByZero, at));
    }
    fitting(at, left.checked_div(right))
}

/// The remainder, with the sign of the dividend; the faults are those of the quotient.
pub(crate) fn remainder(at: u32, left: i64, right: i64) -> Result<i64, EvalEnd>
    ensures { Reckons (remaining at left right) result }
{
    if right == 0 {
        return Err(EvalEnd::Fault(FaultKind::DivideByZero, at));
    }
    fitting(at, left.checked_rem(right))
}

/// The sum, cut to the nearest end of 64 signed bits.
pub(crate) fn capped_sum(left: i64, right: i64) -> i64
    ensures { result ≡ nearest (left +ℤ right) }
{
    left.saturating_add(right)
}

/// The difference, cut to the nearest end of 64 signed bits.
pub(crate) fn capped_difference(left: i64, right: i64) -> i64
    ensures { result ≡ nearest (left -ℤ right) }
{
    left.saturating_sub(right)
}

/// The product, cut to the nearest end of 64 signed bits.
pub(crate) fn capped_product(left: i64, right: i64) -> i64
    ensures { result ≡ nearest (left *ℤ right) }
{
    left.saturating_mul(right)
}
