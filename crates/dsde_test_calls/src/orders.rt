//! Orders that are drawn.

ghost use Rattle.std.specs.Prelude.{Bool, false};

use crate::calls::Answer;
use dsde_drawing::{Waits, draw};
use dsde_values::{Memory, Seq};
use rand_core::SeedableRng;
use rand_pcg::Lcg64Xsh32;
use std::alloc::Global;

/// A digit that waits for none.
#[derive(Clone, Copy, Debug, PartialEq, Eq, Drop)]
struct Digit(u8);

impl Waits for Digit {
    ghost waits = { λ _ _. false };

    fn waits_for(&self, _other: &Digit) -> bool {
        false
    }
}

/// The digits 1 to 5 in the order that the words of a seed draw.
pub(crate) fn order_of(alloc: Global, word: &str) -> Result<Answer, Memory> {
    let order = drawn(alloc, word.parse::<u64>().unwrap_or(0))?;
    Ok(Answer::Number(joined(order.as_slice())))
}

fn drawn(alloc: Global, seed: u64) -> Result<Seq<Digit>, Memory> {
    let mut digits = Vec::new(alloc);
    for digit in 1..6 {
        digits.push(Digit(digit))?;
    }
    let mut words = Lcg64Xsh32::seed_from_u64(seed);
    draw(alloc, digits, &mut words)
}

/// The number of these digits.
fn joined(digits: &[Digit]) -> u64 {
    let mut number = 0u64;
    for digit in digits {
        number = number.saturating_mul(10).saturating_add(digit.0 as u64);
    }
    number
}
