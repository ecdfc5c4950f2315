//! The large model, whose runs show how the cost of a turn grows with the size of a model.
#![tactic(auto)]

ghost use Rattle.std.specs.Prelude.{◌≡◌, IfOk};
ghost use Rattle.dsde_run_big.specs.Model.{AreShort, big_text, declarations, workers, period};

use dsde_lists::{Memory, Text, append_decimal};
use std::alloc::Global;

/// The text of the large model of a seed. It starts with some thousand workers, of which one moves
/// at each time, and has a pair of components that is replaced again and again.
pub fn big_model(alloc: Global, seed: u32) -> Result<Text, Memory>
    ensures { IfOk result (λ text. text ≡ big_text seed) }
{
    let mut text = Text::from_slice(alloc, declarations())?;
    text.extend_from_slice(b"top Big(")?;
    append_decimal(workers(seed), &mut text)?;
    text.extend_from_slice(b", ")?;
    append_decimal(period(seed), &mut text)?;
    text.extend_from_slice(b");\n")?;
    Ok(text)
}

/// A law: the text of each seed's model has at most 4,096 bytes.
pub fn large_models_are_short()
    ensures { AreShort }
{}

/// How many workers the model of a seed has.
fn workers(seed: u32) -> u64
    ensures { result ≡ workers seed }
{
    1000 * (1 + u64::from(seed % 60))
}

/// After how long its pair is replaced, again and again.
fn period(seed: u32) -> u64
    ensures { result ≡ period seed }
{
    2 + u64::from(seed % 8)
}

/// What the models of all seeds declare.
#[tactic(auto, unfolding(crate::specs::Model::declarations))]
fn declarations() -> &'static [u8]
    ensures { result.now ≡ declarations }
{
    b"atomic W(i: int, c: int) {
  out o: int;
  state k: int = 0;
  advance some(if k == 0 { i + 1 } else { c });
  output { send o(i); }
  internal { k = k + 1; }
}
atomic Late(n: int) {
  out o: int;
  advance some(1000000);
  output { send o(n); }
}
network Pair(n: int) {
  out o: int;
  exec {
    advance none<int>;
    structure { comp a is Late(n); comp b is Late(n); link b.o -> net.o; }
  }
}
network Churn(p: int) {
  out o: int;
  exec {
    state n: int = 0;
    advance some(p);
    internal { n = n + 1; }
    structure { comp sub is Pair(n); link sub.o -> net.o; }
  }
}
network Farm(c: int) {
  out o: int;
  exec {
    advance none<int>;
    structure { for i in range(0, c) { comp w[i] is W(i, c); link w[i].o -> net.o; } }
  }
}
network Big(c: int, p: int) {
  out o: int;
  exec {
    advance none<int>;
    structure {
      comp churn is Churn(p);
      comp farm is Farm(c);
      link churn.o -> net.o;
      link farm.o -> net.o;
    }
  }
}
"
}
