//! Items drawn one after another.

ghost use Rattle.std.specs.Prelude.{◌≡◌, ◌≢◌, Bool, None, [], length, IfOk, OnOk};
ghost use Rattle.std.specs.Option.{option_copied};
ghost use Rattle.rand_pcg.specs.Pcg.{pcg32};
ghost use Rattle.dsde_drawing.specs.Drawing.{Draws, IsOrderly, clear, drawn, is_clear};
ghost use Rattle.dsde_drawing.specs.Words.{behind, next_words};

use dsde_lists::{Memory, Seq};
use rand_core::utils::NextWord;
use rand_pcg::Lcg64Xsh32;
use std::alloc::Global;

/// What may have to wait for others of its kind.
pub trait Waits {
    /// The first waits for the second.
    ghost waits: { Self → Self → Bool };

    /// Whether it waits for the other.
    fn waits_for(&self, other: &Self) -> bool
        ensures { result ≡ waits self.now other.now };
}

/// Items in the order that the words of a generator draw: each word draws one of those that are
/// left and wait for none of them, counted in the order of the items, by its rest at their count. None of
/// the items waits for a later one, and one that waits for another waits for all between.
///
/// The generator gives one word for each item; where memory runs out, it has given some of them.
pub fn draw<T: Waits + Drop>(
    alloc: Global,
    items: Vec<T>,
    words: &mut Lcg64Xsh32,
) -> Result<Seq<T>, Memory>
    requires { IsOrderly T.waits items.items }
    ensures order { IfOk result (λ order. order ≡ drawn T.waits (length items.items) items.items (next_words (length items.items) words.old)) }
    ensures words { OnOk result (words.new ≡ behind (length items.items) words.old) }
{
    let count = items.as_slice().len();
    let mut left = items;
    let mut order = Seq::new(alloc);
    let mut places = Seq::new(alloc);
    for _turn in 0..count {
        let item = draw_one(&mut left, words, &mut places)?;
        order.push(item)?;
    }
    Ok(order)
}

/// Draws one of the items that are left, and takes it out.
fn draw_one<T: Waits + Drop>(
    left: &mut Vec<T>,
    words: &mut Lcg64Xsh32,
    places: &mut Seq<usize>,
) -> Result<T, Memory>
    requires orderly { IsOrderly T.waits left.old.items }
    requires some { left.old.items ≢ [] }
    ensures item { IfOk result (λ item. Draws T.waits left.old.items (pcg32 words.old).0 item left.new.items) }
    ensures words { OnOk result (words.new ≡ (pcg32 words.old).1) }
{
    find_clear(left.as_slice(), places)?;
    let word = words.next_word() as usize;
    let number = word % places.len();
    let place = places.as_slice()[number];
    Ok(left.remove(place))
}

/// The places of those that do not wait for the one before them.
fn find_clear<T: Waits>(left: &[T], places: &mut Seq<usize>) -> Result<(), Memory>
    ensures { OnOk result (places.new ≡ clear T.waits None 0 left.now) }
{
    places.truncate(0);
    let mut before = None;
    for (place, own) in left.iter().enumerate() {
        if is_clear(own, before) {
            places.push(place)?;
        }
        before = Some(own);
    }
    Ok(())
}

/// Whether it does not wait for the one before it.
fn is_clear<T: Waits>(own: &T, before: Option<&T>) -> bool
    ensures { result ≡ is_clear T.waits (option_copied before.entry) own.now }
{
    match before {
        Some(before) => !own.waits_for(before),
        None => true,
    }
}
