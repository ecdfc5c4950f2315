//! Lines that are drawn.

use rand_core::utils::NextWord;
use rand_pcg::Lcg64Xsh32;

/// One of the words between bars; the whole, where there are none.
fn one<'w>(dice: &mut Lcg64Xsh32, words: &'w str) -> &'w str {
    let drawn = dice.next_word() as usize;
    let index = drawn.checked_rem(words.split('|').count()).unwrap_or(0);
    words.split('|').nth(index).unwrap_or("")
}

/// Appends the lines of a pattern, with one of the words for each `/a|b|c/`; whether there was memory for them.
pub(crate) fn draw(dice: &mut Lcg64Xsh32, pattern: &str, lines: &mut String) -> bool {
    let mut held = true;
    for part in pattern.split('/') {
        held &= lines.push_str(one(dice, part)).is_ok();
    }
    held
}
