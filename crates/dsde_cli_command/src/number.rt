//! The numbers of a command: its turns, and a seed.

ghost use Rattle.std.specs.Prelude.{◌≡◌, ◌≤◌, IfSome};
ghost use Rattle.std.specs.Char.{is_ascii_digit};
ghost use Rattle.std.specs.List.{list_all};
ghost use Rattle.dsde_cli_command.specs.Commands.{is_number, seed_of, turns_of};

/// The most turns of one command.
const MOST_TURNS: u64 = 1_000_000_000;

/// The number that 1 to 10 decimal digits spell, if it is at most a billion.
pub(crate) fn read_turns(word: &str) -> Option<u64>
    ensures spelled { result ≡ turns_of word.now }
    ensures bounded { IfSome result (λ turns. turns ≤ 1_000_000_000) }
{
    if !is_number(word) {
        return None;
    }
    word.parse().ok().filter(|turns| *turns <= MOST_TURNS)
}

/// The number of at most 32 bits that 1 to 10 decimal digits spell.
pub(crate) fn read_seed(word: &str) -> Option<u32>
    ensures { result ≡ seed_of word.now }
{
    if !is_number(word) {
        return None;
    }
    match word.parse::<u64>() {
        Ok(seed) if seed <= u64::from(u32::MAX) => Some(seed as u32),
        _ => None,
    }
}

/// Whether a word is 1 to 10 decimal digits.
fn is_number(word: &str) -> bool
    ensures { result ≡ is_number word.now }
{
    !word.is_empty() && word.len() <= 10 && has_only_digits(word)
}

/// Whether each byte of a word is a decimal digit.
fn has_only_digits(word: &str) -> bool
    ensures { result ≡ list_all is_ascii_digit word.now }
{
    word.bytes().all(|byte| byte.is_ascii_digit())
}
