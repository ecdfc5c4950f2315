//! The commands that words spell.

ghost use Rattle.std.specs.Prelude.{◌≡◌, map, string_bytes, IfSome};
ghost use Rattle.std.specs.Option.{option_map};
ghost use Rattle.dsde_cli_command.specs.Commands.{IsBounded, task_of, command_of};

use crate::given::read_words;

/// What the words ask for.
#[derive(Clone, Copy)]
pub enum Command<'w> {
    /// `check MODEL [--print]`
    Check {
        model: &'w str,
        print: bool,
    },
    /// `run MODEL --turns N [--only outputs|structure] [--save FILE]`
    Run(RunWords<'w>),
    /// `resume MODEL FILE --turns N [--only outputs|structure] [--save FILE]`: `file` is the name of
    /// the image that is taken up.
    Resume {
        file: &'w str,
        run: RunWords<'w>,
    },
    /// `big SEED --turns N`
    Big {
        seed: u32,
        turns: u64,
    },
    /// `free MODEL --turns N --order SEED`
    Free {
        model: &'w str,
        turns: u64,
        seed: u32,
    },
}

/// What a run is asked to be: the name of its model, the most turns, which lines of its trace are
/// kept, where not all are, and the name under which its image is stored, where it is.
#[derive(Clone, Copy)]
pub struct RunWords<'w> {
    pub model: &'w str,
    pub turns: u64,
    pub only: Option<Only>,
    pub save: Option<&'w str>,
}

/// Which lines of a trace are kept, where not all are.
#[derive(Clone, Copy)]
pub enum Only {
    Outputs,
    Structure,
}

/// The command that the words spell; `None` exactly where they spell none.
///
/// The first word names the command. The words after it are read from left to right: `--turns`,
/// `--only`, `--save` and `--order` take the next word as their value, whatever it is, `--print` takes
/// none, and each of the five stands at most once; any other word that begins with `--` spells no command; and
/// the words that are left are the positional ones, in order. The value of `--turns` is 1 to 10 decimal
/// digits that spell at most a billion, that of `--only` is `outputs` or `structure`, that of
/// `--save` any name, and that of `--order` a seed: a number of 1 to 10 digits and at most 32 bits.
/// `check`, `run`, `big` and `free` have one positional word: the model's name, which may be empty, or
/// for `big` a seed; `resume` has two, the names of the model and of the image. `run` and `resume` want
/// `--turns` and have no `--print` and no `--order`, `check` has `--print` alone, `big` wants `--turns`
/// and has nothing else, and `free` wants `--turns` and `--order` and has nothing else.
pub fn read_command(words: &[String]) -> Option<Command<'_>>
    ensures spelled { option_map task_of result ≡ command_of (map string_bytes words.now) }
    ensures bounded { IfSome result IsBounded }
{
    let (first, words) = words.split_first()?;
    let given = read_words(words)?;
    let command = first.as_str();
    if command == "check" {
        given.check()
    } else if command == "run" {
        given.run()
    } else if command == "resume" {
        given.resume()
    } else if command == "big" {
        given.big()
    } else if command == "free" {
        given.free()
    } else {
        None
    }
}
