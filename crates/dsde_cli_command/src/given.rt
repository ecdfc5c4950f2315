//! The words after the command, one by one.

ghost use Rattle.std.specs.Prelude.{◌≡◌, ◌≤◌, map, string_bytes, IfSome};
ghost use Rattle.std.specs.Option.{option_map};
ghost use Rattle.dsde_cli_command.specs.Commands.{
  IsBounded,
  Line,
  with_value,
  with_print,
  with_positional,
  valued_of,
  is_option,
  task_of,
  run_asked,
  only_of,
  check_of,
  run_on,
  run_of,
  resume_of,
  big_of,
  free_of,
};
ghost use Rattle.dsde_cli_command.specs.Given.{line_given, joined, given_after, read_of, read_with, read_words_of};

use crate::command::{Command, Only, RunWords};
use crate::number::{read_seed, read_turns};

/// The words after the command, as far as they have been read.
#[derive(Clone, Copy)]
pub(crate) struct Given<'w> {
    positional: Positional<'w>,
    turns: Option<&'w str>,
    only: Option<&'w str>,
    save: Option<&'w str>,
    order: Option<&'w str>,
    print: bool,
}

/// The positional words, in order. No command has more than two.
#[derive(Clone, Copy)]
enum Positional<'w> {
    Nothing,
    One(&'w str),
    Two(&'w str, &'w str),
}

/// The options that take the next word as their value.
#[derive(Clone, Copy)]
enum Valued {
    Turns,
    Only,
    Save,
    Order,
}

/// The option that a word is, of those that take the next word as their value.
fn valued_of(word: &str) -> Option<Valued>
    ensures { result ≡ valued_of word.now }
{
    match word {
        "--turns" => Some(Valued::Turns),
        "--only" => Some(Valued::Only),
        "--save" => Some(Valued::Save),
        "--order" => Some(Valued::Order),
        _ => None,
    }
}

impl<'w> Given<'w> {
    /// Takes the value of an option; `None` where one was given before.
    fn with_value(self, option: Valued, value: &'w str) -> Option<Given<'w>>
        ensures { (line : Line) → given_after result line
            ≡ read_of (joined self.entry (with_value option value.now line)) }
    {
        match option {
            Valued::Turns => match self.turns {
                Some(_) => None,
                None => Some(Given {
                    turns: Some(value),
                    ..self
                }),
            },
            Valued::Only => match self.only {
                Some(_) => None,
                None => Some(Given {
                    only: Some(value),
                    ..self
                }),
            },
            Valued::Save => match self.save {
                Some(_) => None,
                None => Some(Given {
                    save: Some(value),
                    ..self
                }),
            },
            Valued::Order => match self.order {
                Some(_) => None,
                None => Some(Given {
                    order: Some(value),
                    ..self
                }),
            },
        }
    }

    /// Takes a word without a value; `None` where it may not stand there.
    fn with_word(self, word: &'w str) -> Option<Given<'w>>
        ensures { (line : Line) → given_after result line
            ≡ read_with self.entry word.now line }
    {
        if word == "--print" {
            self.printing()
        } else if is_option(word) {
            None
        } else {
            self.place(word)
        }
    }

    /// Takes `--print`; `None` where it was given before.
    fn printing(self) -> Option<Given<'w>>
        ensures { (line : Line) → given_after result line
            ≡ read_of (joined self.entry (with_print line)) }
    {
        if self.print {
            return None;
        }
        Some(Given {
            print: true,
            ..self
        })
    }

    /// Takes a word that is no option; `None` where two such words were given before.
    fn place(self, word: &'w str) -> Option<Given<'w>>
        ensures { (line : Line) → given_after result line
            ≡ read_of (joined self.entry (with_positional word.now line)) }
    {
        match self.positional {
            Positional::Nothing => Some(Given {
                positional: Positional::One(word),
                ..self
            }),
            Positional::One(first) => Some(Given {
                positional: Positional::Two(first, word),
                ..self
            }),
            Positional::Two(..) => None,
        }
    }

    /// The check of a model, where it was named, and no option was given but `--print`.
    pub fn check(self) -> Option<Command<'w>>
        ensures spelled { option_map task_of result ≡ check_of (line_given self.entry) }
        ensures bounded { IfSome result IsBounded }
    {
        if self.turns.is_some()
            || self.only.is_some()
            || self.save.is_some()
            || self.order.is_some()
        {
            return None;
        }
        match self.positional {
            Positional::One(model) => Some(Command::Check {
                model,
                print: self.print,
            }),
            Positional::Nothing | Positional::Two(..) => None,
        }
    }

    /// What a run of the model of this name is asked to be, where its turns were given.
    fn run_on(self, model: &'w str) -> Option<RunWords<'w>>
        ensures spelled { option_map run_asked result ≡ run_on (line_given self.entry) model.now }
        ensures bounded { IfSome result (λ run. run.turns ≤ 1_000_000_000) }
    {
        Some(RunWords {
            model,
            turns: read_turns(self.turns?)?,
            only: match self.only {
                Some(word) => Some(read_only(word)?),
                None => None,
            },
            save: self.save,
        })
    }

    /// The run of a model, where it was named, its turns were given, no seed was, and nothing is to be
    /// printed.
    pub fn run(self) -> Option<Command<'w>>
        ensures spelled { option_map task_of result ≡ run_of (line_given self.entry) }
        ensures bounded { IfSome result IsBounded }
    {
        if self.print || self.order.is_some() {
            return None;
        }
        match self.positional {
            Positional::One(model) => Some(Command::Run(self.run_on(model)?)),
            Positional::Nothing | Positional::Two(..) => None,
        }
    }

    /// The run of a model that is taken up again, where the model and the image were named, its turns
    /// were given, no seed was, and nothing is to be printed.
    pub fn resume(self) -> Option<Command<'w>>
        ensures spelled { option_map task_of result ≡ resume_of (line_given self.entry) }
        ensures bounded { IfSome result IsBounded }
    {
        if self.print || self.order.is_some() {
            return None;
        }
        match self.positional {
            Positional::Two(model, file) => Some(Command::Resume {
                file,
                run: self.run_on(model)?,
            }),
            Positional::Nothing | Positional::One(_) => None,
        }
    }

    /// The run of the large model, where its seed and its turns were given, and nothing else.
    pub fn big(self) -> Option<Command<'w>>
        ensures spelled { option_map task_of result ≡ big_of (line_given self.entry) }
        ensures bounded { IfSome result IsBounded }
    {
        if self.print || self.only.is_some() || self.save.is_some() || self.order.is_some() {
            return None;
        }
        match self.positional {
            Positional::One(seed) => Some(Command::Big {
                seed: read_seed(seed)?,
                turns: read_turns(self.turns?)?,
            }),
            Positional::Nothing | Positional::Two(..) => None,
        }
    }

    /// The run of a model in an order of moves that is drawn, where it was named, its turns and a seed
    /// were given, and nothing else.
    pub fn free(self) -> Option<Command<'w>>
        ensures spelled { option_map task_of result ≡ free_of (line_given self.entry) }
        ensures bounded { IfSome result IsBounded }
    {
        if self.print || self.only.is_some() || self.save.is_some() {
            return None;
        }
        match self.positional {
            Positional::One(model) => Some(Command::Free {
                model,
                turns: read_turns(self.turns?)?,
                seed: read_seed(self.order?)?,
            }),
            Positional::Nothing | Positional::Two(..) => None,
        }
    }
}

/// The selection of lines that a word names.
fn read_only(word: &str) -> Option<Only>
    ensures { result ≡ only_of word.now }
{
    match word {
        "outputs" => Some(Only::Outputs),
        "structure" => Some(Only::Structure),
        _ => None,
    }
}

/// What the words after the command give; `None` where one of them may not stand there.
pub(crate) fn read_words(words: &[String]) -> Option<Given<'_>>
    ensures { option_map line_given result ≡ read_words_of (map string_bytes words.now) }
{
    let mut given = Given {
        positional: Positional::Nothing,
        turns: None,
        only: None,
        save: None,
        order: None,
        print: false,
    };
    let mut left = words;
    while let Some((word, rest)) = left.split_first() {
        left = rest;
        if let Some(option) = valued_of(word.as_str()) {
            let (value, rest) = left.split_first()?;
            left = rest;
            given = given.with_value(option, value.as_str())?;
        } else {
            given = given.with_word(word.as_str())?;
        }
    }
    Some(given)
}

/// Whether a word may only be an option.
fn is_option(word: &str) -> bool
    ensures { result ≡ is_option word.now }
{
    word.starts_with("--")
}
