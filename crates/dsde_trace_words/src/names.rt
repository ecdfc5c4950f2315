//! The words with which lines and their ends begin, and those for moves, for bad lines, and for sites
//! and kinds of faults.

ghost use Rattle.std.specs.Prelude.{◌≡◌};
ghost use Rattle.std.specs.Str.{bytes_eq};
ghost use Rattle.dsde_trace_words.specs.Names.{endings, fault_kinds, found_in, input_kinds, line_words, move_kinds, sites};

use dsde_faults::{FaultKind, Site};
use dsde_formalism::MoveKind;
use dsde_sim_tree::InputKind;

/// The word with which a line begins.
#[derive(Clone, Copy)]
pub enum LineWord {
    Add,
    Turn,
    Out,
    Get,
    Move,
    Drop,
    End,
}

/// The word with which what a last line says of the end begins.
#[derive(Clone, Copy)]
pub enum Ending {
    Bound,
    Quiet,
    Input,
    Fault,
}

/// The word for a kind of line that a text is.
pub fn line_word_of(text: &[u8]) -> Option<LineWord>
    ensures { result ≡ found_in line_words text.now }
{
    if is_word(text, "add") {
        return Some(LineWord::Add);
    }
    if is_word(text, "turn") {
        return Some(LineWord::Turn);
    }
    if is_word(text, "out") {
        return Some(LineWord::Out);
    }
    if is_word(text, "get") {
        return Some(LineWord::Get);
    }
    if is_word(text, "move") {
        return Some(LineWord::Move);
    }
    if is_word(text, "drop") {
        return Some(LineWord::Drop);
    }
    if is_word(text, "end") {
        return Some(LineWord::End);
    }
    None
}

/// The word for a kind of end that a text is.
pub fn ending_of(text: &[u8]) -> Option<Ending>
    ensures { result ≡ found_in endings text.now }
{
    if is_word(text, "bound") {
        return Some(Ending::Bound);
    }
    if is_word(text, "quiet") {
        return Some(Ending::Quiet);
    }
    if is_word(text, "input") {
        return Some(Ending::Input);
    }
    if is_word(text, "fault") {
        return Some(Ending::Fault);
    }
    None
}

/// The kind of move that a text is.
pub fn move_kind_of(text: &[u8]) -> Option<MoveKind>
    ensures { result ≡ found_in move_kinds text.now }
{
    if is_word(text, "internal") {
        return Some(MoveKind::Internal);
    }
    if is_word(text, "external") {
        return Some(MoveKind::External);
    }
    if is_word(text, "confluent") {
        return Some(MoveKind::Confluent);
    }
    None
}

/// What a text says is wrong with a line of an input.
pub fn input_kind_of(text: &[u8]) -> Option<InputKind>
    ensures { result ≡ found_in input_kinds text.now }
{
    if is_word(text, "BadLine") {
        return Some(InputKind::BadLine);
    }
    if is_word(text, "Backwards") {
        return Some(InputKind::Backwards);
    }
    if is_word(text, "LineTooLong") {
        return Some(InputKind::LineTooLong);
    }
    None
}

/// The part of a component that a text is.
pub fn site_of(text: &[u8]) -> Option<Site>
    ensures { result ≡ found_in sites text.now }
{
    if is_word(text, "top") {
        return Some(Site::Top);
    }
    if is_word(text, "start") {
        return Some(Site::Start);
    }
    if is_word(text, "init") {
        return Some(Site::Init);
    }
    if is_word(text, "advance") {
        return Some(Site::Advance);
    }
    if is_word(text, "output") {
        return Some(Site::Output);
    }
    if is_word(text, "internal") {
        return Some(Site::Internal);
    }
    if is_word(text, "external") {
        return Some(Site::External);
    }
    if is_word(text, "confluent") {
        return Some(Site::Confluent);
    }
    if is_word(text, "structure") {
        return Some(Site::Structure);
    }
    None
}

/// The kind of fault that a text is.
pub fn fault_kind_of(text: &[u8]) -> Option<FaultKind>
    ensures { result ≡ found_in fault_kinds text.now }
{
    if is_word(text, "Overflow") {
        return Some(FaultKind::Overflow);
    }
    if is_word(text, "DivideByZero") {
        return Some(FaultKind::DivideByZero);
    }
    if is_word(text, "IndexOutOfRange") {
        return Some(FaultKind::IndexOutOfRange);
    }
    if is_word(text, "EmptyOption") {
        return Some(FaultKind::EmptyOption);
    }
    if is_word(text, "RangeTooLong") {
        return Some(FaultKind::RangeTooLong);
    }
    if is_word(text, "NegativeAdvance") {
        return Some(FaultKind::NegativeAdvance);
    }
    if is_word(text, "TimeTooFar") {
        return Some(FaultKind::TimeTooFar);
    }
    if is_word(text, "DuplicateComponent") {
        return Some(FaultKind::DuplicateComponent);
    }
    if is_word(text, "BadIndex") {
        return Some(FaultKind::BadIndex);
    }
    if is_word(text, "DanglingLink") {
        return Some(FaultKind::DanglingLink);
    }
    if is_word(text, "TooManyLinks") {
        return Some(FaultKind::TooManyLinks);
    }
    if is_word(text, "TooDeep") {
        return Some(FaultKind::TooDeep);
    }
    if is_word(text, "Crowded") {
        return Some(FaultKind::Crowded);
    }
    None
}

/// Whether a text is this word.
fn is_word(text: &[u8], word: &str) -> bool
    ensures { result ≡ bytes_eq text.now word.now }
{
    text == word.as_bytes()
}
