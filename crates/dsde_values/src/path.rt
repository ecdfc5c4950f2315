//! The paths of components.

ghost use Rattle.std.specs.Prelude.{◌≡◌, ◌≢◌, ◌↔◌, ◌++◌, ◌||◌, true, ℕ, Option, length, take, IfOk, OnOk, OnErr, IfSome, IfNone, IsErrOf};
ghost use Rattle.dsde_values.specs.Path.{root, path_text, name_text, index_text, path_cmp, IsPath, is_path, are_below, is_component, is_executive, is_name, is_index};
ghost use Rattle.dsde_values.specs.declared.name.Name.{Name};
ghost use Rattle.dsde_values.specs.declared.path.Path.{Path};
ghost use Rattle.dsde_values.specs.declared.path.ReadPath.TheVariants as read_path;

use crate::Name;
use crate::decimal::decimal_of;
use dsde_lists::{Memory, Seq, Stem, Text, append_decimal};
use dsde_words::{is_reserved, is_word, word_size};
use std::alloc::Global;
use std::cmp::Ordering;

/// A component's place in the tree of components: names from `root` on.
#[derive(Drop)]
pub struct Path {
    pub names: Seq<Name>,
}

impl Path {
    /// The path of the whole model.
    pub fn root(alloc: Global) -> Result<Path, Memory>
        ensures { IfOk result (λ path. path ≡ root) }
    {
        let mut names = Seq::new(alloc);
        names.push(Name {
            stem: Stem::from_slice(alloc, b"root")?,
            index: None,
        })?;
        Ok(Path { names })
    }
}

/// The order of paths: name by name, and a path before the longer ones that begin with it. `Equal`
/// comes exactly where the paths are the same.
pub fn compare_paths(path: &Path, other: &Path) -> Ordering
    ensures order { result ≡ path_cmp path.now other.now }
    ensures equal { (result ≡ Ordering.Equal) ↔ (path.now ≡ other.now) }
{
    path.names.as_slice().cmp(other.names.as_slice())
}

/// Appends the path's one spelling: its names joined by `/`, an index in brackets.
/// Without memory the text stays as it was.
pub fn write_path(path: &Path, text: &mut Text) -> Result<(), Memory>
    ensures ok { OnOk result (text.new ≡ text.old ++ path_text path.now) }
    ensures err { OnErr result (text.new ≡ text.old) }
{
    let start = text.len();
    let written = append_path(path, text);
    text.whole_or_none(start, written)
}

fn append_path(path: &Path, text: &mut Text) -> Result<(), Memory>
    ensures ok { OnOk result (text.new ≡ text.old ++ path_text path.now) }
    ensures grows { take (length text.old) text.new ≡ text.old }
{
    let Some((first, others)) = path.names.as_slice().split_first() else {
        return Ok(());
    };
    append_name(first, text)?;
    for name in others {
        text.push(b'/')?;
        append_name(name, text)?;
    }
    Ok(())
}

fn append_name(name: &Name, text: &mut Text) -> Result<(), Memory>
    ensures ok { OnOk result (text.new ≡ text.old ++ name_text name.now) }
    ensures grows { take (length text.old) text.new ≡ text.old }
{
    text.extend_from_slice(name.stem.as_slice())?;
    if let Some(index) = name.index {
        text.push(b'[')?;
        append_decimal(index, text)?;
        text.push(b']')?;
    }
    Ok(())
}

/// The greatest index that a name may have.
const LAST_INDEX: u64 = 9_223_372_036_854_775_807;

/// Why no path was read.
#[derive(Clone, Copy)]
pub enum ReadPath {
    /// The bytes spell no path.
    NotAPath,
    Memory,
}

impl From<Memory> for ReadPath {
    ghost from_gives = { λ _ error. error ≡ read_path.Memory };

    fn from(_error: Memory) -> ReadPath {
        ReadPath::Memory
    }
}

/// The path whose spelling the bytes are. The first name of a path is `root`. Each later one is
/// an identifier that is no word of the language, alone or with an index of at most 2^63 - 1 in
/// brackets, without leading zeros; `exec` may stand last. `NotAPath` comes exactly where the bytes
/// are the spelling of no such path.
pub fn read_path(alloc: Global, bytes: &[u8]) -> Result<Path, ReadPath>
    ensures path { IfOk result IsPath }
    ensures spelled { IfOk result (λ path. path_text path ≡ bytes.now) }
    ensures only { IfOk result (λ path. (other : Path) → IsPath other → path_text other ≡ bytes.now → other ≡ path) }
    ensures none { IsErrOf result ReadPath.NotAPath → (path : Path) → IsPath path → path_text path ≢ bytes.now }
{
    let mut names = Seq::new(alloc);
    for piece in bytes.split(|byte| *byte == b'/') {
        names.push(read_name(alloc, piece)?)?;
    }
    if !is_path(names.as_slice()) {
        return Err(ReadPath::NotAPath);
    }
    Ok(Path { names })
}

/// The name that a text spells, as an identifier with or without an index.
fn read_name(alloc: Global, text: &[u8]) -> Result<Name, ReadPath>
    ensures name { IfOk result (λ name. (is_name name ≡ true) × (name_text name ≡ text.now)) }
    ensures none { IsErrOf result ReadPath.NotAPath → (name : Name) → is_name name ≡ true → name_text name ≢ text.now }
{
    let (stem, rest) = text.split_at(word_size(text));
    if !is_word(stem) {
        return Err(ReadPath::NotAPath);
    }
    let Some(index) = read_index(rest) else {
        return Err(ReadPath::NotAPath);
    };
    Ok(Name {
        stem: Stem::from_slice(alloc, stem)?,
        index,
    })
}

/// The index that a text spells in brackets. An empty text spells none.
fn read_index(text: &[u8]) -> Option<Option<u64>>
    ensures some { IfSome result (λ index. (is_index index ≡ true) × (index_text index ≡ text.now)) }
    ensures none { IfNone result ((index : Option ℕ) → is_index index ≡ true → index_text index ≢ text.now) }
{
    let Some((open, inside)) = text.split_first() else {
        return Some(None);
    };
    let (close, digits) = inside.split_last()?;
    if *open != b'[' || *close != b']' {
        return None;
    }
    let index = decimal_of(digits)?;
    (index <= LAST_INDEX).then_some(Some(index))
}

/// Whether names are those of a path.
fn is_path(names: &[Name]) -> bool
    ensures { result ≡ is_path names.now }
{
    match names {
        [] => false,
        [first, others @ ..] => first.is_plain(b"root") && are_below(others),
    }
}

/// Whether names may stand below `root`.
fn are_below(names: &[Name]) -> bool
    ensures { result ≡ are_below names.now }
{
    match names.split_last() {
        None => true,
        Some((last, others)) => others.iter().all(is_component) && may_be_last(last),
    }
}

/// Whether a name may stand last.
fn may_be_last(name: &Name) -> bool
    ensures { result ≡ is_component name.now || is_executive name.now }
{
    is_component(name) || name.is_executive()
}

/// Whether a component may have the name.
fn is_component(name: &Name) -> bool
    ensures { result ≡ is_component name.now }
{
    is_name(name) && !is_reserved(name.stem.as_slice())
}

/// Whether a name is one by its form.
fn is_name(name: &Name) -> bool
    ensures { result ≡ is_name name.now }
{
    is_word(name.stem.as_slice()) && name.index.is_none_or(|index| index <= LAST_INDEX)
}
