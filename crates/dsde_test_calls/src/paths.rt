//! Paths: their spelling and their order.

use crate::calls::{Answer, truth};
use dsde_values::{Memory, Path, ReadPath, Text, compare_paths, read_path, write_path};
use std::alloc::Global;

/// How many of the paths that are kept come before the one that a text spells, which is kept too.
pub(crate) fn keep(alloc: Global, paths: &mut Vec<Path>, text: &[u8]) -> Result<Answer, Memory> {
    match read_path(alloc, text) {
        Ok(path) => keep_it(alloc, paths, path, text),
        Err(ReadPath::NotAPath) => Ok(truth(false)),
        Err(ReadPath::Memory) => Err(Memory),
    }
}

fn keep_it(
    alloc: Global,
    paths: &mut Vec<Path>,
    path: Path,
    text: &[u8],
) -> Result<Answer, Memory> {
    let answer = told(alloc, paths, &path, text);
    paths.push(path)?;
    answer
}

/// How many of the paths come before this one, or what is otherwise than it should: how it is
/// written, or whether it is the root.
fn told(alloc: Global, paths: &[Path], path: &Path, text: &[u8]) -> Result<Answer, Memory> {
    if !is_written(alloc, path, text)? {
        return Ok(Answer::Word("written otherwise"));
    }
    if is_root(alloc, path)? != (text == b"root".as_slice()) {
        return Ok(Answer::Word("another root"));
    }
    Ok(Answer::Number(count_before(paths, path)))
}

fn is_written(alloc: Global, path: &Path, text: &[u8]) -> Result<bool, Memory> {
    let mut written = Text::new(alloc);
    write_path(path, &mut written)?;
    Ok(written.as_slice() == text)
}

fn is_root(alloc: Global, path: &Path) -> Result<bool, Memory> {
    let root = Path::root(alloc)?;
    Ok(compare_paths(path, &root).is_eq())
}

/// How many of the paths come before this one, as both ways to compare them say.
fn count_before(paths: &[Path], path: &Path) -> u64 {
    let mut count = 0u64;
    for other in paths {
        if compare_paths(other, path).is_lt() && compare_paths(path, other).is_gt() {
            count = count.saturating_add(1);
        }
    }
    count
}
