//! A shelf over real files.

ghost use Rattle.std.specs.Prelude.{◌≡◌, ◌≢◌, ℕ, ◌≤◌, length, None, IfOk, OnOk, IfErr, OnErr, IsErrOf};
ghost use Rattle.dsde_io.specs.Fault.{one_more};

use crate::{Shelf, ShelfEnd};
use dsde_values::Text;
use std::alloc::Global;
use std::fs;
use std::io::{Error, ErrorKind, Read};
use std::marker::Model;
use std::rt::Files;

/// A shelf of files, whose names are their paths. It tells nothing of what they hold, and
/// contracts see how many loads and stores failed.
///
/// A load is `Absent` where there is no file or no folder of that path, and `TooLong` where more
/// bytes than the limit can be read, of which it reads one. It is `Memory` where the program or
/// the system has none to give, and `Failed` at any other error, as at a folder. A store makes
/// the file or empties it, and writes all the bytes; any error is `Failed`.
#[derive(Drop)]
pub struct FileShelf<R> {
    files: R,
    faults: u64,
}

impl<R> Model for FileShelf<R> {
    ghost Value = { ℕ };

    ghost view = { λ shelf. shelf.faults };
}

impl<R> FileShelf<R> {
    /// A shelf of the runtime's files.
    pub fn new(files: R) -> FileShelf<R>
        ensures { result ≡ 0 }
    {
        FileShelf { files, faults: 0 }
    }

    /// How many loads and stores failed, up to 2^64 - 1.
    pub fn faults(&self) -> u64
        ensures { result ≡ self.now }
    {
        self.faults
    }
}

impl<R: Files> Shelf for FileShelf<R> {
    ghost held = { λ _. None };

    ghost faults = { λ count. count };

    fn load(&mut self, alloc: Global, name: &str, limit: u64) -> Result<Text, ShelfEnd>
        ensures within { IfOk result (λ bytes. length bytes ≤ limit) }
        ensures counted { self.old ≤ self.new }
        ensures no_fault { result ≢ Err ShelfEnd.Failed → self.new ≡ self.old }
        ensures fault { IsErrOf result ShelfEnd.Failed → self.new ≡ one_more self.old }
    {
        let loaded = read_file(alloc, &self.files, name, limit);
        if let Err(ShelfEnd::Failed) = &loaded {
            self.faults = self.faults.saturating_add(1);
        }
        loaded
    }

    fn store(&mut self, _alloc: Global, name: &str, bytes: &[u8]) -> Result<(), ShelfEnd>
        ensures counted { self.old ≤ self.new }
        ensures no_fault { OnOk result (self.new ≡ self.old) }
        ensures fault { OnErr result (self.new ≡ one_more self.old) }
        ensures only_failed { IfErr result (λ end. end ≡ ShelfEnd.Failed) }
    {
        if fs::write(&self.files, name, bytes).is_ok() {
            return Ok(());
        }
        self.faults = self.faults.saturating_add(1);
        Err(ShelfEnd::Failed)
    }
}

/// The bytes of a file, of which at most one more than the limit is read.
fn read_file<R: Files>(alloc: Global, files: &R, name: &str, limit: u64) -> Result<Text, ShelfEnd>
    ensures { IfOk result (λ bytes. length bytes ≤ limit) }
{
    let file = match fs::open(files, name) {
        Ok(file) => file,
        Err(error) if error.kind() == ErrorKind::NotFound => return Err(ShelfEnd::Absent),
        Err(error) => return Err(end_of(error)),
    };
    let mut bytes = Vec::new(alloc);
    if let Err(error) = file.take(limit.saturating_add(1)).read_to_end(&mut bytes) {
        return Err(end_of(error));
    }
    if bytes.len() as u64 > limit {
        return Err(ShelfEnd::TooLong);
    }
    Ok(Text::from_vec(bytes))
}

/// What a load answers where reading failed.
fn end_of(error: Error) -> ShelfEnd {
    if error.kind() == ErrorKind::OutOfMemory {
        ShelfEnd::Memory
    } else {
        ShelfEnd::Failed
    }
}
