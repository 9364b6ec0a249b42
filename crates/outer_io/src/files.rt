// What a program sees of files.
ghost use Rattle.std.specs.Prelude.{◌≡◌, ◌≢◌, List, ℕ, Some};
ghost use Rattle.outer_io.specs.Files.{Entry, FilesSeen, file_in, with_file, FileReads, FileWrites};

use std::marker::Model;

/// What a read of a file came to.
#[derive(Debug, PartialEq, Eq, Drop)]
pub enum FileRead {
    /// All bytes of the file, at most as many as the limit.
    Bytes(Vec<u8>),
    /// There is no file of that name, and the count of misses rose.
    Missing,
    /// The file has more bytes than the limit, and the count of overlong reads rose.
    TooLong,
    /// A fault, and the count of faults rose. The next read may succeed.
    Failed,
    /// There is no memory for the bytes. No count needs to have risen.
    NoMemory,
}

/// What a write of a file came to.
#[derive(Clone, Copy, Debug, PartialEq, Eq)]
pub enum FileWrite {
    /// The file has these bytes, and no others.
    Done,
    /// A fault, and the count of faults rose. The file may have any bytes, or be gone; no other file has changed.
    Failed,
    /// There is no memory for the bytes. No file has changed.
    NoMemory,
}

/// A file: its name and its bytes. Contracts see both as lists of bytes.
#[derive(Debug, Drop)]
pub struct FileEntry {
    pub name: String,
    pub bytes: Vec<u8>,
}

impl Model for FileEntry {
    ghost use Rattle.std.specs.Prelude.{string_bytes};
    ghost use Rattle.outer_io.specs.Files.{Entry};

    ghost Value = { Entry };

    ghost view = { λ f. record { name = string_bytes f.name; bytes = f.bytes.items } };
}

/// Files that are read and written whole, each under a name.
///
/// No call changes whether they tell what stands under each name. No count falls, and a count that stands at the
/// greatest u64 counts as risen.
pub trait Files {
    /// The files, where they are told; how often a call has failed, how often a read has found no file of its name, and
    /// how often one has found a file of more bytes than its limit.
    ghost seen: { Self → FilesSeen };

    /// Reads a file of at most `limit` bytes. No file changes.
    fn read(&mut self, name: &str, limit: u64) -> FileRead
        ensures { FileReads (seen self.old) (seen self.new) name.now limit result };

    /// Gives a file these bytes in place of those that it has, and makes it where there is none.
    fn write(&mut self, name: &str, bytes: &[u8]) -> FileWrite
        ensures { FileWrites (seen self.old) (seen self.new) name.now bytes.now result };
}

/// What a write gives a file is what stands under its name, and all other files are as they were.
pub fn one_file_written()
    ensures found { (name bytes : List ℕ) (entries : List Entry) → file_in name (with_file name bytes entries) ≡ Some bytes }
    ensures others { (name bytes other : List ℕ) (entries : List Entry) → other ≢ name → file_in other (with_file name bytes entries) ≡ file_in other entries }
{}
