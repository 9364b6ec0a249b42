// Entries of files: what stands under a name, and a change of it.
ghost use Rattle.std.specs.Prelude.{◌≡◌, true, IfSome, IfNone, IfOk, OnOk, OnErr, Some, None, string_bytes};
ghost use Rattle.std.specs.List.{position};
ghost use Rattle.std.specs.Str.{bytes_eq};
ghost use Rattle.outer_io.specs.Files.{Entry, file_in, with_file, have_different_names};
ghost use Rattle.outer_io.specs.MemoryFiles.{IsReadAnswer, found_answer, IsWriteAnswer, after_put};

use crate::{FileEntry, FileRead, FileWrite};
use std::alloc::{AllocError, Global};

impl FileEntry {
    fn is_named(&self, name: &str) -> bool
        ensures { result ≡ bytes_eq self.now.name name.now }
    {
        self.name.as_bytes() == name.as_bytes()
    }

    fn bytes(&self) -> &[u8]
        ensures { result.now ≡ self.now.bytes }
    {
        self.bytes.as_slice()
    }

    fn set_bytes(&mut self, bytes: Vec<u8>)
        ensures { self.new ≡ record self.old { bytes = bytes.items } }
    {
        self.bytes = bytes;
    }
}

fn place_of(entries: &[FileEntry], name: &str) -> Option<usize>
    ensures { result ≡ position (λ (entry : Entry). bytes_eq entry.name name.now) entries.now }
{
    entries.iter().position(|entry| entry.is_named(name))
}

// The bytes under a name.
pub(crate) fn bytes_of<'a>(entries: &'a [FileEntry], name: &str) -> Option<&'a [u8]>
    ensures some { IfSome result (λ bytes. file_in name.now entries.now ≡ Some bytes.now) }
    ensures none { IfNone result (file_in name.now entries.now ≡ None) }
{
    let Some(place) = place_of(entries, name) else {
        return None;
    };
    Some(entries[place].bytes())
}

// A copy of the bytes under a name, at most `limit` of them.
pub(crate) fn copy_of(alloc: Global, entries: &[FileEntry], name: &str, limit: u64) -> FileRead
    ensures { IsReadAnswer (found_answer (file_in name.now entries.now) limit) result }
{
    let Some(bytes) = bytes_of(entries, name) else {
        return FileRead::Missing;
    };
    if bytes.len() as u64 > limit {
        return FileRead::TooLong;
    }
    match bytes.to_vec(alloc) {
        Ok(copy) => FileRead::Bytes(copy),
        Err(_e) => FileRead::NoMemory,
    }
}

// Puts bytes under a name.
fn put(
    alloc: Global,
    entries: &mut Vec<FileEntry>,
    name: &str,
    bytes: &[u8],
) -> Result<(), AllocError>
    requires { have_different_names entries.old.items ≡ true }
    ensures ok { OnOk result (entries.new.items ≡ with_file name.now bytes.now entries.old.items) }
    ensures err { OnErr result (entries.new.items ≡ entries.old.items) }
    ensures different { have_different_names entries.new.items ≡ true }
{
    let bytes = bytes.to_vec(alloc)?;
    if let Some(place) = place_of(entries.as_slice(), name) {
        entries[place].set_bytes(bytes);
        return Ok(());
    }
    let name = String::from_str(alloc, name)?;
    entries.push(FileEntry { name, bytes })?;
    Ok(())
}

// What putting bytes under a name comes to.
pub(crate) fn write_to(
    alloc: Global,
    entries: &mut Vec<FileEntry>,
    name: &str,
    bytes: &[u8],
) -> FileWrite
    requires { have_different_names entries.old.items ≡ true }
    ensures answer { IsWriteAnswer FileWrite.Done result }
    ensures entries { entries.new.items ≡ after_put name.now bytes.now result entries.old.items }
    ensures different { have_different_names entries.new.items ≡ true }
{
    match put(alloc, entries, name, bytes) {
        Ok(()) => FileWrite::Done,
        Err(_e) => FileWrite::NoMemory,
    }
}
