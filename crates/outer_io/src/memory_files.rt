// Files in memory, that fail at chosen calls.
ghost use Rattle.std.specs.Prelude.{◌≡◌, true, IfOk, IfSome, IfNone, Some, None};
ghost use Rattle.outer_io.specs.Files.{have_different_names, file_in, FileReads, FileWrites};
ghost use Rattle.outer_io.specs.MemoryFiles.{files_seen, fresh_files, IsReadAnswer, read_answer, after_read, IsWriteAnswer, write_answer, after_write};

use crate::entries::{bytes_of, copy_of, write_to};
use crate::{FileEntry, FileRead, FileWrite, Files};
use std::alloc::{AllocError, Global};
use std::marker::Model;

/// Files that are kept in memory. They tell what stands under each name.
#[derive(Drop)]
pub struct MemFiles {
    entries: Vec<FileEntry>,
    fails: Vec<u64>,
    calls: u64,
    faults: u64,
    misses: u64,
    overlong: u64,
}

impl Model for MemFiles {
    ghost use Rattle.std.specs.Prelude.{◌≡◌, true};
    ghost use Rattle.outer_io.specs.Files.{have_different_names};
    ghost use Rattle.outer_io.specs.MemoryFiles.{MemFilesState};

    ghost Value = { MemFilesState };

    ghost view = { λ s. record {
      map = s.entries.items;
      fails = s.fails.items;
      calls = s.calls;
      faults = s.faults;
      misses = s.misses;
      overlong = s.overlong;
    } };

    ghost invariant = { λ s. have_different_names s.entries.items ≡ true };
}

impl MemFiles {
    /// Files with these names and bytes, that fail at the calls of these numbers: reads and writes are counted together,
    /// from 1. The order of the numbers is of no account. No two files may have one name.
    pub fn new(
        alloc: Global,
        entries: Vec<FileEntry>,
        fails: &[u64],
    ) -> Result<MemFiles, AllocError>
        requires { have_different_names entries.items ≡ true }
        ensures { IfOk result (λ files. files ≡ fresh_files entries.items fails.now) }
    {
        Ok(MemFiles {
            entries,
            fails: fails.to_vec(alloc)?,
            calls: 0,
            faults: 0,
            misses: 0,
            overlong: 0,
        })
    }

    /// The bytes under a name, or `None` where no file has it. This is no call that is counted, and takes no memory.
    pub fn get(&self, name: &str) -> Option<&[u8]>
        ensures some { IfSome result (λ bytes. file_in name.now self.now.map ≡ Some bytes.now) }
        ensures none { IfNone result (file_in name.now self.now.map ≡ None) }
    {
        bytes_of(self.entries.as_slice(), name)
    }
}

impl Files for MemFiles {
    ghost seen = { files_seen };

    /// Fails at the chosen calls and at no other. `NoMemory` comes only where a file of at most `limit` bytes has the name.
    /// All counts stop at the greatest u64.
    fn read(&mut self, name: &str, limit: u64) -> FileRead
        ensures read { FileReads (files_seen self.old) (files_seen self.new) name.now limit result }
        ensures answer { IsReadAnswer (read_answer self.old name.now limit) result }
        ensures state { self.new ≡ after_read self.old name.now limit }
    {
        self.calls = self.calls.saturating_add(1);
        if self.fails.contains(&self.calls) {
            self.faults = self.faults.saturating_add(1);
            return FileRead::Failed;
        }
        let answer = copy_of(
            *self.entries.allocator(),
            self.entries.as_slice(),
            name,
            limit,
        );
        match &answer {
            FileRead::Missing => self.misses = self.misses.saturating_add(1),
            FileRead::TooLong => self.overlong = self.overlong.saturating_add(1),
            _ => {}
        }
        answer
    }

    /// Fails at the chosen calls and at no other, and then changes no file.
    fn write(&mut self, name: &str, bytes: &[u8]) -> FileWrite
        ensures write { FileWrites (files_seen self.old) (files_seen self.new) name.now bytes.now result }
        ensures answer { IsWriteAnswer (write_answer self.old) result }
        ensures state { self.new ≡ after_write self.old name.now bytes.now result }
    {
        self.calls = self.calls.saturating_add(1);
        if self.fails.contains(&self.calls) {
            self.faults = self.faults.saturating_add(1);
            return FileWrite::Failed;
        }
        write_to(*self.entries.allocator(), &mut self.entries, name, bytes)
    }
}
