// Files that never fail.
ghost use Rattle.std.specs.Prelude.{◌≡◌, ◌≢◌, true, IfOk};
ghost use Rattle.outer_io.specs.Files.{have_different_names, FileReads, FileWrites};
ghost use Rattle.outer_io.specs.MemoryFiles.{IsReadAnswer, IsWriteAnswer};
ghost use Rattle.outer_io.specs.CalmFiles.{calm_files_seen, calm_files, calm_read_answer, calm_after_read, calm_after_write};

use crate::entries::{copy_of, write_to};
use crate::{FileEntry, FileRead, FileWrite, Files};
use std::alloc::AllocError;
use std::marker::Model;

/// Files that are kept in memory, of which no call fails. They tell what stands under each name.
#[derive(Drop)]
pub struct CalmFiles {
    entries: Vec<FileEntry>,
    misses: u64,
    overlong: u64,
}

impl Model for CalmFiles {
    ghost use Rattle.std.specs.Prelude.{◌≡◌, true};
    ghost use Rattle.outer_io.specs.Files.{have_different_names};
    ghost use Rattle.outer_io.specs.CalmFiles.{CalmFilesState};

    ghost Value = { CalmFilesState };

    ghost view = { λ s. record { map = s.entries.items; misses = s.misses; overlong = s.overlong } };

    ghost invariant = { λ s. have_different_names s.entries.items ≡ true };
}

impl CalmFiles {
    /// Files with these names and bytes. No two files may have one name.
    pub fn new(entries: Vec<FileEntry>) -> Result<CalmFiles, AllocError>
        requires { have_different_names entries.items ≡ true }
        ensures { IfOk result (λ files. files ≡ calm_files entries.items) }
    {
        Ok(CalmFiles {
            entries,
            misses: 0,
            overlong: 0,
        })
    }
}

impl Files for CalmFiles {
    ghost seen = { calm_files_seen };

    /// `NoMemory` comes only where a file of at most `limit` bytes has the name. The counts stop at the greatest u64.
    fn read(&mut self, name: &str, limit: u64) -> FileRead
        ensures read { FileReads (calm_files_seen self.old) (calm_files_seen self.new) name.now limit result }
        ensures calm { result ≢ FileRead.Failed }
        ensures answer { IsReadAnswer (calm_read_answer self.old name.now limit) result }
        ensures state { self.new ≡ calm_after_read self.old name.now limit }
    {
        let answer = copy_of(
            *self.entries.allocator(),
            self.entries.as_slice(),
            name,
            limit,
        );
        match &answer {
            FileRead::Missing => self.misses = self.misses.saturating_add(1),
            FileRead::TooLong => self.overlong = self.overlong.saturating_add(1),
            _ => {}
        }
        answer
    }

    fn write(&mut self, name: &str, bytes: &[u8]) -> FileWrite
        ensures write { FileWrites (calm_files_seen self.old) (calm_files_seen self.new) name.now bytes.now result }
        ensures calm { result ≢ FileWrite.Failed }
        ensures answer { IsWriteAnswer FileWrite.Done result }
        ensures state { self.new ≡ calm_after_write self.old name.now bytes.now result }
    {
        write_to(*self.entries.allocator(), &mut self.entries, name, bytes)
    }
}
