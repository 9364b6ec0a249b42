// Files of the system: the edge of the program, which counts its faults, its misses and its overlong reads, and tells
// no bytes.
ghost use Rattle.std.specs.Prelude.{None};

use outer_io::{FileRead, FileWrite, Files};
use std::io::Read;
use std::{fs, io, rt};

/// The files under the paths that their names are. The counts stop at the greatest u64.
#[derive(Drop)]
pub struct FileSystem<'a, R> {
    rt: &'a R,
    faults: u64,
    misses: u64,
    overlong: u64,
}

impl<'a, R: rt::Files + AllocGlobal> FileSystem<'a, R> {
    pub fn new(rt: &'a R) -> Self {
        FileSystem {
            rt,
            faults: 0,
            misses: 0,
            overlong: 0,
        }
    }
}

// The first bytes of a file, at most so many.
fn first_bytes<R: rt::Files + AllocGlobal>(rt: &R, name: &str, most: u64) -> io::Result<Vec<u8>> {
    let mut bytes = Vec::new(rt.alloc());
    let file = fs::open(rt, name)?;
    file.take(most).read_to_end(&mut bytes)?;
    Ok(bytes)
}

impl<R: rt::Files + AllocGlobal> Files for FileSystem<'_, R> {
    ghost seen = { λ s. record { map = None; faults = s.faults; misses = s.misses; overlong = s.overlong } };

    /// Reads one byte more than the limit at most. A path where nothing is counts as a miss, and any other error but
    /// want of memory as a fault.
    fn read(&mut self, name: &str, limit: u64) -> FileRead {
        match first_bytes(self.rt, name, limit.saturating_add(1)) {
            Ok(bytes) if bytes.len() as u64 <= limit => FileRead::Bytes(bytes),
            Ok(_) => {
                self.overlong = self.overlong.saturating_add(1);
                FileRead::TooLong
            }
            Err(e) => match e.kind() {
                io::ErrorKind::NotFound => {
                    self.misses = self.misses.saturating_add(1);
                    FileRead::Missing
                }
                io::ErrorKind::OutOfMemory => FileRead::NoMemory,
                _ => {
                    self.faults = self.faults.saturating_add(1);
                    FileRead::Failed
                }
            },
        }
    }

    /// Creates the file, or empties it first. Each error is a fault.
    fn write(&mut self, name: &str, bytes: &[u8]) -> FileWrite {
        match fs::write(self.rt, name, bytes) {
            Ok(()) => FileWrite::Done,
            Err(_) => {
                self.faults = self.faults.saturating_add(1);
                FileWrite::Failed
            }
        }
    }
}

#[cfg(test)]
mod tests;
