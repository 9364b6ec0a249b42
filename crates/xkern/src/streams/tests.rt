ghost use Rattle.std.specs.Prelude.{◌<◌, length};

use super::*;
use std::io;
use std::test::Fail;

// A reader and a writer that fail at their first call, and then give or take one byte a call.
#[derive(Drop)]
struct OneByte {
    calls: u8,
}

impl Read for OneByte {
    fn read(&mut self, buf: &mut [u8]) -> io::Result<usize> {
        self.calls = self.calls.saturating_add(1);
        if self.calls == 1 {
            return Err(io::Error::from(io::ErrorKind::Other));
        }
        match buf {
            [first, ..] if self.calls == 2 => {
                *first = b'x';
                Ok(1)
            }
            _ => Ok(0),
        }
    }
}

impl Write for OneByte {
    fn write(&mut self, buf: &[u8]) -> io::Result<usize> {
        self.calls = self.calls.saturating_add(1);
        if self.calls == 1 {
            return Err(io::Error::from(io::ErrorKind::Other));
        }
        if self.calls == 2 {
            return Ok(buf.len().min(1));
        }
        Ok(0)
    }

    fn flush(&mut self) -> io::Result<()> {
        Ok(())
    }
}

fn read<S: Source>(source: &mut S, buf: &mut [u8]) -> ReadStep
    requires { 0 < length buf.old }
{
    source.read(buf)
}

fn write<S: Sink>(sink: &mut S, bytes: &[u8]) -> WriteStep
    requires { 0 < length bytes.now }
{
    sink.write(bytes)
}

#[test]
fn reader_that_fails_once(rt: HostRuntime) -> Result<(), Fail> {
    let mut source = Reading::new(OneByte { calls: 0 });
    let mut buf = [0u8; 4];
    assert_eq!(rt; read(&mut source, &mut buf), ReadStep::Failed);
    assert_eq!(rt; source.faults, 1);
    assert_eq!(rt; read(&mut source, &mut buf), ReadStep::Got(1));
    assert_eq!(rt; buf[0], b'x');
    assert_eq!(rt; read(&mut source, &mut buf), ReadStep::End);
    assert_eq!(rt; source.faults, 1);
    Ok(())
}

#[test]
fn writer_that_fails_once(rt: HostRuntime) -> Result<(), Fail> {
    let mut sink = Writing::new(OneByte { calls: 0 });
    assert_eq!(rt; write(&mut sink, b"ab"), WriteStep::Failed);
    assert_eq!(rt; write(&mut sink, b"ab"), WriteStep::Took(1));
    assert_eq!(rt; write(&mut sink, b"b"), WriteStep::Failed);
    assert_eq!(rt; sink.faults, 2);
    Ok(())
}
