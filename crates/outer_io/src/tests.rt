ghost use Rattle.std.specs.Prelude.{◌≡◌, ◌<◌, true, length, IfOk};
ghost use Rattle.outer_io.specs.Files.{have_different_names};

use super::*;
use std::alloc::{AllocError, Global};
use std::test::Fail;

// Each form is called through its bound.
fn read<S: Source>(source: &mut S, buf: &mut [u8]) -> ReadStep
    requires { 0 < length buf.old }
{
    source.read(buf)
}

fn write<S: Sink>(sink: &mut S, bytes: &[u8]) -> WriteStep
    requires { 0 < length bytes.now }
{
    sink.write(bytes)
}

fn read_file<F: Files>(files: &mut F, name: &str, limit: u64) -> FileRead {
    files.read(name, limit)
}

fn write_file<F: Files>(files: &mut F, name: &str, bytes: &[u8]) -> FileWrite {
    files.write(name, bytes)
}

fn file(alloc: Global, name: &str, bytes: &[u8]) -> Result<FileEntry, AllocError>
    ensures { IfOk result (λ file. file.name ≡ name.now) }
{
    Ok(FileEntry {
        name: String::from_str(alloc, name)?,
        bytes: bytes.to_vec(alloc)?,
    })
}

fn two_files(alloc: Global) -> Result<Vec<FileEntry>, AllocError>
    ensures { IfOk result (λ files. have_different_names files.items ≡ true) }
{
    let mut files = Vec::new(alloc);
    files.push(file(alloc, "a.xml", b"<a/>")?)?;
    files.push(file(alloc, "b.xml", b"")?)?;
    Ok(files)
}

#[test]
fn reads_in_pieces(rt: HostRuntime) -> Result<(), Fail> {
    let mut buf = [0u8; 8];
    for (piece, first) in [(1, 1), (7, 7), (4096, 8)] {
        let mut source = MemSource::new(rt.alloc(), b"0123456789", piece, &[])?;
        assert_eq!(rt; read(&mut source, &mut buf), ReadStep::Got(first));
        assert_eq!(rt; buf[..first], b"01234567"[..first]);
    }
    Ok(())
}

#[test]
fn reads_on_after_a_fault(rt: HostRuntime) -> Result<(), Fail> {
    let mut source = MemSource::new(rt.alloc(), b"abc", 2, &[2])?;
    let mut buf = [0u8; 8];
    assert_eq!(rt; read(&mut source, &mut buf), ReadStep::Got(2));
    assert_eq!(rt; read(&mut source, &mut buf), ReadStep::Failed);
    assert_eq!(rt; buf[..2], b"ab"[..]);
    assert_eq!(rt; read(&mut source, &mut buf), ReadStep::Got(1));
    assert_eq!(rt; buf[0], b'c');
    assert_eq!(rt; read(&mut source, &mut buf), ReadStep::End);
    Ok(())
}

#[test]
fn writes_on_after_a_fault(rt: HostRuntime) -> Result<(), Fail> {
    let mut sink = MemSink::new(rt.alloc(), 8, 5, &[2])?;
    assert_eq!(rt; write(&mut sink, b"0123456"), WriteStep::Took(5));
    assert_eq!(rt; write(&mut sink, b"56"), WriteStep::Failed);
    assert_eq!(rt; sink.bytes(), b"01234".as_slice());
    assert_eq!(rt; write(&mut sink, b"56789"), WriteStep::Took(3));
    assert_eq!(rt; write(&mut sink, b"89"), WriteStep::Failed);
    assert_eq!(rt; sink.bytes(), b"01234567".as_slice());
    Ok(())
}

#[test]
fn stays_calm(rt: HostRuntime) -> Result<(), Fail> {
    let mut source = CalmSource::new(rt.alloc(), b"abc")?;
    let mut buf = [0u8; 2];
    assert_eq!(rt; read(&mut source, &mut buf), ReadStep::Got(2));
    assert_eq!(rt; buf, *b"ab");
    assert_eq!(rt; read(&mut source, &mut buf), ReadStep::Got(1));
    assert_eq!(rt; read(&mut source, &mut buf), ReadStep::End);
    let mut sink = CalmSink::new();
    assert_eq!(rt; write(&mut sink, b"abc"), WriteStep::Took(3));
    Ok(())
}

#[test]
fn files_in_memory(rt: HostRuntime) -> Result<(), Fail> {
    let mut files = MemFiles::new(rt.alloc(), two_files(rt.alloc())?, &[4, 6])?;
    let text = b"<a/>".to_vec(rt.alloc())?;
    assert_eq!(rt; read_file(&mut files, "a.xml", 4), FileRead::Bytes(text));
    assert_eq!(rt; read_file(&mut files, "a.xml", 3), FileRead::TooLong);
    assert_eq!(rt; read_file(&mut files, "c.xml", 4), FileRead::Missing);
    assert_eq!(rt; read_file(&mut files, "a.xml", 4), FileRead::Failed);
    assert_eq!(rt; write_file(&mut files, "c.xml", b"<c/>"), FileWrite::Done);
    assert_eq!(rt; write_file(&mut files, "a.xml", b"<d/>"), FileWrite::Failed);
    assert_eq!(rt; write_file(&mut files, "b.xml", b"<b/>"), FileWrite::Done);
    assert_eq!(rt; files.get("a.xml"), Some(b"<a/>".as_slice()));
    assert_eq!(rt; files.get("b.xml"), Some(b"<b/>".as_slice()));
    assert_eq!(rt; files.get("c.xml"), Some(b"<c/>".as_slice()));
    assert_eq!(rt; files.get("d.xml"), None);
    Ok(())
}

#[test]
fn calm_files(rt: HostRuntime) -> Result<(), Fail> {
    let mut files = CalmFiles::new(two_files(rt.alloc())?)?;
    assert_eq!(rt; write_file(&mut files, "b.xml", b"<b/>"), FileWrite::Done);
    let text = b"<b/>".to_vec(rt.alloc())?;
    assert_eq!(rt; read_file(&mut files, "b.xml", 4), FileRead::Bytes(text));
    assert_eq!(rt; read_file(&mut files, "b.xml", 3), FileRead::TooLong);
    assert_eq!(rt; read_file(&mut files, "c.xml", 4), FileRead::Missing);
    Ok(())
}
