use super::*;
use std::test::Fail;
use std::{env, process};

// The adapter is called through its bound.
fn read<F: Files>(files: &mut F, name: &str, limit: u64) -> FileRead {
    files.read(name, limit)
}

fn write<F: Files>(files: &mut F, name: &str, bytes: &[u8]) -> FileWrite {
    files.write(name, bytes)
}

#[test]
fn file_that_is_written(rt: HostRuntime) -> Result<(), Fail> {
    let directory = env::temp_dir(&rt)?;
    let directory = directory.as_str();
    let id = process::id(rt.process());
    let name = format!(in rt.alloc(); "{directory}/xkern-{id}.xml")?;
    let name = name.as_str();
    let _absent = fs::remove_file(&rt, name);
    let mut files = FileSystem::new(&rt);
    assert_eq!(rt; read(&mut files, name, 4), FileRead::Missing);
    assert_eq!(rt; write(&mut files, name, b"<longer/>"), FileWrite::Done);
    assert_eq!(rt; write(&mut files, name, b"<a/>"), FileWrite::Done);
    let text = b"<a/>".to_vec(rt.alloc())?;
    assert_eq!(rt; read(&mut files, name, 4), FileRead::Bytes(text));
    assert_eq!(rt; read(&mut files, name, 3), FileRead::TooLong);
    assert_eq!(rt; read(&mut files, directory, 4), FileRead::Failed);
    assert_eq!(rt; read(&mut files, "a\0b", 4), FileRead::Failed);
    assert_eq!(rt; write(&mut files, directory, b""), FileWrite::Failed);
    assert_eq!(rt; files.faults, 3);
    assert_eq!(rt; files.misses, 1);
    assert_eq!(rt; files.overlong, 1);
    fs::remove_file(&rt, name)?;
    Ok(())
}
