use super::*;
use std::test::Fail;

#[test]
fn rows_are_counted(rt: HostRuntime) -> Result<(), Fail> {
    let mut meter = Meter::new();
    meter.count_row();
    meter.count_row();
    assert_eq!(rt; meter.rows_read, 2);
    assert_eq!(rt; meter.frames_written, 0);
    Ok(())
}

#[test]
fn frames_serve_again(rt: HostRuntime) -> Result<(), Fail> {
    let mut pool: Pool<u64> = Pool::new(rt.alloc());
    let mut meter = Meter::new();
    pool.reserve(2)?;
    let first = pool.take(&[1, 2, 3], &mut meter);
    pool.share(first);
    assert_eq!(rt; pool.count(first), 2);
    pool.release(first);
    pool.rewrite(first, &[4, 5], &mut meter);
    pool.rewrite_item(first, 1, 6, &mut meter);
    assert_eq!(rt; pool.items(first), [4, 6].as_slice());
    assert_eq!(rt; pool.spare(), 1);
    assert_eq!(rt; pool.used(), 1);
    pool.release(first);
    assert_eq!(rt; pool.spare(), 2);
    assert_eq!(rt; pool.made(), 2);
    assert_eq!(rt; meter.frames_written, 3);
    Ok(())
}
