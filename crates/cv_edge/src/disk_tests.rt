use crate::{Disk, DiskFail, FileDisk, MemDisk};
use std::fs;
use std::test::Fail;

/// Writes a piece at the start, syncs, and reads as many bytes from there. Gives the length.
fn written_and_read<D: Disk>(disk: &mut D, piece: &[u8], back: &mut [u8]) -> Result<u64, DiskFail> {
    disk.write_at(0, piece)?;
    disk.sync()?;
    let len = disk.len()?;
    if back.len() as u64 <= len {
        disk.read(0, back)?;
    }
    Ok(len)
}

#[test]
fn a_disk_over_a_file_keeps_its_bytes_for_one_process_at_a_time(
    rt: HostRuntime,
) -> Result<(), Fail> {
    let mut back = [0u8; 3];
    fs::create_dir(&rt, "clearview.keep")?;
    {
        let mut folder = FileDisk::over(&rt);
        assert_eq!(rt; folder.sync(), Err(DiskFail::Failed));
    }
    fs::remove_dir(&rt, "clearview.keep")?;
    {
        let mut disk = FileDisk::over(&rt);
        assert_eq!(rt; disk.len(), Ok(0));
        assert_eq!(rt; written_and_read(&mut disk, b"abcde", &mut back), Ok(5));
        assert_eq!(rt; back, *b"abc");
        assert_eq!(rt; disk.write_at(4, b"xyz"), Ok(()));
        assert_eq!(rt; disk.write_at(1 << 62, b"x"), Err(DiskFail::Failed));
        let mut second = FileDisk::over(&rt);
        assert_eq!(rt; second.sync(), Err(DiskFail::Failed));
    }
    let bytes = fs::read(&rt, "clearview.keep")?;
    assert_eq!(rt; bytes.as_slice(), b"abcdxyz".as_slice());
    let mut again = FileDisk::over(&rt);
    assert_eq!(rt; written_and_read(&mut again, b"A", &mut back), Ok(7));
    assert_eq!(rt; back, *b"Abc");
    assert_eq!(rt; again.read(5, &mut back), Err(DiskFail::Failed));
    fs::remove_file(&rt, "clearview.keep")?;
    Ok(())
}

#[test]
fn a_disk_in_memory_fails_at_the_chosen_calls(rt: HostRuntime) -> Result<(), Fail> {
    let mut back = [0u8; 2];
    let mut disk = MemDisk::make(rt.alloc());
    disk.fail_on(2)?;
    disk.fail_on(3)?;
    assert_eq!(rt;
        written_and_read(&mut disk, b"abc", &mut back),
        Err(DiskFail::Failed)
    );
    assert_eq!(rt;
        written_and_read(&mut disk, b"xyz", &mut back),
        Err(DiskFail::Failed)
    );
    assert_eq!(rt; back, [0, 0]);
    assert_eq!(rt; written_and_read(&mut disk, b"d", &mut back), Ok(3));
    assert_eq!(rt; back, *b"db");
    Ok(())
}
