use crate::{KeepEnd, KeepFail, recover};
use cv_base::Items;
use cv_edge::{Disk, FileDisk, MemDisk};
use std::alloc::Global;
use std::fs;
use std::test::Fail;

/// Recovers the disk, and keeps the pieces `ab` and `c`.
fn keep_two<D: Disk>(alloc: Global, disk: &mut D) -> Result<KeepEnd, KeepFail> {
    let (mut keep, _) = recover(alloc, disk)?;
    match keep.keep(disk, b"ab")? {
        KeepEnd::TooLong => Ok(KeepEnd::TooLong),
        KeepEnd::Kept => keep.keep(disk, b"c"),
    }
}

/// The answer of `keep_two` where the call of this number fails, and the pieces on the disk then.
fn after_failing(
    alloc: Global,
    call: u32,
) -> Result<(Result<KeepEnd, KeepFail>, Vec<Items<u8>>), KeepFail> {
    let mut disk = MemDisk::make(alloc);
    disk.fail_on(call)?;
    let answer = keep_two(alloc, &mut disk);
    let (_, pieces) = recover(alloc, &mut disk)?;
    Ok((answer, pieces))
}

fn piece_at(pieces: &[Items<u8>], at: usize) -> &[u8] {
    match pieces.get(at) {
        Some(piece) => piece.as_slice(),
        None => &[],
    }
}

// Calls 1 to 5 are those of `recover`: sync, len, read, write 00, sync. The first piece takes the
// calls 6 to 11, the second one 12 to 17: length, piece, 00, sync, 01, sync. A write that fails in
// memory leaves nothing, and the byte 01 counts from the moment it is written.
#[test]
fn whichever_call_fails_the_pieces_that_were_kept_are_there(rt: HostRuntime) -> Result<(), Fail> {
    for call in 1..18 {
        let (answer, pieces) = after_failing(rt.alloc(), call)?;
        let (count, first, second): (usize, &[u8], &[u8]) = match call {
            0..=10 => (0, b"", b""),
            11..=16 => (1, b"ab", b""),
            _ => (2, b"ab", b"c"),
        };
        assert_eq!(rt; answer, Err(KeepFail::DiskFault), "{call}");
        assert_eq!(rt; pieces.len(), count, "{call}");
        assert_eq!(rt; piece_at(pieces.as_slice(), 0), first, "{call}");
        assert_eq!(rt; piece_at(pieces.as_slice(), 1), second, "{call}");
    }
    Ok(())
}

#[test]
fn a_file_holds_gate_length_and_bytes_of_each_piece(rt: HostRuntime) -> Result<(), Fail> {
    let mut disk = FileDisk::over(&rt);
    assert_eq!(rt; keep_two(rt.alloc(), &mut disk), Ok(KeepEnd::Kept));
    let bytes = fs::read(&rt, "clearview.keep")?;
    let wanted = b"\x01\x02\0\0\0ab\x01\x01\0\0\0c\0";
    assert_eq!(rt; bytes.as_slice(), wanted.as_slice());
    Ok(())
}

// A piece of one byte, an empty piece with another gate, and a frame that lacks a byte.
#[test]
fn a_torn_piece_is_dropped_and_its_gate_is_closed(rt: HostRuntime) -> Result<(), Fail> {
    let torn = b"\x01\x01\0\0\0a\xff\0\0\0\0\x01\x02\0\0\0b";
    fs::write(&rt, "clearview.keep", torn.as_slice())?;
    let mut disk = FileDisk::over(&rt);
    let (_, pieces) = recover(rt.alloc(), &mut disk)?;
    assert_eq!(rt; pieces.len(), 2);
    assert_eq!(rt; piece_at(pieces.as_slice(), 0), b"a".as_slice());
    assert_eq!(rt; piece_at(pieces.as_slice(), 1), b"".as_slice());
    let bytes = fs::read(&rt, "clearview.keep")?;
    let wanted = b"\x01\x01\0\0\0a\xff\0\0\0\0\0\x02\0\0\0b";
    assert_eq!(rt; bytes.as_slice(), wanted.as_slice());
    Ok(())
}
