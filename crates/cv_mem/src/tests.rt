use crate::{MemFault, Space};
use cv_base::{Image, Items, NoMemory, Region, Segment};
use std::alloc::Global;
use std::test::Fail;

/// Two words of text and two bytes of data behind them, and four bytes that can be written.
fn image(alloc: Global) -> Result<Image, NoMemory> {
    let text = Items::from_slice(alloc, [0x13u8, 0, 0, 0, 0x6f, 0, 0, 0, 1, 2].as_slice())?;
    let data = Items::from_slice(alloc, [9u8, 8, 7, 6].as_slice())?;
    let words = Items::from_slice(alloc, [0x13u32, 0x6f].as_slice())?;
    let mut segments = Vec::new(alloc);
    segments.push(Segment {
        region: Region {
            start: 0x1000,
            end: 0x100a,
            read: true,
            write: false,
            code: true,
        },
        bytes: text,
    })?;
    segments.push(Segment {
        region: Region {
            start: 0x100a,
            end: 0x100e,
            read: true,
            write: true,
            code: false,
        },
        bytes: data,
    })?;
    Ok(Image {
        text_base: 0x1000,
        words,
        segments: Items::from_vec(segments),
        entry: 0x1000,
    })
}

#[test]
fn a_copy_holds_what_the_run_stored(rt: HostRuntime) -> Result<(), Fail> {
    let image = image(rt.alloc())?;
    let mut space = Space::make(rt.alloc(), &image)?;
    assert_eq!(rt; space.load(0x1008, 4), Ok(0x0809_0201));
    assert_eq!(rt; space.load(0x100c, 4), Err(MemFault::Unreadable));
    assert_eq!(rt; space.store(0x100a, 2, 0xabcd), Ok(()));
    assert_eq!(rt; space.store(0x1008, 4, 1), Err(MemFault::Code));
    assert_eq!(rt; space.store(0x007f_fffc, 4, 0x0102_0304), Ok(()));
    let copy = space.copied(rt.alloc())?;
    assert_eq!(rt; copy.load(0x100a, 2), Ok(0xabcd));
    assert_eq!(rt; copy.load(0x007f_fffe, 2), Ok(0x0102));
    assert!(rt; copy.readable(0x1000, 14));
    assert!(rt; !copy.readable(0x1000, 0xffff_ffff));
    Ok(())
}

#[test]
fn reset_puts_back_data_and_stack(rt: HostRuntime) -> Result<(), Fail> {
    let image = image(rt.alloc())?;
    let mut space = Space::make(rt.alloc(), &image)?;
    assert_eq!(rt; space.store(0x100a, 2, 0xabcd), Ok(()));
    space.fill(0x006f_fffe, [1u8, 2, 3, 4].as_slice());
    space.reset();
    assert_eq!(rt; space.load(0x1008, 4), Ok(0x0809_0201));
    assert_eq!(rt; space.load(0x0070_0000, 4), Ok(0));
    assert_eq!(rt; space.load(0x006f_fffc, 4), Ok(0));
    Ok(())
}
