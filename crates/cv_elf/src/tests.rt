use super::*;
use byteorder::{ByteOrder, LittleEndian};
use cv_base::{ImageFail, ImageFault, NoMemory};
use std::alloc::Global;
use std::test::Fail;

/// What tells one reading from another: the text base, the number of words and of segments.
type Told = Result<(u32, usize, usize), ImageFail>;

fn told(alloc: Global, bytes: &[u8]) -> Told {
    let image = elf(alloc, bytes)?;
    Ok((image.text_base, image.words.len(), image.segments.len()))
}

fn refused(fault: ImageFault) -> Told {
    Err(ImageFail::Refused(fault))
}

/// Writes a number of four bytes, where there is room for it.
fn put(bytes: &mut [u8], at: usize, value: u32) {
    if at <= bytes.len() && bytes.len() - at >= 4 {
        LittleEndian::write_u32(&mut bytes[at..], value);
    }
}

/// A file of so many bytes with an ELF header, `count` program headers after it and the entry
/// 00010074; all other bytes are 0.
fn file(alloc: Global, length: usize, count: u32) -> Result<Vec<u8>, NoMemory> {
    let mut bytes = vec![in alloc; 0u8; length]?;
    for (at, value) in [
        (0, 0x464c_457f),
        (4, 0x0001_0101),
        (16, 0x00f3_0002),
        (24, 0x0001_0074),
        (28, 52),
        (40, 0x0020_0000),
        (44, count),
    ] {
        put(&mut bytes, at, value);
    }
    Ok(bytes)
}

/// The worked example of docs/FORMATS.md, "ELF image": a text of 32 words that holds the headers
/// too, and data of 16 bytes.
fn example(alloc: Global) -> Result<Vec<u8>, NoMemory> {
    let mut bytes = file(alloc, 132, 2)?;
    for (at, value) in [
        (52, 1),
        (60, 0x0001_0000),
        (68, 128),
        (72, 128),
        (76, 5),
        (84, 1),
        (88, 128),
        (92, 0x0001_1080),
        (100, 4),
        (104, 16),
        (108, 6),
        (116, 0x05d0_0893),
        (120, 0x0000_0513),
        (124, 0x0000_0073),
    ] {
        put(&mut bytes, at, value);
    }
    Ok(bytes)
}

#[test]
fn an_executable_is_an_image(rt: HostRuntime) -> Result<(), Fail> {
    let bytes = example(rt.alloc())?;
    let image = elf(rt.alloc(), &bytes)?;
    assert_eq!(rt; image.text_base, 0x0001_0000);
    assert_eq!(rt; image.entry, 0x0001_0074);
    assert_eq!(rt; image.words.len(), 32);
    assert_eq!(rt; image.words.get(29), Some(&0x05d0_0893));
    let text = image.segments.get(0).ok_or("a text")?;
    assert!(rt; text.region.read && text.region.code && !text.region.write);
    assert_eq!(rt; text.bytes.len(), 128);
    assert_eq!(rt; text.bytes.get(116), Some(&0x93));
    let data = image.segments.get(1).ok_or("data")?;
    assert!(rt; data.region.read && data.region.write && !data.region.code);
    assert_eq!(rt; data.region.start, 0x0001_1080);
    assert_eq!(rt; data.region.end, 0x0001_1090);
    assert_eq!(rt; data.bytes.as_slice(), [0u8; 16].as_slice());
    Ok(())
}

#[test]
fn a_cut_file_is_refused(rt: HostRuntime) -> Result<(), Fail> {
    let bytes = example(rt.alloc())?;
    for length in 0..133 {
        assert!(rt; length <= bytes.len());
        let answer = match length {
            0..=51 => refused(ImageFault::Short),
            52..=115 => refused(ImageFault::HeadersOutside),
            116..=127 => refused(ImageFault::SegmentOutside(0)),
            128..=131 => refused(ImageFault::SegmentOutside(1)),
            _ => Ok((0x0001_0000, 32, 2)),
        };
        assert_eq!(rt; told(rt.alloc(), &bytes[..length]), answer);
    }
    Ok(())
}

/// One number of the example is changed.
#[test]
fn each_test_has_its_fault(rt: HostRuntime) -> Result<(), Fail> {
    let rows = [
        // the header: name, class, encoding, version, type, machine, flags, table
        (0, 0x464c_457e, refused(ImageFault::NotElf)),
        (4, 0x0001_0102, refused(ImageFault::NotRv32Exec)),
        (4, 0x0001_0201, refused(ImageFault::NotRv32Exec)),
        (4, 0x0002_0101, refused(ImageFault::NotRv32Exec)),
        (16, 0x00f3_0003, refused(ImageFault::NotRv32Exec)),
        (16, 0x003e_0002, refused(ImageFault::NotRv32Exec)),
        (40, 0x0038_0000, refused(ImageFault::NotRv32Exec)),
        (36, 1, refused(ImageFault::Compressed)),
        (36, 8, Ok((0x0001_0000, 32, 2))),
        // a byte later the headers have the types 0 and 80000000
        (28, 53, refused(ImageFault::NoText)),
        (28, 69, refused(ImageFault::HeadersOutside)),
        (28, 0xffff_ffe0, refused(ImageFault::HeadersOutside)),
        (44, 0xffff, refused(ImageFault::HeadersOutside)),
        (44, 0, refused(ImageFault::NoText)),
        // types of headers
        (84, 2, refused(ImageFault::Dynamic)),
        (84, 3, refused(ImageFault::Dynamic)),
        (84, 0x7000_0003, Ok((0x0001_0000, 32, 1))),
        (104, 0, Ok((0x0001_0000, 32, 1))),
        // ranges in the file and in memory
        (88, 129, refused(ImageFault::SegmentOutside(1))),
        (88, 0xffff_ffff, refused(ImageFault::SegmentOutside(1))),
        (100, 17, refused(ImageFault::SegmentOutside(1))),
        (104, 0xffff_ffff, refused(ImageFault::SegmentOutside(1))),
        (60, 0xffff_ff80, refused(ImageFault::SegmentOutside(0))),
        (92, 0x0000_0fff, refused(ImageFault::SegmentOutside(1))),
        (92, 0x0000_1000, Ok((0x0001_0000, 32, 2))),
        (92, 0x003f_fff0, Ok((0x0001_0000, 32, 2))),
        (92, 0x003f_fff1, refused(ImageFault::SegmentOutside(1))),
        (92, 0x0001_007f, refused(ImageFault::SegmentsOverlap(0, 1))),
        (92, 0x0000_fff1, refused(ImageFault::SegmentsOverlap(0, 1))),
        (92, 0x0001_0080, Ok((0x0001_0000, 32, 2))),
        (92, 0x0000_fff0, Ok((0x0001_0000, 32, 2))),
        // permissions, text and entry
        (108, 7, refused(ImageFault::WritableCode(1))),
        (108, 5, refused(ImageFault::TwoTexts(0, 1))),
        (76, 4, refused(ImageFault::NoText)),
        (68, 3, refused(ImageFault::NoText)),
        (68, 119, refused(ImageFault::EntryNotText)),
        (68, 120, Ok((0x0001_0000, 30, 2))),
        (60, 0x0001_0001, Ok((0x0001_0004, 31, 2))),
        (24, 0x0001_0076, refused(ImageFault::EntryNotText)),
        (24, 0x0001_007c, Ok((0x0001_0000, 32, 2))),
        (24, 0x0001_0080, refused(ImageFault::EntryNotText)),
        (24, 0x0000_fffc, refused(ImageFault::EntryNotText)),
        (24, 0x0001_1080, refused(ImageFault::EntryNotText)),
    ];
    for (at, value, answer) in rows {
        let mut bytes = example(rt.alloc())?;
        put(&mut bytes, at, value);
        assert_eq!(rt; told(rt.alloc(), &bytes), answer, "{value:x} at {at}");
    }
    Ok(())
}

/// The table has 65,535 headers, some of which are loadable, and one may be dynamic.
#[test]
fn the_longest_table_is_read(rt: HostRuntime) -> Result<(), Fail> {
    let rows = [
        (0, 0, refused(ImageFault::NoText)),
        (64, 0, refused(ImageFault::SegmentOutside(0))),
        (65, 0, refused(ImageFault::TooManySegments)),
        (65, 65_534, refused(ImageFault::Dynamic)),
    ];
    for (loadable, dynamic, answer) in rows {
        let mut bytes = file(rt.alloc(), 52 + 32 * 65_535, 65_535)?;
        for place in 0..loadable {
            put(&mut bytes, 52 + 32 * place, 1);
            put(&mut bytes, 52 + 32 * place + 20, 1);
        }
        if dynamic != 0 {
            put(&mut bytes, 52 + 32 * dynamic, 2);
        }
        assert_eq!(rt; told(rt.alloc(), &bytes), answer);
    }
    Ok(())
}

#[test]
fn a_text_has_at_most_65536_words(rt: HostRuntime) -> Result<(), Fail> {
    let rows = [
        (262_144, Ok((0x0001_0000, 65_536, 1))),
        (262_147, Ok((0x0001_0000, 65_536, 1))),
        (262_148, refused(ImageFault::TextLong)),
    ];
    for (size, answer) in rows {
        let mut bytes = file(rt.alloc(), 300_000, 1)?;
        for (at, value) in [(52, 1), (60, 0x0001_0000), (68, size), (72, size), (76, 5)] {
            put(&mut bytes, at, value);
        }
        assert_eq!(rt; told(rt.alloc(), &bytes), answer);
    }
    Ok(())
}
