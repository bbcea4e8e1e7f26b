use super::*;
use cv_base::{ImageFail, ImageFault};
use std::test::Fail;

/// The words 05D00893, 00000513 and 00000073: exit with 0.
const EXIT: [u8; 12] = [
    0x93, 0x08, 0xd0, 0x05, 0x13, 0x05, 0x00, 0x00, 0x73, 0x00, 0x00, 0x00,
];

#[test]
fn words_are_an_image(rt: HostRuntime) -> Result<(), Fail> {
    let image = flat(rt.alloc(), &EXIT)?;
    assert_eq!(rt; image.text_base, 0x0001_0000);
    assert_eq!(rt; image.entry, 0x0001_0000);
    assert_eq!(rt;
        image.words.as_slice(),
        [0x05d0_0893, 0x0000_0513, 0x0000_0073].as_slice()
    );
    assert_eq!(rt; image.segments.len(), 1);
    let segment = image.segments.get(0).ok_or("a segment")?;
    assert_eq!(rt; segment.region.end, 0x0001_000c);
    assert!(rt; segment.region.read && segment.region.code && !segment.region.write);
    assert_eq!(rt; segment.bytes.as_slice(), EXIT.as_slice());
    Ok(())
}

#[test]
fn lengths_are_refused_by_name(rt: HostRuntime) -> Result<(), Fail> {
    let zeros = vec![in rt.alloc(); 0u8; 262_148]?;
    let rows = [
        (0, Err(ImageFail::Refused(ImageFault::Empty))),
        (1, Err(ImageFail::Refused(ImageFault::NotWords))),
        (4, Ok(1)),
        (6, Err(ImageFail::Refused(ImageFault::NotWords))),
        (262_144, Ok(65_536)),
        (262_146, Err(ImageFail::Refused(ImageFault::NotWords))),
        (262_148, Err(ImageFail::Refused(ImageFault::TextLong))),
    ];
    for (length, answer) in rows {
        assert!(rt; length <= zeros.len());
        let read = flat(rt.alloc(), &zeros[..length]);
        assert_eq!(rt; read.map(|image| image.words.len()), answer);
    }
    Ok(())
}
