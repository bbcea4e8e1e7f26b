use crate::{EntryRule, TextMap};
use cv_base::Image;
use cv_image::flat;
use std::alloc::Global;
use std::test::Fail;

/// A program at 00010000 with a call, a jump, a return and a word that is no instruction.
const PROGRAM: [u32; 18] = [
    0x0010_0293, // addi x5, x0, 1
    0x0072_8333, // add x6, x5, x7
    0x00c0_00ef, // jal x1, 00010014
    0x0003_0513, // addi x10, x6, 0
    0xffdf_f06f, // jal x0, 0001000C
    0x0041_2403, // lw x8, 4(x2)
    0x0084_a023, // sw x8, 0(x9)
    0x0000_0000, // no instruction
    0x0000_8067, // jalr x0, 0(x1)
    0x0006_0013, // addi x0, x12, 0
    0x0006_8013, // addi x0, x13, 0
    0x0007_0013, // addi x0, x14, 0
    0x0007_8013, // addi x0, x15, 0
    0x0008_0013, // addi x0, x16, 0
    0x0008_8013, // addi x0, x17, 0
    0x0009_0013, // addi x0, x18, 0
    0x0009_8013, // addi x0, x19, 0
    0x000a_0013, // addi x0, x20, 0
];

fn image_of(alloc: Global, words: &[u32]) -> Result<Image, Fail> {
    let mut bytes = Vec::new(alloc);
    for word in words {
        bytes.extend_from_slice(&word.to_le_bytes())?;
    }
    Ok(flat(alloc, bytes.as_slice())?)
}

#[test]
fn windows_and_procedures_of_a_small_program(rt: HostRuntime) -> Result<(), Fail> {
    let alloc = rt.alloc();
    let image = image_of(alloc, &PROGRAM)?;
    let map = TextMap::make(alloc, &image)?.copied(alloc)?;
    // point, registers read, registers of the window, start and end of the procedure
    let rows: [(u32, u32, u32, u32, u32); 12] = [
        (0x10000, 0, 0, 0x10000, 0x10014),
        (0x10004, 0x0000_00a0, 0x0000_00a0, 0x10000, 0x10014),
        (0x10008, 0, 0x0000_00a0, 0x10000, 0x10014),
        (0x1000c, 0x0000_0040, 0x0000_0040, 0x10000, 0x10014),
        (0x10010, 0, 0x0000_0040, 0x10000, 0x10014),
        (0x10014, 0x0000_0004, 0x0000_0004, 0x10014, 0x10048),
        (0x10018, 0x0000_0300, 0x0000_0304, 0x10014, 0x10048),
        (0x1001c, 0, 0x0000_0304, 0x10014, 0x10048),
        (0x10020, 0x0000_0002, 0x0000_0306, 0x10014, 0x10048),
        (0x10024, 0x0000_1000, 0x0000_1000, 0x10014, 0x10048),
        (0x10040, 0x0008_0000, 0x000f_f000, 0x10014, 0x10048),
        (0x10044, 0x0010_0000, 0x001f_e000, 0x10014, 0x10048),
    ];
    for (point, reads, window, start, end) in rows {
        assert!(rt; map.is_point(point));
        assert_eq!(rt; map.reads(point).bits, reads);
        assert_eq!(rt; map.window(point).bits, window);
        assert_eq!(rt; map.proc_of(point), start);
        assert_eq!(rt; map.proc_end(point), end);
        assert_eq!(rt; map.inst(point).is_none(), point == 0x1001c);
    }
    assert!(rt; !map.is_point(0x10048));
    Ok(())
}

#[test]
fn block_entries_of_a_straight_run(rt: HostRuntime) -> Result<(), Fail> {
    let mut rule = EntryRule::make();
    for turn in 0..200u32 {
        let wanted = turn == 0 || turn == 64 || turn == 100 || turn == 164;
        assert_eq!(rt; rule.next(turn == 100), wanted);
    }
    Ok(())
}
