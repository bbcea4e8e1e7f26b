use crate::{AsmFail, AsmFault, LineFault, assemble, listing};
use std::test::Fail;

/// The assembly example: words of small sources, and two refusals.
#[test]
fn exit_program(rt: HostRuntime) -> Result<(), Fail> {
    let words = assemble(rt.alloc(), b"addi x17,x0,93\naddi x10,x0,0\necall\n")?;
    assert_eq!(rt;
        words.as_slice(),
        [0x05d0_0893, 0x0000_0513, 0x0000_0073].as_slice()
    );
    Ok(())
}

#[test]
fn forward_label(rt: HostRuntime) -> Result<(), Fail> {
    let words = assemble(rt.alloc(), b"beq x0,x0,out\nout: ebreak\n")?;
    assert_eq!(rt; words.as_slice(), [0x0000_0263, 0x0010_0073].as_slice());
    Ok(())
}

#[test]
fn label_of_itself(rt: HostRuntime) -> Result<(), Fail> {
    let words = assemble(rt.alloc(), b"loop: beq x0 x0 loop\n")?;
    assert_eq!(rt; words.as_slice(), [0x0000_0063].as_slice());
    Ok(())
}

#[test]
fn number_out_of_range(rt: HostRuntime) {
    let fault = LineFault::OutOfRange(3);
    let refused = assemble(rt.alloc(), b"addi x1,x2,2048\n").err();
    assert!(rt; refused == Some(AsmFail::Refused(AsmFault { line: 1, fault })));
}

#[test]
fn label_that_no_line_defines(rt: HostRuntime) -> Result<(), Fail> {
    let fault = LineFault::UnknownLabel(2);
    let refused = assemble(rt.alloc(), b"jal x0,there\n").err();
    assert!(rt; refused == Some(AsmFail::Refused(AsmFault { line: 1, fault })));
    let text = format!(in rt.alloc(); "{}", AsmFault { line: 1, fault })?;
    assert_eq!(rt; text.as_str(), "line 1 unknown-label 2");
    Ok(())
}

/// The listing example: a jump to itself, a load, a call by register, and a word that means nothing.
#[test]
fn four_words_listed(rt: HostRuntime) -> Result<(), Fail> {
    let text = listing(rt.alloc(), &[0x0000_006f, 0xff01_2303, 0x0003_00e7, 0])?;
    let wanted = b"jal x0,0\nlw x6,-16(x2)\njalr x1,0(x6)\n.word 0x00000000\n";
    assert_eq!(rt; text.as_slice(), wanted.as_slice());
    Ok(())
}
