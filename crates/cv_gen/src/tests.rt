use super::*;
use std::test::Fail;

#[test]
fn the_top_bits_choose_the_live_inputs(rt: HostRuntime) -> Result<(), Fail> {
    let plan = drill_plan(rt.alloc(), 2, 3)?;
    let live = plan.rounds.get(1).ok_or("a live round")?;
    let inputs = live.inputs.as_slice();
    assert_eq!(rt; inputs.len(), 3);
    assert_eq!(rt; inputs[0].as_slice(), [0x02, 0x00, 0x01, 0x00].as_slice());
    assert_eq!(rt; inputs[1].as_slice(), [0x02, 0x00, 0x01, 0x00].as_slice());
    assert_eq!(rt; inputs[2].as_slice(), [0x00, 0x00, 0x00, 0x00].as_slice());
    let plan = drill_plan(rt.alloc(), 0, 1)?;
    let live = plan.rounds.get(1).ok_or("a live round")?;
    let input = live.inputs.get(0).ok_or("an input")?;
    assert_eq!(rt; input.as_slice(), [0x24, 0x00, 0x01, 0x00].as_slice());
    Ok(())
}
