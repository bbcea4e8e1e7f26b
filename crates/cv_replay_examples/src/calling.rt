//! Plans of the indirect call (docs/REPAIR.md, "A worked example").
use cv_base::Plan;
use cv_image::flat;
use cv_job::read_job;
use std::alloc::Global;
use std::test::Fail;

/// Reads an address, and calls it.
const CALLING: [u32; 13] = [
    0x0000_0513, // addi x10, x0, 0
    0xff01_0593, // addi x11, x2, -16
    0x0040_0613, // addi x12, x0, 4
    0x03f0_0893, // addi x17, x0, 63
    0x0000_0073, // ecall (read)
    0xff01_2303, // lw x6, -16(x2)
    0x0003_00e7, // jalr x1, 0(x6)
    0x05d0_0893, // addi x17, x0, 93
    0x0000_0073, // ecall (exit)
    0x0070_0513, // addi x10, x0, 7
    0x0000_8067, // jalr x0, 0(x1)
    0x0090_0513, // addi x10, x0, 9
    0x0000_8067, // jalr x0, 0(x1)
];

/// Two good calls; then four bad ones, the last of which is repaired.
pub(crate) const FOUR_FAILURES: &str =
    r#"{"image":"calling","workers":1,"checks":2,"budget":1000,"rounds":[
{"mode":"learn","inputs":["24000100","2C000100"]},
{"mode":"live","inputs":["00000000","00000000","00000000","34000100"]}]}"#;

/// Two good calls; then one that calls its own call until its turns are used up.
pub(crate) const LOOP: &str = r#"{"image":"calling","workers":1,"checks":2,"budget":1000,"rounds":[
{"mode":"learn","inputs":["24000100","2C000100"]},
{"mode":"live","inputs":["18000100"]}]}"#;

/// The plan of a job.
pub(crate) fn plan_of(alloc: Global, job: &str) -> Result<Plan, Fail> {
    let mut bytes = Vec::new(alloc);
    for word in &CALLING {
        bytes.extend_from_slice(&word.to_le_bytes())?;
    }
    let image = flat(alloc, bytes.as_slice())?;
    Ok(read_job(alloc, job.as_bytes())?.into_plan(image))
}
