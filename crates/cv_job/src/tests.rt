// Jobs beside what is read of them: a plan's line, or why they are refused. An image of one word
// stands for the one that the job names.
use crate::{JobFail, job_line, read_job};
use cv_base::{Image, Items, Mode, NoMemory, Region, Segment};
use std::alloc::Global;
use std::test::Fail;

const SAMPLE: &str =
    r#"{"image":"p.bin","workers":1,"checks":2,"budget":1000,"rounds":[{"mode":"learn","inputs":["24000100","2C000100"]},{"mode":"live","inputs":["00000000","00000000","00000000","00000000"]}]}"#;

// The members of a small job, each with its comma.
static MEMBERS: [(&str, &str); 5] = [
    ("image", r#""image":"p.bin","#),
    ("workers", r#""workers":1,"#),
    ("checks", r#""checks":2,"#),
    ("budget", r#""budget":9,"#),
    ("rounds", r#""rounds":[{"mode":"live","inputs":["00"]}],"#),
];

const LINE: &str = "job workers 1 checks 2 budget 9 rounds 1 runs 1";

// Whole texts.
static TEXTS: [(&str, &str); 26] = [
    (SAMPLE, "job workers 1 checks 2 budget 1000 rounds 2 runs 6"),
    ("", "not-json"),
    (" \n\t", "not-json"),
    ("{", "not-json"),
    ("{}{}", "not-json"),
    ("{},", "not-json"),
    (r#"{'image':1}"#, "not-json"),
    (r#"{"x":1e400}"#, "not-json"),
    (r#"{"x":01}"#, "not-json"),
    (r#"{"x":"\ud800"}"#, "not-json"),
    (r#"{"x":"\q"}"#, "not-json"),
    ("[]", "not-object"),
    ("[{}]", "not-object"),
    ("null", "not-object"),
    ("1", "not-object"),
    (r#""x""#, "not-object"),
    ("{}", "field image"),
    (
        r#"{"image":"","workers":0,"checks":0,"budget":0,"rounds":[]}"#,
        "field image",
    ),
    (
        r#"{"image":"p","workers":0,"checks":0,"budget":0,"rounds":[]}"#,
        "field workers",
    ),
    (
        r#"{"rounds":[],"budget":0,"checks":0,"workers":0,"image":"p"}"#,
        "field workers",
    ),
    (
        r#"{"image":"p","workers":1,"checks":0,"budget":0,"rounds":[]}"#,
        "field checks",
    ),
    (
        r#"{"image":"p","workers":1,"checks":2,"budget":0,"rounds":[]}"#,
        "field budget",
    ),
    (
        r#"{"image":"p","workers":1,"checks":2,"budget":1,"rounds":[]}"#,
        "field rounds",
    ),
    (
        r#"{"image":"","workers":0,"checks":0,"budget":0,"rounds":[]}}"#,
        "not-json",
    ),
    (
        r#" { "\u0069mage" : "p", "workers":1, "checks":2, "budget":9, "rounds":[{"mode":"live","inputs":["\u00300"]}] } "#,
        LINE,
    ),
    (
        r#"{"image":"p","workers":1,"checks":2,"budget":9,"rounds":[{"mode":"live","inputs":["00"]}],"x":"\ud800"}"#,
        "not-json",
    ),
];

// The small job with another text in place of one member.
static CHANGED: [(&str, &str, &str); 74] = [
    ("image", "", "field image"),
    ("image", r#""image":"","#, "field image"),
    ("image", r#""image":7,"#, "field image"),
    ("image", r#""image":null,"#, "field image"),
    ("image", r#""Image":"p.bin","#, "field image"),
    ("image", r#""image":"é","#, LINE),
    ("workers", "", "field workers"),
    ("workers", r#""workers":0,"#, "field workers"),
    (
        "workers",
        r#""workers":16,"#,
        "job workers 16 checks 2 budget 9 rounds 1 runs 1",
    ),
    ("workers", r#""workers":17,"#, "field workers"),
    ("workers", r#""workers":1.0,"#, "field workers"),
    ("workers", r#""workers":1e0,"#, "field workers"),
    ("workers", r#""workers":-0,"#, "field workers"),
    ("workers", r#""workers":-1,"#, "field workers"),
    ("workers", r#""workers":"1","#, "field workers"),
    ("workers", r#""workers":true,"#, "field workers"),
    ("workers", r#""workers":[1],"#, "field workers"),
    ("workers", r#""workers":4294967297,"#, "field workers"),
    (
        "workers",
        r#""workers":18446744073709551616,"#,
        "field workers",
    ),
    (
        "workers",
        r#""workers":18446744073709551617,"#,
        "field workers",
    ),
    (
        "workers",
        r#""workers":99,"workers":3,"#,
        "job workers 3 checks 2 budget 9 rounds 1 runs 1",
    ),
    ("workers", r#""workers":3,"workers":99,"#, "field workers"),
    ("checks", "", "field checks"),
    ("checks", r#""checks":1,"#, "field checks"),
    (
        "checks",
        r#""checks":8,"#,
        "job workers 1 checks 8 budget 9 rounds 1 runs 1",
    ),
    ("checks", r#""checks":9,"#, "field checks"),
    ("checks", r#""checks":null,"#, "field checks"),
    ("budget", "", "field budget"),
    ("budget", r#""budget":0,"#, "field budget"),
    (
        "budget",
        r#""budget":1,"#,
        "job workers 1 checks 2 budget 1 rounds 1 runs 1",
    ),
    (
        "budget",
        r#""budget":10000000,"#,
        "job workers 1 checks 2 budget 10000000 rounds 1 runs 1",
    ),
    ("budget", r#""budget":10000001,"#, "field budget"),
    ("budget", r#""budget":9.5,"#, "field budget"),
    ("rounds", "", "field rounds"),
    ("rounds", r#""rounds":[],"#, "field rounds"),
    ("rounds", r#""rounds":{},"#, "field rounds"),
    ("rounds", r#""rounds":null,"#, "field rounds"),
    ("rounds", r#""rounds":[1],"#, "field rounds"),
    ("rounds", r#""rounds":[["live",["00"]]],"#, "field rounds"),
    (
        "rounds",
        r#""rounds":[{"mode":"live","inputs":["00"]},{}],"#,
        "field rounds",
    ),
    ("rounds", r#""rounds":[{"inputs":["00"]}],"#, "field rounds"),
    (
        "rounds",
        r#""rounds":[{"mode":"Live","inputs":["00"]}],"#,
        "field rounds",
    ),
    (
        "rounds",
        r#""rounds":[{"mode":"check","inputs":["00"]}],"#,
        "field rounds",
    ),
    (
        "rounds",
        r#""rounds":[{"mode":"","inputs":["00"]}],"#,
        "field rounds",
    ),
    (
        "rounds",
        r#""rounds":[{"mode":null,"inputs":["00"]}],"#,
        "field rounds",
    ),
    ("rounds", r#""rounds":[{"mode":"live"}],"#, "field rounds"),
    (
        "rounds",
        r#""rounds":[{"mode":"live","inputs":[]}],"#,
        "field rounds",
    ),
    (
        "rounds",
        r#""rounds":[{"mode":"live","inputs":"00"}],"#,
        "field rounds",
    ),
    (
        "rounds",
        r#""rounds":[{"mode":"live","inputs":[0]}],"#,
        "field rounds",
    ),
    (
        "rounds",
        r#""rounds":[{"mode":"live","inputs":["00",null]}],"#,
        "field rounds",
    ),
    (
        "rounds",
        r#""rounds":[{"mode":"live","inputs":["2"]}],"#,
        "field rounds",
    ),
    (
        "rounds",
        r#""rounds":[{"mode":"live","inputs":["000"]}],"#,
        "field rounds",
    ),
    (
        "rounds",
        r#""rounds":[{"mode":"live","inputs":["0g"]}],"#,
        "field rounds",
    ),
    (
        "rounds",
        r#""rounds":[{"mode":"live","inputs":["0x00"]}],"#,
        "field rounds",
    ),
    (
        "rounds",
        r#""rounds":[{"mode":"live","inputs":["00 00"]}],"#,
        "field rounds",
    ),
    (
        "rounds",
        r#""rounds":[{"mode":"live","inputs":["  "]}],"#,
        "field rounds",
    ),
    (
        "rounds",
        r#""rounds":[{"mode":"live","inputs":["none"]}],"#,
        "field rounds",
    ),
    (
        "rounds",
        r#""rounds":[{"mode":"live","inputs":["00"]},{"mode":"live","inputs":["0"]}],"#,
        "field rounds",
    ),
    (
        "rounds",
        r#""rounds":[{"mode":"learn","inputs":["",""]},{"inputs":["FFff"],"mode":"live","x":1}],"#,
        "job workers 1 checks 2 budget 9 rounds 2 runs 3",
    ),
    (
        "rounds",
        r#""rounds":[{"mode":"x","inputs":["00"],"mode":"learn"}],"#,
        LINE,
    ),
    ("none", "", LINE),
    ("image", r#""other":[null,-1.5e-3,{}],"image":"q","#, LINE),
    ("image", r#""x":"\udc00x","image":"q","#, "not-json"),
    ("image", r#""x":+1,"image":"q","#, "not-json"),
    ("image", r#""x":1.,"image":"q","#, "not-json"),
    ("image", r#""x":.5,"image":"q","#, "not-json"),
    ("image", r#""x":NaN,"image":"q","#, "not-json"),
    ("image", r#""x":True,"image":"q","#, "not-json"),
    ("image", r#"x:1,"image":"q","#, "not-json"),
    ("image", r#",,"image":"q","#, "not-json"),
    ("image", "\"image\":\"a\tb\",", "not-json"),
    ("image", "/* job */ \"image\":\"q\",", "not-json"),
    (
        "rounds",
        r#""rounds":[{"mode":"live","inputs":["00"]],"#,
        "not-json",
    ),
    (
        "rounds",
        r#""rounds":[{"mode":"live","inputs":["00"]}"#,
        "not-json",
    ),
];

// The same with a text that holds a part many times: the member, what stands before the part, the
// part, how often it stands, and what stands behind it.
static LONG: [(&str, &str, &str, usize, &str, &str); 16] = [
    ("image", r#""image":""#, "a", 4096, r#"","#, LINE),
    ("image", r#""image":""#, "a", 4097, r#"","#, "field image"),
    ("image", r#""image":""#, "é", 2048, r#"","#, LINE),
    ("image", r#""image":""#, "é", 2049, r#"","#, "field image"),
    ("image", r#""x":"#, "[", 300, "", "not-json"),
    ("image", "", "[", 100_000, "", "not-json"),
    ("workers", r#""workers":"#, "9", 1000, ",", "not-json"),
    ("workers", r#""workers":"#, "9", 100, ",", "field workers"),
    (
        "rounds",
        r#""rounds":[{"mode":"live","inputs":[""#,
        "aB",
        65_536,
        r#""]}],"#,
        LINE,
    ),
    (
        "rounds",
        r#""rounds":[{"mode":"live","inputs":[""#,
        "aB",
        65_537,
        r#""]}],"#,
        "field rounds",
    ),
    (
        "rounds",
        r#""rounds":["#,
        r#"{"mode":"live","inputs":["00"]},"#,
        63,
        r#"{"mode":"live","inputs":["00"]}],"#,
        "job workers 1 checks 2 budget 9 rounds 64 runs 64",
    ),
    (
        "rounds",
        r#""rounds":["#,
        r#"{"mode":"live","inputs":["00"]},"#,
        64,
        r#"{"mode":"live","inputs":["00"]}],"#,
        "field rounds",
    ),
    (
        "rounds",
        r#""rounds":[{"mode":"learn","inputs":["#,
        r#""00","#,
        1023,
        r#""00"]}],"#,
        "job workers 1 checks 2 budget 9 rounds 1 runs 1024",
    ),
    (
        "rounds",
        r#""rounds":[{"mode":"learn","inputs":["#,
        r#""00","#,
        1024,
        r#""00"]}],"#,
        "too-many-runs",
    ),
    (
        "rounds",
        r#""rounds":[{"mode":"learn","inputs":["00"]},{"mode":"live","inputs":["#,
        r#""","#,
        1023,
        r#"""]}],"#,
        "too-many-runs",
    ),
    (
        "rounds",
        r#""rounds":[{"mode":"learn","inputs":["#,
        r#""00","#,
        1024,
        r#""0"]}],"#,
        "field rounds",
    ),
];

fn one_word_image(alloc: Global) -> Result<Image, NoMemory> {
    let region = Region {
        start: 0x1_0000,
        end: 0x1_0004,
        read: true,
        write: false,
        code: true,
    };
    let bytes = Items::from_slice(alloc, &[0x73, 0, 0, 0])?;
    let mut segments = Vec::new(alloc);
    segments.push(Segment { region, bytes })?;
    Ok(Image {
        text_base: 0x1_0000,
        words: Items::from_slice(alloc, &[0x73])?,
        segments: Items::from_vec(segments),
        entry: 0x1_0000,
    })
}

fn answer(alloc: Global, image: &Image, job: &[u8]) -> Result<String, NoMemory> {
    match read_job(alloc, job) {
        Ok(job) => {
            let plan = job.into_plan(image.copied(alloc)?);
            job_line(alloc, &plan)
        }
        Err(JobFail::Refused(fault)) => Ok(fault.to_string(alloc)?),
        Err(JobFail::NoMemory) => Err(NoMemory),
    }
}

fn changed(alloc: Global, field: &str, text: &str) -> Result<String, NoMemory> {
    let mut job = String::from_str(alloc, "{")?;
    for (name, member) in &MEMBERS {
        job.push_str(if *name == field { text } else { member })?;
    }
    job.push_str("\"z\":0}")?;
    Ok(job)
}

fn long_text(
    alloc: Global,
    before: &str,
    part: &str,
    count: usize,
    behind: &str,
) -> Result<String, NoMemory> {
    let mut text = String::from_str(alloc, before)?;
    for _ in 0..count {
        text.push_str(part)?;
    }
    text.push_str(behind)?;
    Ok(text)
}

#[test]
fn texts_are_read_or_refused(rt: HostRuntime) -> Result<(), Fail> {
    let image = one_word_image(rt.alloc())?;
    for (text, line) in &TEXTS {
        let said = answer(rt.alloc(), &image, text.as_bytes())?;
        assert_eq!(rt; said.as_str(), *line, "at {text}");
    }
    Ok(())
}

#[test]
fn a_changed_job_is_read_or_refused(rt: HostRuntime) -> Result<(), Fail> {
    let image = one_word_image(rt.alloc())?;
    for (field, text, line) in &CHANGED {
        let job = changed(rt.alloc(), field, text)?;
        let said = answer(rt.alloc(), &image, job.as_bytes())?;
        assert_eq!(rt; said.as_str(), *line, "at {text}");
    }
    Ok(())
}

#[test]
fn a_long_job_is_read_or_refused(rt: HostRuntime) -> Result<(), Fail> {
    let image = one_word_image(rt.alloc())?;
    for (field, before, part, count, behind, line) in &LONG {
        let text = long_text(rt.alloc(), before, part, *count, behind)?;
        let job = changed(rt.alloc(), field, text.as_str())?;
        let said = answer(rt.alloc(), &image, job.as_bytes())?;
        assert_eq!(rt; said.as_str(), *line, "at {count} of {part}");
    }
    Ok(())
}

#[test]
fn a_part_of_a_job_is_no_json(rt: HostRuntime) -> Result<(), Fail> {
    let image = one_word_image(rt.alloc())?;
    let job = SAMPLE.as_bytes();
    for length in 0..job.len() {
        let said = answer(rt.alloc(), &image, &job[..length])?;
        assert_eq!(rt; said.as_str(), "not-json", "at {length} bytes");
    }
    let not_utf8 = answer(rt.alloc(), &image, b"{\"x\":\"\xff\"}")?;
    assert_eq!(rt; not_utf8.as_str(), "not-json");
    Ok(())
}

#[test]
fn the_sample_job_is_read(rt: HostRuntime) -> Result<(), Fail> {
    let job = read_job(rt.alloc(), SAMPLE.as_bytes())?;
    assert_eq!(rt; job.image.as_str(), "p.bin");
    assert_eq!(rt; (job.workers, job.checks, job.budget), (1, 2, 1000));
    assert_eq!(rt; job.rounds.len(), 2);
    let learn = job.rounds.get(0).ok_or("a round")?;
    assert_eq!(rt; learn.mode, Mode::Learn);
    let input = learn.inputs.get(1).ok_or("an input")?;
    assert_eq!(rt; input.as_slice(), [0x2C, 0, 1, 0].as_slice());
    Ok(())
}
