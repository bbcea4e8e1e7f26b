use crate::{
    Failed, FetchFail, Fetched, FileStore, MemSink, MemStore, Sink, StdSink, Store, SureSink,
    write_all,
};
use std::io::Write;
use std::test::Fail;
use std::{fs, io};

const MISSING: &str = "missing";

const WHOLE: &str = "whole";

const LONGER: &str = "longer";

const FAILED: &str = "failed";

const NO_MEMORY: &str = "no memory";

fn kind_of(answer: &Result<Fetched, FetchFail>) -> &'static str {
    match answer {
        Ok(Fetched::Missing) => MISSING,
        Ok(Fetched::Whole(_)) => WHOLE,
        Ok(Fetched::Longer(_)) => LONGER,
        Err(FetchFail::Failed) => FAILED,
        Err(FetchFail::NoMemory) => NO_MEMORY,
    }
}

fn bytes_of(answer: &Result<Fetched, FetchFail>) -> &[u8] {
    match answer {
        Ok(Fetched::Whole(bytes)) => bytes.as_slice(),
        Ok(Fetched::Longer(bytes)) => bytes.as_slice(),
        _ => &[],
    }
}

#[test]
fn a_store_in_memory_answers_by_name_limit_and_call(rt: HostRuntime) -> Result<(), Fail> {
    let mut store = MemStore::make(rt.alloc());
    store.put("a", b"old")?;
    store.put("a", b"xyz")?;
    store.put("empty", b"")?;
    store.fail_on(4)?;
    store.fail_on(6)?;
    let fetches: [(&str, u32, &str, &[u8]); 8] = [
        ("a", 3, WHOLE, b"xyz"),
        ("a", 2, LONGER, b"xyz"),
        ("a", 1, LONGER, b"xy"),
        ("a", 3, FAILED, b""),
        ("b", 3, MISSING, b""),
        ("b", 3, FAILED, b""),
        ("empty", 0, WHOLE, b""),
        ("a", 4, WHOLE, b"xyz"),
    ];
    for (name, limit, kind, bytes) in fetches {
        let answer = store.fetch(rt.alloc(), name, limit);
        assert_eq!(rt; kind_of(&answer), kind, "{name} {limit}");
        assert_eq!(rt; bytes_of(&answer), bytes, "{name} {limit}");
    }
    Ok(())
}

#[test]
fn a_sink_in_memory_takes_pieces_until_it_fails_or_is_full(rt: HostRuntime) -> Result<(), Fail> {
    let text = b"0123456789abcdefghijklmno";
    let mut sink = MemSink::make(rt.alloc(), 60, 10)?;
    sink.fail_on(2)?;
    assert_eq!(rt; write_all(&mut sink, text), Err(Failed));
    assert_eq!(rt; sink.bytes(), b"0123456789".as_slice());
    assert_eq!(rt; write_all(&mut sink, text), Ok(()));
    assert_eq!(rt;
        sink.bytes(),
        b"01234567890123456789abcdefghijklmno".as_slice()
    );
    assert_eq!(rt; write_all(&mut sink, text), Ok(()));
    assert_eq!(rt; sink.bytes().len(), 60);
    assert_eq!(rt; write_all(&mut sink, b""), Ok(()));
    assert_eq!(rt; write_all(&mut sink, text), Err(Failed));
    assert_eq!(rt; sink.bytes().len(), 60);
    Ok(())
}

#[test]
fn a_store_of_files_tells_a_missing_file_from_a_fault(rt: HostRuntime) -> Result<(), Fail> {
    fs::write(&rt, "abc", "abc")?;
    fs::write(&rt, "empty", "")?;
    fs::create_dir_all(&rt, "folder")?;
    let long = vec![in rt.alloc(); 7u8; 9000]?;
    fs::write(&rt, "long", long.as_slice())?;
    let name_too_long = str::from_utf8(&[b'n'; 300]).unwrap_or("");
    let mut store = FileStore::over(&rt);
    let fetches: [(&str, u32, &str, &[u8]); 12] = [
        ("none", 3, MISSING, b""),
        ("folder/none", 3, MISSING, b""),
        ("abc", 3, WHOLE, b"abc"),
        ("abc", 2, LONGER, b"abc"),
        ("abc", 1, LONGER, b"ab"),
        ("empty", 0, WHOLE, b""),
        ("long", 9000, WHOLE, long.as_slice()),
        ("long", 8999, LONGER, long.as_slice()),
        ("folder", 3, FAILED, b""),
        ("abc/none", 3, FAILED, b""),
        ("a\0c", 3, FAILED, b""),
        (name_too_long, 3, FAILED, b""),
    ];
    for (name, limit, kind, bytes) in fetches {
        let answer = store.fetch(rt.alloc(), name, limit);
        assert_eq!(rt; kind_of(&answer), kind, "{name} {limit}");
        assert_eq!(rt; bytes_of(&answer), bytes, "{name} {limit}");
    }
    Ok(())
}

/// A writer that takes nothing.
#[derive(Drop)]
struct Sated;

impl Write for Sated {
    fn write(&mut self, _buf: &[u8]) -> io::Result<usize> {
        Ok(0)
    }

    fn flush(&mut self) -> io::Result<()> {
        Ok(())
    }
}

#[test]
fn a_sink_over_a_writer_writes_or_fails(rt: HostRuntime) -> Result<(), Fail> {
    {
        let mut sink = StdSink::over(fs::create(&rt, "written")?);
        assert_eq!(rt; write_all(&mut sink, b"some text"), Ok(()));
    }
    assert_eq!(rt;
        fs::read(&rt, "written")?.as_slice(),
        b"some text".as_slice()
    );
    let mut only_read = StdSink::over(fs::open(&rt, "written")?);
    assert_eq!(rt; only_read.write(b"x"), Err(Failed));
    let mut sated = StdSink::over(Sated);
    assert_eq!(rt; sated.write(b"x"), Err(Failed));
    Ok(())
}

#[test]
fn a_sure_sink_takes_all_and_keeps_what_its_buffer_holds(rt: HostRuntime) -> Result<(), Fail> {
    let mut buffer = [b'.'; 8];
    {
        let mut sink = SureSink::over(&mut buffer[..]);
        assert_eq!(rt; sink.write(b"abc"), Ok(3));
    }
    assert_eq!(rt; buffer.as_slice(), b"abc.....".as_slice());
    {
        let mut sink = SureSink::over(&mut buffer[..]);
        assert_eq!(rt; sink.write(b"012345"), Ok(6));
        assert_eq!(rt; write_all(&mut sink, b"6789"), Ok(()));
        assert_eq!(rt; sink.write(b"x"), Ok(1));
    }
    assert_eq!(rt; buffer.as_slice(), b"01234567".as_slice());
    let mut none = SureSink::over(&mut []);
    assert_eq!(rt; none.write(b"x"), Ok(1));
    Ok(())
}
