ghost use Rattle.std.specs.Prelude.{◌≡◌, ◌≢◌, Some, None, ◌≤◌, take, IfOk, IfSome, IsErrOf, vec_len};
ghost use Rattle.cv_edge.specs.Edge.{fetched_of, IsSized, HasCause, counted};

use crate::counts::one_more;
use crate::{FetchFail, Fetched, Store};
use cv_base::{Items, NoMemory};
use std::alloc::Global;
use std::fs;
use std::io::{ErrorKind, Read};
use std::marker::Model;
use std::rt::Files;

/// How many bytes one read asks for.
const CHUNK: usize = 4096;

/// The files of the operating system. It does not tell what they hold, and counts its faults.
#[derive(Drop)]
pub struct FileStore<'a, R> {
    files: &'a R,
    faults: u64,
}

impl<'a, R> Model for FileStore<'a, R> {
    ghost use Rattle.std.specs.Prelude.{ℕ};

    ghost Value = { ℕ };

    ghost view = { λ s. s.faults };
}

impl<'a, R: Files> FileStore<'a, R> {
    /// The files that a runtime reaches, with no fault counted.
    pub fn over(files: &'a R) -> FileStore<'a, R>
        ensures { result ≡ 0 }
    {
        FileStore { files, faults: 0 }
    }
}

impl<'a, R: Files> Store for FileStore<'a, R> {
    ghost told = { λ _. None };

    ghost faults = { λ faults. faults };

    /// Answers Missing where the opening says that no such file is there. Whatever else keeps the
    /// file from being read is a fault: a directory, a path through a plain file, a name that no
    /// file can have. Reads at most `limit` + 1 bytes.
    fn fetch(&mut self, alloc: Global, name: &str, limit: u32) -> Result<Fetched, FetchFail>
        ensures sized { IfOk result (IsSized limit) }
        ensures failed { IsErrOf result FetchFail.Failed → self.new ≡ counted self.old }
        ensures cause { HasCause self.old self.new (IsErrOf result FetchFail.Failed) }
        ensures other { result ≢ Err FetchFail.Failed → self.new ≡ self.old }
    {
        let answer = read_file(self.files, alloc, name, limit);
        if let Err(FetchFail::Failed) = answer {
            self.faults = one_more(self.faults);
        }
        answer
    }
}

/// The file of a name, or its first `limit` + 1 bytes where it is longer.
fn read_file<R: Files>(
    files: &R,
    alloc: Global,
    name: &str,
    limit: u32,
) -> Result<Fetched, FetchFail>
    ensures { IfOk result (IsSized limit) }
{
    match fs::open(files, name) {
        Ok(mut file) => read_limited(&mut file, alloc, limit),
        Err(error) if error.kind() == ErrorKind::NotFound => Ok(Fetched::Missing),
        Err(_) => Err(FetchFail::Failed),
    }
}

/// What a fetch answers of a reader's bytes. It reads at most `limit` + 1 of them.
fn read_limited<F: Read>(file: &mut F, alloc: Global, limit: u32) -> Result<Fetched, FetchFail>
    ensures sized { IfOk result (IsSized limit) }
    ensures exact { IfOk result (λ f. IfSome (F.remaining file.old) (λ rest. f ≡ fetched_of (Some rest) limit)) }
{
    let limit = limit as usize;
    let bytes = read_up_to(file, alloc, limit + 1)?;
    if bytes.len() <= limit {
        Ok(Fetched::Whole(Items::from_vec(bytes)))
    } else {
        Ok(Fetched::Longer(Items::from_vec(bytes)))
    }
}

/// The bytes of a reader up to its end, and at most `most` of them.
fn read_up_to<F: Read>(file: &mut F, alloc: Global, most: usize) -> Result<Vec<u8>, FetchFail>
    ensures few { IfOk result (λ bytes. vec_len bytes ≤ most) }
    ensures first { IfOk result (λ bytes. IfSome (F.remaining file.old) (λ rest. bytes.items ≡ take most rest)) }
{
    let mut bytes = Vec::new(alloc);
    let mut buffer = [0u8; CHUNK];
    // A read that was interrupted is tried again.
    for _ in 0..u64::MAX {
        let wanted = (most - bytes.len()).min(CHUNK);
        if wanted == 0 {
            return Ok(bytes);
        }
        match file.read(&mut buffer[..wanted]) {
            Ok(0) => return Ok(bytes),
            Ok(count) => {
                let added = bytes.extend_from_slice(&buffer[..count]);
                added.map_err(NoMemory::from)?;
            }
            Err(error) if error.kind() == ErrorKind::Interrupted => {}
            Err(_) => return Err(FetchFail::Failed),
        }
    }
    Err(FetchFail::Failed)
}
