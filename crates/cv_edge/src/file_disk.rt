ghost use Rattle.std.specs.Prelude.{◌≡◌, ◌+◌, ◌≤◌, ◌^◌, length, IfSome, OnSome};
ghost use Rattle.cv_edge.specs.Edge.{counted};
ghost use Rattle.cv_edge.specs.Disk.{untold};

use crate::counts::one_more;
use crate::disk::MOST;
use crate::{Disk, DiskFail};
use std::fs::{File, OpenFile};
use std::marker::Model;
use std::os::unix::fs::FileExt;
use std::rt::Files;

/// The name of the file, in the current folder.
const NAME: &str = "clearview.keep";

/// The file `clearview.keep` in the current folder, which is opened at the first call and made
/// where there is none. It does not tell what it holds, and counts its faults.
#[derive(Drop)]
pub struct FileDisk<'a, R> {
    files: &'a R,
    open: Option<File>,
    faults: u64,
}

impl<'a, R> Model for FileDisk<'a, R> {
    ghost use Rattle.std.specs.Prelude.{ℕ};

    ghost Value = { ℕ };

    ghost view = { λ d. d.faults };
}

impl<'a, R: Files<File = File>> FileDisk<'a, R> {
    /// The file that a runtime reaches, not opened yet, with no fault counted.
    pub fn over(files: &'a R) -> FileDisk<'a, R>
        ensures { result ≡ 0 }
    {
        FileDisk {
            files,
            open: None,
            faults: 0,
        }
    }

    /// Counts a fault.
    fn fault(&mut self) -> DiskFail
        ensures failed { result ≡ DiskFail.Failed }
        ensures counted { self.new ≡ counted self.old }
    {
        self.faults = one_more(self.faults);
        DiskFail::Failed
    }
}

/// Every error of the file is a fault: one that cannot be opened or made, that is no plain file or
/// is open in another process, that is or would be longer than 2^62 bytes, or that ends before what
/// is read.
impl<'a, R: Files<File = File>> Disk for FileDisk<'a, R> {
    ghost means = { untold };

    ghost among = { λ _ tells. absurd tells };

    ghost counts_now = { λ _ _ _ _ now. now };

    ghost only_now = { λ _ _ left. left };

    fn len(&mut self) -> Result<u64, DiskFail> {
        match length_of(self.files, &mut self.open) {
            Some(len) => Ok(len),
            None => Err(self.fault()),
        }
    }

    fn read(&mut self, at: u64, piece: &mut [u8]) -> Result<(), DiskFail> {
        match read_at(self.files, &mut self.open, at, piece) {
            Some(()) => Ok(()),
            None => Err(self.fault()),
        }
    }

    fn write_at(&mut self, at: u64, piece: &[u8]) -> Result<(), DiskFail> {
        match write_at(self.files, &mut self.open, at, piece) {
            Some(()) => Ok(()),
            None => Err(self.fault()),
        }
    }

    fn sync(&mut self) -> Result<(), DiskFail> {
        match sync(self.files, &mut self.open) {
            Some(()) => Ok(()),
            None => Err(self.fault()),
        }
    }
}

/// The file, which is opened where it is not yet.
fn opened<'b, R: Files<File = File>>(files: &R, open: &'b mut Option<File>) -> Option<&'b File> {
    if open.is_none() {
        *open = Some(open_locked(files)?);
    }
    open.as_ref()
}

/// Opens the file, or makes it, and locks it, so that no second process writes to it. The folder is
/// synced each time: a process that was stopped between making the file and that sync would leave a
/// name that is not on the disk yet.
fn open_locked<R: Files<File = File>>(files: &R) -> Option<File> {
    let mut how = File::options();
    how.read(true).write(true).create(true);
    let file = how.open(files, NAME).ok()?;
    if !file.metadata().ok()?.is_file() {
        return None;
    }
    file.try_lock().ok()?;
    let folder = File::open(files, ".").ok()?;
    folder.sync_all().ok()?;
    Some(file)
}

fn length_of<R: Files<File = File>>(files: &R, open: &mut Option<File>) -> Option<u64>
    ensures { IfSome result (λ n. n ≤ 2 ^ 62) }
{
    let file = opened(files, open)?;
    let len = file.metadata().ok()?.len();
    if len > MOST {
        return None;
    }
    Some(len)
}

fn read_at<R: Files<File = File>>(
    files: &R,
    open: &mut Option<File>,
    at: u64,
    piece: &mut [u8],
) -> Option<()> {
    let file = opened(files, open)?;
    file.read_exact_at(piece, at).ok()
}

fn write_at<R: Files<File = File>>(
    files: &R,
    open: &mut Option<File>,
    at: u64,
    piece: &[u8],
) -> Option<()>
    ensures { OnSome result (at + length piece.now ≤ 2 ^ 62) }
{
    if at > MOST || piece.len() as u64 > MOST - at {
        return None;
    }
    let file = opened(files, open)?;
    file.write_all_at(piece, at).ok()
}

fn sync<R: Files<File = File>>(files: &R, open: &mut Option<File>) -> Option<()> {
    let file = opened(files, open)?;
    file.sync_all().ok()
}
