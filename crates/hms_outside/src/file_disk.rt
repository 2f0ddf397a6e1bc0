//! A disk that is a file.

ghost use Rattle.std.specs.Prelude.{◌≤◌, [], None, length, IfOk};

use crate::{Disk, Outage};
use std::fs::{File, OpenOptions, remove_file};
use std::io::{self, ErrorKind};
use std::os::unix::fs::FileExt;
use std::rt::Files;

/// A file as a disk. It tells nothing of content, and counts each failure. Where the file couldn't
/// be opened or made, each call fails.
#[derive(Drop)]
pub struct FileDisk {
    file: Option<File>,
    faults: u64,
}

impl FileDisk {
    /// The file with this path. An absent one is made, with no bytes, and its folder is synced.
    pub fn open(files: &impl Files<File = File>, path: &str) -> FileDisk {
        FileDisk {
            file: open_or_make(files, path).ok(),
            faults: 0,
        }
    }
}

impl Disk for FileDisk {
    ghost lies = { λ _. None };

    ghost past = { λ _. [] };

    ghost faults = { λ d. d.faults };

    fn len(&mut self) -> Result<u64, Outage> {
        if let Some(file) = &self.file
            && let Ok(metadata) = file.metadata()
        {
            return Ok(metadata.len());
        }
        self.faults = self.faults.saturating_add(1);
        Err(Outage::Failed)
    }

    fn read_at(&mut self, at: u64, buf: &mut [u8]) -> Result<usize, Outage> {
        if let Some(file) = &self.file
            && let Ok(filled) = fill(file, at, buf)
        {
            return Ok(filled);
        }
        self.faults = self.faults.saturating_add(1);
        Err(Outage::Failed)
    }

    fn write_at(&mut self, at: u64, bytes: &[u8]) -> Result<(), Outage> {
        if let Some(file) = &self.file
            && at.checked_add(bytes.len() as u64).is_some()
            && file.write_all_at(bytes, at).is_ok()
        {
            return Ok(());
        }
        self.faults = self.faults.saturating_add(1);
        Err(Outage::Failed)
    }

    fn sync(&mut self) -> Result<(), Outage> {
        if let Some(file) = &self.file
            && file.sync_data().is_ok()
        {
            return Ok(());
        }
        self.faults = self.faults.saturating_add(1);
        Err(Outage::Failed)
    }
}

// Fills the buffer from a place on as far as the file reaches, and returns how many bytes it filled.
fn fill(file: &File, at: u64, buf: &mut [u8]) -> io::Result<usize>
    ensures { IfOk result (λ n. n ≤ length buf.old) }
{
    let mut filled = 0;
    for _ in 0..u64::MAX {
        if filled >= buf.len() {
            break;
        }
        let from = at
            .checked_add(filled as u64)
            .ok_or(ErrorKind::InvalidInput)?;
        match file.read_at(&mut buf[filled..], from) {
            Ok(0) => break,
            Ok(count) => filled += count,
            Err(error) if error.kind() == ErrorKind::Interrupted => {}
            Err(error) => return Err(error),
        }
    }
    Ok(filled)
}

// Opens a file, or makes an absent one. Where its folder can't be synced it is taken away again, so
// that no later opening finds a file that a crash may still lose.
fn open_or_make(files: &impl Files<File = File>, path: &str) -> io::Result<File> {
    let mut options = OpenOptions::new();
    options.read(true).write(true);
    match options.open(files, path) {
        Err(error) if error.kind() == ErrorKind::NotFound => {}
        found => return found,
    }
    let file = options.create_new(true).open(files, path)?;
    if let Err(error) = sync_folder(files, path) {
        remove_file(files, path)?;
        return Err(error);
    }
    Ok(file)
}

// Makes the names in a file's folder last.
fn sync_folder(files: &impl Files<File = File>, path: &str) -> io::Result<()> {
    File::open(files, folder_of(path))?.sync_all()
}

// The path of the folder that a file lies in.
fn folder_of(path: &str) -> &str {
    match path.rsplit_once('/') {
        None => ".",
        Some(("", _)) => "/",
        Some((folder, _)) => folder,
    }
}
