//! A folder that is a directory.

ghost use Rattle.std.specs.Prelude.{◌≡◌, ◌≤◌, None};
ghost use Rattle.hms_outside.specs.Causes.{Rose};

use cat_values::{Bytes, NoMemory};
use hms_outside::{Folder, Outage};
use std::alloc::{AllocError, Global};
use std::fs::{self, File};
use std::io::{self, ErrorKind, Write};
use std::rt::Files;

/// The directory with this path as a folder. A file's name may have `/` in it: the directories that
/// it names are made when the file is put. It tells nothing of content, and counts each failure.
#[derive(Drop)]
pub struct DirFolder<'a, R: Files<File = File> + Alloc<A = Global>> {
    rt: &'a R,
    path: String,
    faults: u64,
}

impl<'a, R: Files<File = File> + Alloc<A = Global>> DirFolder<'a, R> {
    /// The directory with this path; where there is none yet, it is made when a file is put. The
    /// empty path is no directory: each call of such a folder fails.
    pub fn new(rt: &'a R, path: String) -> DirFolder<'a, R> {
        DirFolder {
            rt,
            path,
            faults: 0,
        }
    }

    // The path of a file.
    fn path_of(&self, name: &str) -> Result<String, AllocError> {
        let folder = self.path.as_str();
        format!(in self.rt.alloc(); "{folder}/{name}")
    }

    // The answer to a call that failed so. Want of memory is no fault.
    fn failed(&mut self, kind: ErrorKind) -> Outage
        ensures later { self.old.faults ≤ self.new.faults }
        ensures cause { result ≡ Outage.Failed → Rose self.old.faults self.new.faults }
        ensures stays { result ≡ Outage.NoMemory → self.new.faults ≡ self.old.faults }
    {
        if kind == ErrorKind::OutOfMemory {
            return Outage::NoMemory;
        }
        self.faults = self.faults.saturating_add(1);
        Outage::Failed
    }
}

impl<'a, R: Files<File = File> + Alloc<A = Global>> Folder for DirFolder<'a, R> {
    ghost files = { λ _. None };

    ghost faults = { λ f. f.faults };

    fn put(&mut self, name: &str, bytes: &[u8]) -> Result<(), Outage> {
        if self.path.is_empty() {
            return Err(self.failed(ErrorKind::NotFound));
        }
        let Ok(path) = self.path_of(name) else {
            return Err(Outage::NoMemory);
        };
        match write_file(self.rt, path.as_str(), bytes) {
            Ok(()) => Ok(()),
            Err(error) => Err(self.failed(error.kind())),
        }
    }

    fn get(&mut self, name: &str) -> Result<Option<Bytes>, Outage> {
        if self.path.is_empty() {
            return Err(self.failed(ErrorKind::NotFound));
        }
        let Ok(path) = self.path_of(name) else {
            return Err(Outage::NoMemory);
        };
        match fs::read(self.rt, path.as_str()) {
            Ok(bytes) => match Bytes::from_vec(bytes) {
                Ok(bytes) => Ok(Some(bytes)),
                Err(NoMemory) => Err(Outage::NoMemory),
            },
            Err(error) if error.kind() == ErrorKind::NotFound => Ok(None),
            Err(error) => Err(self.failed(error.kind())),
        }
    }
}

// Writes a file, and makes the directory that it lies in, where that is absent.
fn write_file(files: &impl Files<File = File>, path: &str, bytes: &[u8]) -> io::Result<()> {
    match File::create(files, path) {
        Ok(mut file) => file.write_all(bytes),
        Err(error) if error.kind() == ErrorKind::NotFound => {
            fs::create_dir_all(files, folder_of(path))?;
            fs::write(files, path, bytes)
        }
        Err(error) => Err(error),
    }
}

// The path of the directory that a file lies in.
fn folder_of(path: &str) -> &str {
    match path.rsplit_once('/') {
        None => ".",
        Some(("", _)) => "/",
        Some((folder, _)) => folder,
    }
}
