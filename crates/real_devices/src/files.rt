//! The files of the program.
ghost use Rattle.std.specs.Prelude.{◌≡◌, IfOk};

use crate::fault::Fault;
use crate::streams::StandardNumbers;
use device_cells::{Disk, FileDisk};
use std::fs::{File, OpenOptions, symlink_metadata};
use std::io;
use std::os::unix::fs::{MetadataExt, OpenOptionsExt};

/// The module: the cell of the registers, and 32 cells of roles.
pub const MODULE_LEN: u64 = 50_688;

/// The store: 1,024 cells, one for each label.
pub const STORE_LEN: u64 = 1_572_864;

/// The trail: 4,096 cells, one for each record that is held.
pub const TRAIL_LEN: u64 = 6_291_456;

/// Read and written by the file's owner alone.
const OWNER_ALONE: u32 = 0o600;

/// The current folder, through which alone the program opens files.
///
/// While it is there, the numbers of the standard streams are taken, so that no file gets one.
#[derive(Drop)]
pub struct Folder {
    rt: HostRuntime,
    _numbers: StandardNumbers,
}

impl Folder {
    /// Takes the numbers of the standard streams, and opens no file of the folder yet.
    pub fn enter(rt: &HostRuntime) -> Result<Folder, Fault> {
        Ok(Folder {
            rt: *rt,
            _numbers: StandardNumbers::take(rt)?,
        })
    }

    /// The file of this name, of this many bytes, locked until the program ends.
    ///
    /// Where it is missing or empty it is made, all zero, and is on the drive with its name once this
    /// returns. A file that is made is its owner's alone, and one that is there keeps its mode. A file
    /// that another run has locked isn't opened, and no byte of it is read. Through a symbolic link a
    /// whole file is opened, and none is made: its name stands in another folder.
    pub fn open_disk(&self, name: &str, size: u64) -> Result<FileDisk, Fault>
        ensures { IfOk result (λ disk. (⟦<FileDisk as Disk>⟧.medium disk).size ≡ size) }
    {
        let file = self.open_locked(name)?;
        self.make_whole(&file, name, size)?;
        Ok(FileDisk::new(file, size))
    }

    /// The same, but that what the file held is gone: it is all zero. A file that has another name, or
    /// is reached by a link, keeps what it holds and is refused, since it could be one of the others.
    pub fn new_disk(&self, name: &str, size: u64) -> Result<FileDisk, Fault>
        ensures { IfOk result (λ disk. (⟦<FileDisk as Disk>⟧.medium disk).size ≡ size) }
    {
        let file = self.open_locked(name)?;
        if self.is_link(name) || !has_one_name(&file) || file.set_len(0).is_err() {
            return Err(Fault::File);
        }
        self.make_whole(&file, name, size)?;
        Ok(FileDisk::new(file, size))
    }

    /// The random bytes of the system.
    pub fn open_random(&self) -> Result<File, Fault> {
        match File::open(&self.rt, "/dev/urandom") {
            Ok(file) => Ok(file),
            Err(_) => Err(Fault::File),
        }
    }

    /// The file of this name, made where it is missing, and locked.
    fn open_locked(&self, name: &str) -> Result<File, Fault> {
        let opened = OpenOptions::new()
            .read(true)
            .write(true)
            .create(!self.is_link(name))
            .mode(OWNER_ALONE)
            .open(&self.rt, name);
        let Ok(file) = opened else {
            return Err(Fault::File);
        };
        if file.try_lock().is_err() {
            return Err(Fault::File);
        }
        Ok(file)
    }

    /// Makes an empty file all zero. Another one has this many bytes already, or is refused.
    fn make_whole(&self, file: &File, name: &str, size: u64) -> Result<(), Fault> {
        let Ok(metadata) = file.metadata() else {
            return Err(Fault::File);
        };
        if !metadata.is_file() {
            return Err(Fault::File);
        }
        if metadata.len() == size {
            return Ok(());
        }
        if metadata.len() != 0 {
            return Err(Fault::Size);
        }
        if self.is_link(name) || self.fill(file, size).is_err() {
            return Err(Fault::File);
        }
        Ok(())
    }

    /// Gives an empty file this many bytes, all zero, and puts it on the drive.
    ///
    /// The name comes there first, while the file is empty. So a file that has its size has its name on
    /// the drive too, also where the run that made it was killed.
    fn fill(&self, file: &File, size: u64) -> io::Result<()> {
        File::open(&self.rt, ".")?.sync_all()?;
        file.set_len(size)?;
        file.sync_all()
    }

    /// Whether a symbolic link stands under this name.
    fn is_link(&self, name: &str) -> bool {
        match symlink_metadata(&self.rt, name) {
            Ok(metadata) => metadata.is_symlink(),
            Err(_) => false,
        }
    }
}

/// Whether the file has no name but the one by which it was opened.
fn has_one_name(file: &File) -> bool {
    match file.metadata() {
        Ok(metadata) => metadata.nlink() == 1,
        Err(_) => false,
    }
}
