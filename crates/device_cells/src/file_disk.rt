//! A disk over a file. What a real file holds after a stop isn't told, so it says nothing of bytes:
//! it counts each error, and this is where the proofs end.
ghost use Rattle.std.specs.Prelude.{◌≡◌};
ghost use Rattle.device_cells.specs.Medium.{IsSettled};
ghost use Rattle.device_cells.specs.SilentMedium.{silent};

use crate::faults::count_one;
use crate::{Disk, Failed};
use std::fs::File;
use std::os::unix::fs::FileExt;

/// A disk over an open file, of the size that its maker has found it to have.
#[derive(Drop)]
pub struct FileDisk {
    file: File,
    size: u64,
    faults: u64,
}

impl FileDisk {
    pub fn new(file: File, size: u64) -> FileDisk
        ensures size { (⟦<FileDisk as Disk>⟧.medium result).size ≡ size }
        ensures settled { IsSettled (⟦<FileDisk as Disk>⟧.medium result) }
        ensures faults { ⟦<FileDisk as Disk>⟧.faults result ≡ 0 }
    {
        FileDisk {
            file,
            size,
            faults: 0,
        }
    }
}

impl Disk for FileDisk {
    ghost medium = { λ d. silent d.size };

    ghost faults = { λ d. d.faults };

    fn size(&self) -> u64 {
        self.size
    }

    fn read(&mut self, at: u64, out: &mut [u8]) -> Result<(), Failed> {
        if self.file.read_exact_at(out, at).is_err() {
            count_one(&mut self.faults);
            return Err(Failed);
        }
        Ok(())
    }

    fn write(&mut self, at: u64, piece: &[u8]) -> Result<(), Failed> {
        if self.file.write_all_at(piece, at).is_err() {
            count_one(&mut self.faults);
            return Err(Failed);
        }
        Ok(())
    }

    fn sync(&mut self) -> Result<(), Failed> {
        if self.file.sync_all().is_err() {
            count_one(&mut self.faults);
            return Err(Failed);
        }
        Ok(())
    }
}
