//! The numbers of the standard streams.
use crate::fault::Fault;
use std::fs::File;

/// The descriptors 0, 1 and 2, none of which a file that is opened from now on can get.
///
/// Where one of them is closed when the program is started, the system gives its number to the next
/// file: requests would then be read from that file, or replies written into it. So `/dev/null` is
/// opened three times, for reading alone. What takes the number of standard input ends at once, and
/// what takes one of the others can't be written to.
#[derive(Drop)]
pub struct StandardNumbers {
    _held: [File; 3],
}

impl StandardNumbers {
    /// Takes those that are free. All stay taken until this is dropped.
    pub fn take(rt: &HostRuntime) -> Result<StandardNumbers, Fault> {
        let first = open_null(rt)?;
        let second = open_null(rt)?;
        let third = open_null(rt)?;
        Ok(StandardNumbers {
            _held: [first, second, third],
        })
    }
}

fn open_null(rt: &HostRuntime) -> Result<File, Fault> {
    match File::open(rt, "/dev/null") {
        Ok(file) => Ok(file),
        Err(_) => Err(Fault::File),
    }
}
