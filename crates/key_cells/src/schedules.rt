//! The sixteen round keys of a DES key.
ghost use Rattle.std.specs.Prelude.{◌≡◌};
ghost use Rattle.key_cells.specs.Schedule.{blank_schedule, blank_schedules};

use crate::arrays::zeros;

/// Sixteen round keys of 48 bits, each in eight groups of six bits.
///
/// The low six bits of byte `8 * (i - 1) + (j - 1)` are group j of round key i, the first bit of the
/// group highest. The two other bits of a byte aren't looked at.
#[derive(Drop)]
pub struct Schedule {
    pub groups: [u8; 128],
}

impl Schedule {
    /// A schedule of zeros.
    pub fn new() -> Schedule
        ensures { result ≡ blank_schedule }
    {
        Schedule { groups: zeros() }
    }
}

/// Three schedules of zeros.
pub(crate) fn blank_schedules() -> [Schedule; 3]
    ensures { result ≡ blank_schedules }
{
    [Schedule::new(), Schedule::new(), Schedule::new()]
}

/// Zeroes three schedules.
pub(crate) fn wipe_schedules(schedules: &mut [Schedule; 3])
    ensures { schedules.new ≡ blank_schedules }
{
    let blank = blank_schedules();
    *schedules = blank;
}
