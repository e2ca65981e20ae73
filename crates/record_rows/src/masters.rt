//! Modules with full master key registers, as images of their one cell.
ghost use Rattle.std.specs.Prelude.{IfOk};
ghost use Rattle.key_cells.specs.Lease.{bench_of};
ghost use Rattle.master_registers.specs.Loaded.{IsLoaded};

use crate::stores::Stop;
use key_cells::Lease;
use master_registers::{Registers, load};
use slot_disk::MemoryDisk;
use std::alloc::Global;

/// 24 bytes, each so much more than the one before.
pub(crate) fn counting(first: u8, step: u8) -> [u8; 24] {
    let mut bytes = [0; 24];
    for at in 0..24 {
        bytes[at] = first.wrapping_add(step.wrapping_mul(at as u8));
    }
    bytes
}

/// A module with a current master key, and a new and an old register with their states.
pub(crate) fn module_of(new: (u8, [u8; 24]), current: [u8; 24], old: (u8, [u8; 24])) -> [u8; 1536] {
    let mut image = [0; 1536];
    image[512] = 1;
    image[513] = new.0;
    image[514] = 1;
    image[515] = old.0;
    for at in 0..24 {
        image[520 + at] = new.1[at];
        image[544 + at] = current[at];
        image[568 + at] = old.1[at];
    }
    image
}

/// A module whose current and old master keys are 24 bytes that count up and down.
pub(crate) fn module_image() -> [u8; 1536] {
    module_of((0, [0; 24]), counting(0, 1), (1, counting(23, 255)))
}

/// The same module with a full new register.
pub(crate) fn module_with_new(new: [u8; 24]) -> [u8; 1536] {
    module_of((2, new), counting(0, 1), (1, counting(23, 255)))
}

/// The same module after SET.
pub(crate) fn module_after_set(new: [u8; 24]) -> [u8; 1536] {
    module_of((0, [0; 24]), new, (1, counting(0, 1)))
}

/// The master keys of a module.
pub(crate) fn load_masters(
    alloc: Global,
    image: &[u8; 1536],
    lease: &mut Lease,
) -> Result<Registers, Stop>
    ensures { IfOk result (λ held. IsLoaded held (bench_of lease.new)) }
{
    let Ok(mut module) = MemoryDisk::from_image(alloc, image, 0) else {
        return Err(Stop::Memory);
    };
    match load(&mut module, lease) {
        Ok(held) => Ok(held),
        Err(_) => Err(Stop::Load),
    }
}
