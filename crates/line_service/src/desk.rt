//! What answers a line.
ghost use Rattle.std.specs.Prelude.{◌≡◌, ◌≤◌, ◌<◌, ℕ, List, [], length, OnOk, IfErr};
ghost use Rattle.key_cells.specs.Bench.{blank_bench};
ghost use Rattle.device_cells.specs.Medium.{Medium};
ghost use Rattle.line_service.specs.Lines.{EndsInNewline};
ghost use Rattle.line_service.specs.Reading.{line_limit};
ghost use Rattle.line_service.specs.Machine.{Machine, world};
ghost use Rattle.line_service.specs.Answering.{OnDisks, IsSound, Stands, Steps, Serves};
ghost use Rattle.line_service.specs.Devices.{AreSettled, HaveSizes, DamageSpares, DamageTold, DevicesLeft, OpeningLeft, Undamaged};
ghost use Rattle.line_service.specs.Stops.{IsDeskStop, IsOpeningStop};

use crate::devices::Shown;
use crate::reply::ReplyBuffer;
use crate::stops::Stop;
use device_cells::{Disk, Entropy};
use key_cells::Workbench;

/// What answers lines, over two disks and a random source. It keeps in memory what it read of the disks.
pub trait Desk {
    /// The machine whose replies these are.
    ghost machine: { Machine };

    /// The states with which the memory agrees.
    ghost knows: { Self → machine.State → Type 0 };

    /// What an answer needs of memory and disks, and keeps, whatever the state. It is made by opening.
    ghost ready: { Self → Medium → Medium → Type 0 };

    /// Makes every image of the disks their content, judges the module and then the store, and reads what is kept
    /// in memory.
    fn open<M: Disk, D: Disk>(
        &mut self,
        bench: &mut Workbench,
        module: &mut M,
        store: &mut D,
    ) -> Result<(), Stop>
        requires disks { HaveSizes machine.module_size machine.store_size
            (⟦<(M, D) as Shown>⟧.shown («module».old, store.old)) }
        requires bench { bench.old ≡ blank_bench }

        // It succeeds only where the disks stand for a state, and memory then agrees with it.
        ensures sound { OnOk result (IsSound machine (M.medium «module».old) (D.medium store.old)) }
        ensures knows { OnOk result ((s : machine.State)
            → OnDisks machine s (M.medium «module».old) (D.medium store.old) → knows self.new s) }
        ensures ready { OnOk result (ready self.new (M.medium «module».new) (D.medium store.new)) }

        // Damage is told where a cell is broken, and then always, unless a disk failed. Nothing is written.
        ensures damage { DamageTold machine result (⟦<(M, D) as Shown>⟧.between
            («module».old, store.old) («module».new, store.new)) }
        ensures left { OpeningLeft result (⟦<(M, D) as Shown>⟧.between
            («module».old, store.old) («module».new, store.new)) }
        ensures stops { IfErr result IsOpeningStop }
        ensures bench { bench.new ≡ blank_bench };

    /// Answers a line that is too long. It calls no device.
    fn too_long(&self, reply: &mut ReplyBuffer)
        ensures steps { (s : machine.State) (line : List ℕ) → line_limit < length line
            → Steps machine s line [] s reply.new }
        ensures line { EndsInNewline reply.new };

    /// Answers a line that is no longer than a line may be.
    fn answer<M: Disk, D: Disk, E: Entropy>(
        &mut self,
        line: &[u8],
        reply: &mut ReplyBuffer,
        bench: &mut Workbench,
        module: &mut M,
        store: &mut D,
        entropy: &mut E,
    ) -> Result<(), Stop>
        requires short { length line.now ≤ line_limit }
        requires disks { AreSettled machine.module_size machine.store_size
            (⟦<(M, D) as Shown>⟧.shown («module».old, store.old)) }
        requires ready { ready self.old (M.medium «module».old) (D.medium store.old) }
        requires bench { bench.old ≡ blank_bench }

        ensures serves { (s : machine.State)
            → Stands machine s (knows self.old) (M.medium «module».old) (D.medium store.old)
            → Serves machine s (knows self.new) line.now result reply.new
            (world (M.medium «module».old) (D.medium store.old) (E.left entropy.old))
            (world (M.medium «module».new) (D.medium store.new) (E.left entropy.new)) }
        ensures ready { OnOk result (ready self.new (M.medium «module».new) (D.medium store.new)) }

        // Whatever the disks tell, the line has a reply.
        ensures line { OnOk result (EndsInNewline reply.new) }
        // Disks that tell their bytes don't turn out damaged, and what others leave that do.
        ensures undamaged { Undamaged machine result
            (⟦<(M, D) as Shown>⟧.shown («module».old, store.old)) }
        ensures damaged { DamageSpares result (M.medium «module».old) (M.medium «module».new)
            store.old store.new entropy.old entropy.new }
        ensures left { DevicesLeft result (⟦<(M, D, E) as Shown>⟧.between
            («module».old, store.old, entropy.old) («module».new, store.new, entropy.new)) }
        ensures stops { IfErr result IsDeskStop }
        ensures bench { bench.new ≡ blank_bench };
}
