//! How what a verb left to be done is done: the only calls that write a disk.
ghost use Rattle.std.specs.Prelude.{◌≡◌, ℕ, List, OnOk};
ghost use Rattle.key_cells.specs.Lease.{bench_of};
ghost use Rattle.verb_script.specs.Grammar.{Request};
ghost use Rattle.cca_machine.specs.State.{State};
ghost use Rattle.cca_machine.specs.Keys.{any_old};
ghost use Rattle.cca_machine.specs.Operands.{operands, listed};
ghost use Rattle.cca_machine.specs.Act.{or_act};
ghost use Rattle.cca_machine.specs.Verdict.{whole_verb_verdict};
ghost use Rattle.cca_requests.specs.Serving.{Carries, HasDisks, KeepsToEffect, Leaves};
ghost use Rattle.cca_requests.specs.Changes.{RunsEffect};
ghost use Rattle.cca_requests.specs.Memory.{MemoryBy};
ghost use Rattle.request_rules.specs.Standing.{tables, At};
ghost use Rattle.cca_machine.specs.Deciding.{IsDecided, IsReady};

use crate::changing_module::{change_registers, define_role, remove_role};
use crate::changing_store::{create, delete, renew, write};
use crate::endings::{finish, refuse};
use cca_machine::Effect;
use cca_roles::Roles;
use device_cells::Disk;
use key_cells::Lease;
use key_records::Records;
use line_service::{Shown, Stop};
use master_registers::Registers;
use verb_script::ReplyBuffer;

/// Does what a verb left to be done. A change reads a disk once at most, and writes and syncs it twice; re-enciphering
/// does so for each label, and reads it once more.
pub(crate) fn carry<M: Disk, D: Disk>(
    effect: &Effect,
    warns: bool,
    module: &mut M,
    store: &mut D,
    lease: &mut Lease,
    held: &Registers,
    roles: &mut Roles,
    records: &mut Records,
    reply: &mut ReplyBuffer,
) -> Result<(), Stop>
    requires disks { HasDisks held.now (bench_of lease.old) (tables roles.old records.old)
        (M.medium «module».old) (D.medium store.old) }
    requires ready { IsReady held.now (bench_of lease.old) records.old effect.now reply.old }
    ensures carries { (s : State) (request : Request) (drawn : List ℕ)
        → At s held.now (bench_of lease.old) (tables roles.old records.old)
        (M.medium «module».old) (D.medium store.old)
        → any_old s (listed (operands request)) ≡ warns
        → IsDecided s (bench_of lease.old) drawn request effect.now reply.old
        → Carries (or_act (whole_verb_verdict s drawn request) s drawn request) s result reply.new
        (tables roles.new records.new)
        (M.medium «module».old) (M.medium «module».new) (D.medium store.old) (D.medium store.new) }
    ensures left { Leaves result reply.new (⟦<(M, D) as Shown>⟧.between
        («module».old, store.old) («module».new, store.new))
        (tables roles.old records.old) (tables roles.new records.new) }
    ensures keeps { KeepsToEffect effect.now result records.old records.new lease.old lease.new
        «module».old «module».new store.old store.new }
    ensures memory { OnOk result (MemoryBy effect.now reply.new
        (tables roles.old records.old) (tables roles.new records.new)) }
    ensures run { RunsEffect effect.now held.now records.old records.new
        (D.medium store.old) (D.medium store.new) result reply.new }
{
    match effect {
        Effect::Refused(refusal) => {
            refuse(reply, refusal);
            Ok(())
        }
        Effect::Shown => {
            finish(warns, reply);
            Ok(())
        }
        Effect::Change(action) => {
            change_registers(*action, module, lease, held, roles, records, reply)
        }
        Effect::DefineRole(name, points) => {
            define_role(name, *points, module, lease, held, roles, reply)
        }
        Effect::RemoveRole(name) => remove_role(name, module, lease, held, roles, reply),
        Effect::Create(label) => create(label, store, lease, records, reply),
        Effect::Write(place, token) => {
            write(*place, token, warns, store, lease, held, records, reply)
        }
        Effect::Delete(place) => delete(*place, store, lease, records, reply),
        Effect::Reencipher(action) => renew(*action, store, lease, held, records, reply),
    }
}
