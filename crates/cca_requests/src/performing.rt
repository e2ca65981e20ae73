//! A request, judged and carried out.
ghost use Rattle.std.specs.Prelude.{◌≡◌, ℕ, false, [], Option, Err, OnOk, OnErr, IfErr, IsTrue};
ghost use Rattle.device_cells.specs.Faults.{Rose};
ghost use Rattle.device_cells.specs.Medium.{Keeps, Told};
ghost use Rattle.master_registers.specs.RegisterBody.{IsDamaged};
ghost use Rattle.key_cells.specs.Bench.{blank_bench};
ghost use Rattle.key_cells.specs.Lease.{bench_of, loan_of};
ghost use Rattle.line_service.specs.Machine.{world};
ghost use Rattle.line_service.specs.Devices.{AreSettled, DamageSpares};
ghost use Rattle.verb_script.specs.Parsed.{seen};
ghost use Rattle.cca_machine.specs.State.{State, module_size, store_size};
ghost use Rattle.cca_machine.specs.Operands.{operands, is_reencipher};
ghost use Rattle.cca_machine.specs.Verdict.{Refusal as Refused, verdict_by};
ghost use Rattle.request_rules.specs.ByRecords.{RestsOnRecords};
ghost use Rattle.cca_requests.specs.Serving.{HasDisks, IsSpelled, IsRequestStop, IsLoadedStop, Serves, Leaves, IsCellRead, SparesStore, DrawsOnly, AreRemembered};
ghost use Rattle.reencipher.specs.Runs.{IsLabelCell};
ghost use Rattle.cca_requests.specs.Memory.{ChangesMemory};
ghost use Rattle.request_rules.specs.Standing.{Stands, tables, At};
ghost use Rattle.cca_machine.specs.Granted.{IsAccepted, AreGranted};
ghost use Rattle.cca_machine.specs.Decided.{HasPassed, TakesOnly, source};

use crate::deciding::decide;
use crate::effects::carry;
use crate::endings::refuse;
use cca_machine::{Granted, Refusal, is_old};
use cca_roles::Roles;
use device_cells::{Disk, Entropy};
use key_cells::{Lease, Workbench};
use key_records::Records;
use line_service::{Device, Shown, Stop};
use master_registers::{LoadFault, Registers, load};
use request_rules::{Verdict, general_rule, judge, operands_of};
use verb_script::{ReplyBuffer, Request};

/// Judges a request, carries it out where no rule refuses it, and writes the reply into the reply buffer.
///
/// A refusal is `Ok` with its reply. After a stop the reply buffer is empty, and the session is to be begun again.
///
/// Random bytes are drawn only where no rule that is asked before refuses the request.
///
/// Where a cell turns out damaged, no random byte was drawn and the module is as it was; and so is the store, but for
/// a re-enciphering that came upon the cell on its way.
///
/// Each request reads the module twice, and for each label of a key one cell of the store. A change of a disk reads
/// it once more at most, and writes and syncs it twice. Re-enciphering goes through the store cell by cell: it costs two
/// reads for each label, and a change of its cell where it changes the label. After a stop on its way the memory is to be
/// opened again; what it holds is still which labels there are, and in which cells.
pub fn perform<M: Disk, D: Disk, E: Entropy>(
    request: &Request,
    bench: &mut Workbench,
    module: &mut M,
    store: &mut D,
    entropy: &mut E,
    roles: &mut Roles,
    records: &mut Records,
    reply: &mut ReplyBuffer,
) -> Result<(), Stop>
    requires spelled { IsSpelled (seen request.now) }
    requires disks { AreSettled module_size store_size
        (⟦<(M, D) as Shown>⟧.shown («module».old, store.old)) }
    requires known { AreRemembered (tables roles.old records.old)
        (M.medium «module».old) (D.medium store.old) }

    ensures serves { (s : State) → Stands s (tables roles.old records.old)
        (M.medium «module».old) (D.medium store.old)
        → Serves s (seen request.now) result reply.new (tables roles.new records.new)
        (world (M.medium «module».old) (D.medium store.old) (E.left entropy.old))
        (world (M.medium «module».new) (D.medium store.new) (E.left entropy.new)) }
    ensures left { Leaves result reply.new (⟦<(M, D) as Shown>⟧.between
        («module».old, store.old) («module».new, store.new))
        (tables roles.old records.old) (tables roles.new records.new) }
    ensures records { is_reencipher (seen request.now).name ≡ false
        → OnErr result (records.new ≡ records.old) }
    ensures damage { result ≡ Err (Stop.Damaged Device.Module 0)
        → Told (M.medium «module».old) IsDamaged }
    // And it is told, where the registers are damaged and the module doesn't fail.
    ensures exact { (Rose (M.faults «module».old) (M.faults «module».new) → ⊥)
        → Told (M.medium «module».old) (λ image. IsDamaged image
        → result ≡ Err (Stop.Damaged Device.Module 0)) }
    ensures store { SparesStore (seen request.now) result store.old store.new }
    ensures cell { (n : ℕ) → result ≡ Err (Stop.Damaged Device.Store n)
        → IsCellRead (seen request.now) records.old n }
    ensures damaged { DamageSpares result (M.medium «module».old) (M.medium «module».new)
        store.old store.new entropy.old entropy.new }
    ensures store_kept { is_reencipher (seen request.now).name ≡ false
        → (cell : ℕ) → result ≡ Err (Stop.Damaged Device.Store cell)
        → Keeps (D.medium store.old) (D.medium store.new) }
    ensures random { DrawsOnly (λ s. Stands s (tables roles.old records.old)
        (M.medium «module».old) (D.medium store.old)) (seen request.now)
        result entropy.old entropy.new (E.faults entropy.old) (E.faults entropy.new) }
    // Whatever the store tells of its bytes.
    ensures own { OnOk result (RestsOnRecords (M.medium «module».old)
        (tables roles.old records.old) (seen request.now) reply.new) }
    ensures memory { OnOk result (ChangesMemory (seen request.now) reply.new
        (tables roles.old records.old) (tables roles.new records.new)) }
    ensures stops { IfErr result IsRequestStop }
    ensures bench { bench.new ≡ blank_bench }
{
    reply.clear();
    let mut lease = Lease::open(bench);
    match load(module, &mut lease) {
        Ok(held) => carry_out(
            request, module, store, entropy, &mut lease, &held, roles, records, reply,
        ),
        Err(LoadFault::DiskFault) => Err(Stop::ModuleFault),
        Err(LoadFault::Damaged) => Err(Stop::Damaged(Device::Module, 0)),
    }
}

/// Judges the request as a whole, and then its operands, over the registers that were loaded.
fn carry_out<M: Disk, D: Disk, E: Entropy>(
    request: &Request,
    module: &mut M,
    store: &mut D,
    entropy: &mut E,
    lease: &mut Lease,
    held: &Registers,
    roles: &mut Roles,
    records: &mut Records,
    reply: &mut ReplyBuffer,
) -> Result<(), Stop>
    requires accepted { IsAccepted (seen request.now) }
    requires disks { HasDisks held.now (bench_of lease.old) (tables roles.old records.old)
        (M.medium «module».old) (D.medium store.old) }
    requires empty { reply.old ≡ [] }

    ensures serves { (s : State) → At s held.now (bench_of lease.old) (tables roles.old records.old)
        (M.medium «module».old) (D.medium store.old)
        → Serves s (seen request.now) result reply.new (tables roles.new records.new)
        (world (M.medium «module».old) (D.medium store.old) (E.left entropy.old))
        (world (M.medium «module».new) (D.medium store.new) (E.left entropy.new)) }
    ensures random { DrawsOnly (λ s. At s held.now (bench_of lease.old)
        (tables roles.old records.old) (M.medium «module».old) (D.medium store.old))
        (seen request.now) result entropy.old entropy.new
        (E.faults entropy.old) (E.faults entropy.new) }
    ensures own { OnOk result (RestsOnRecords (M.medium «module».old)
        (tables roles.old records.old) (seen request.now) reply.new) }
    ensures left { Leaves result reply.new (⟦<(M, D) as Shown>⟧.between
        («module».old, store.old) («module».new, store.new))
        (tables roles.old records.old) (tables roles.new records.new) }
    ensures memory { OnOk result (ChangesMemory (seen request.now) reply.new
        (tables roles.old records.old) (tables roles.new records.new)) }
    ensures stops { IfErr result IsLoadedStop }
    ensures rows { is_reencipher (seen request.now).name ≡ false
        → OnErr result (records.new ≡ records.old) }
    ensures store { SparesStore (seen request.now) result store.old store.new }
    ensures cell { (n : ℕ) → result ≡ Err (Stop.Damaged Device.Store n)
        → IsCellRead (seen request.now) records.old n }
    ensures damaged { DamageSpares result (M.medium «module».old) (M.medium «module».new)
        store.old store.new entropy.old entropy.new }
    ensures store_kept { is_reencipher (seen request.now).name ≡ false
        → (cell : ℕ) → result ≡ Err (Stop.Damaged Device.Store cell)
        → Keeps (D.medium store.old) (D.medium store.new) }
    ensures loan { loan_of lease.new ≡ loan_of lease.old }
{
    if let Some(rule) = general_rule(request, held, roles) {
        refuse(reply, &Refusal::of_request(rule));
        return Ok(());
    }
    match judge(&operands_of(request), store, lease, held, records) {
        Ok(Verdict::Refused(refusal)) => {
            refuse(reply, &refusal);
            Ok(())
        }
        Ok(Verdict::Granted(granted)) => act(
            request, &granted, module, store, entropy, lease, held, roles, records, reply,
        ),
        Err(stop) => Err(stop),
    }
}

/// Carries out a request whose operands break no rule.
fn act<M: Disk, D: Disk, E: Entropy>(
    request: &Request,
    granted: &Granted,
    module: &mut M,
    store: &mut D,
    entropy: &mut E,
    lease: &mut Lease,
    held: &Registers,
    roles: &mut Roles,
    records: &mut Records,
    reply: &mut ReplyBuffer,
) -> Result<(), Stop>
    requires passed { HasPassed (seen request.now) granted.now held.now records.old
        (bench_of lease.old) }
    requires disks { HasDisks held.now (bench_of lease.old) (tables roles.old records.old)
        (M.medium «module».old) (D.medium store.old) }
    requires empty { reply.old ≡ [] }

    ensures serves { (s : State) → At s held.now (bench_of lease.old) (tables roles.old records.old)
        (M.medium «module».old) (D.medium store.old)
        → AreGranted s (bench_of lease.old) (operands (seen request.now)) granted.now
        → ((v : Option Refused) → verdict_by s (seen request.now) v ≡ v)
        → Serves s (seen request.now) result reply.new (tables roles.new records.new)
        (world (M.medium «module».old) (D.medium store.old) (E.left entropy.old))
        (world (M.medium «module».new) (D.medium store.new) (E.left entropy.new)) }
    ensures takes { TakesOnly (seen request.now) result
        (source entropy.old (E.left entropy.old) (E.faults entropy.old))
        (source entropy.new (E.left entropy.new) (E.faults entropy.new)) }
    ensures left { Leaves result reply.new (⟦<(M, D) as Shown>⟧.between
        («module».old, store.old) («module».new, store.new))
        (tables roles.old records.old) (tables roles.new records.new) }
    ensures memory { OnOk result (ChangesMemory (seen request.now) reply.new
        (tables roles.old records.old) (tables roles.new records.new)) }
    ensures stops { IfErr result IsLoadedStop }
    ensures rows { is_reencipher (seen request.now).name ≡ false
        → OnErr result (records.new ≡ records.old) }
    ensures store { SparesStore (seen request.now) result store.old store.new }
    ensures cell { (n : ℕ) → result ≡ Err (Stop.Damaged Device.Store n)
        → IsTrue (is_reencipher (seen request.now).name) × IsLabelCell records.old n }
    ensures damaged { DamageSpares result (M.medium «module».old) (M.medium «module».new)
        store.old store.new entropy.old entropy.new }
    ensures store_kept { is_reencipher (seen request.now).name ≡ false
        → (cell : ℕ) → result ≡ Err (Stop.Damaged Device.Store cell)
        → Keeps (D.medium store.old) (D.medium store.new) }
    ensures loan { loan_of lease.new ≡ loan_of lease.old }
{
    match decide(request, granted, entropy, lease, held, records, reply) {
        Ok(effect) => carry(
            &effect,
            is_old(granted),
            module,
            store,
            lease,
            held,
            roles,
            records,
            reply,
        ),
        Err(stop) => Err(stop),
    }
}
