//! The top call.
ghost use Rattle.std.specs.Prelude.{◌≡◌, ◌≢◌, ◌↔◌, ◌∷◌, [], ℕ, codes};
ghost use Rattle.key_cells.specs.Bench.{blank_bench};
ghost use Rattle.line_service.specs.Answering.{IsSound};
ghost use Rattle.line_service.specs.Devices.{HaveSizes};
ghost use Rattle.line_service.specs.Running.{SessionLeft, Untouched};
ghost use Rattle.cca_machine.specs.State.{module_size, store_size};
ghost use Rattle.cca_machine.specs.Coprocessor.{cca};
ghost use Rattle.command_words.specs.Demo.{IsDemo, IsCommandLine};
ghost use Rattle.cca_tool.specs.Running.{Ended, Uncalled, DemoServed};
ghost use Rattle.store_unload.specs.Statuses.{CallsNone};

use crate::demo::serve_demo;
use crate::session::Session;
use command_words::{Command, Words};
use device_cells::{Disk, Entropy, Sink, Source};
use key_cells::Workbench;
use line_service::{Shown, ShownOutside};
use std::alloc::Global;
use store_unload::{Status, status_of};

/// Serves the requests of the source, one on a line, and sends a reply line for each to the sink. The master
/// key registers and the roles stand on the module, the key records in the store.
///
/// This is for the one word `run`. For the words `demo N` it serves lines that are made up from N, takes none from the
/// source, and sends one line that tells how they were answered.
///
/// All memory is taken before a device is called, and none after. The bench is wiped first, since it may hold
/// anything. The module is judged before the store is called.
pub fn run<S: Source, K: Sink, M: Disk, D: Disk, E: Entropy>(
    alloc: Global,
    words: &Words,
    bench: &mut Workbench,
    source: &mut S,
    sink: &mut K,
    module: &mut M,
    store: &mut D,
    entropy: &mut E,
) -> Status
    requires { HaveSizes module_size store_size
        (⟦<(M, D) as Shown>⟧.shown («module».old, store.old)) }

    ensures usage { (result ≡ Status.Usage) ↔ (IsCommandLine words.now → ⊥) }

    // Where no device was called.
    ensures uncalled { CallsNone result → Uncalled source.old source.new sink.old sink.new
        «module».old «module».new store.old store.new entropy.old entropy.new }

    // For the word `run`, what it leaves of all that is outside, and what the lines come to: what the sink got, the state
    // that the disks stand for, each disk at every moment, and that every line is answered where no device fails.
    ensures ends { words.now ≡ codes "run" ∷ [] → Ended result (λ outcome. SessionLeft cca outcome
        (⟦<(S, K, M, D, E) as ShownOutside>⟧.between
        (source.old, sink.old, «module».old, store.old, entropy.old)
        (source.new, sink.new, «module».new, store.new, entropy.new))) }
    // A demo calls neither the source nor the random source, and its sink gets nothing before all lines were answered.
    ensures demo { (n : ℕ) → IsDemo n words.now
        → DemoServed n result source.old source.new sink.old sink.new
        entropy.old entropy.new (⟦<(K, M, D) as ShownOutside>⟧.between
        (sink.old, «module».old, store.old) (sink.new, «module».new, store.new)) }

    // Where the disks stand for no state, all is as before.
    ensures unsound { (IsSound cca (M.medium «module».old) (D.medium store.old) → ⊥)
        → Untouched source.old source.new sink.old sink.new entropy.old entropy.new
        (⟦<(M, D) as Shown>⟧.between («module».old, store.old) («module».new, store.new)) }

    // No key is left in the bench.
    ensures bench { bench.new ≡ blank_bench }
{
    bench.wipe();
    match words.command() {
        Some(Command::Run) => serve_source(alloc, bench, source, sink, module, store, entropy),
        Some(Command::Demo(number)) => serve_demo(alloc, number, bench, sink, module, store),
        None => Status::Usage,
    }
}

/// Takes the memory of a session, and serves the lines of the source.
fn serve_source<S: Source, K: Sink, M: Disk, D: Disk, E: Entropy>(
    alloc: Global,
    bench: &mut Workbench,
    source: &mut S,
    sink: &mut K,
    module: &mut M,
    store: &mut D,
    entropy: &mut E,
) -> Status
    requires blank { bench.old ≡ blank_bench }
    requires disks { HaveSizes module_size store_size
        (⟦<(M, D) as Shown>⟧.shown («module».old, store.old)) }

    ensures words { result ≢ Status.Usage }
    ensures uncalled { CallsNone result → Uncalled source.old source.new sink.old sink.new
        «module».old «module».new store.old store.new entropy.old entropy.new }
    ensures ends { Ended result (λ outcome. SessionLeft cca outcome
        (⟦<(S, K, M, D, E) as ShownOutside>⟧.between
        (source.old, sink.old, «module».old, store.old, entropy.old)
        (source.new, sink.new, «module».new, store.new, entropy.new))) }
    ensures unsound { (IsSound cca (M.medium «module».old) (D.medium store.old) → ⊥)
        → Untouched source.old source.new sink.old sink.new entropy.old entropy.new
        (⟦<(M, D) as Shown>⟧.between («module».old, store.old) («module».new, store.new)) }
    ensures bench { bench.new ≡ blank_bench }
{
    match Session::new(alloc) {
        Ok(mut session) => status_of(session.serve(bench, source, sink, module, store, entropy)),
        Err(_) => Status::NoMemory,
    }
}
