//! `cca`: a coprocessor for the DES keys of IBM's Common Cryptographic Architecture, in software.
//!
//! `cca run` reads request lines on standard input, and writes a reply line for each on standard
//! output. The master key registers and the roles stand in the file `cca.module` of the current folder, and keys under
//! labels, always enciphered, in the file `cca.store`.
//!
//! `cca demo N` serves lines that are made up for N labels, over files of its own, and writes how they were answered.
//!
//! `cca audit` is `cca run` with an audit trail in the file `cca.trail`: one record a line, written before the line's
//! reply. `cca trail` writes the records that it holds.
//!
//! `cca unload ROLE LABEL ROLE LABEL` writes, on standard output, a request file that moves the keys of the store to
//! another module, with which a transport key is shared, and on standard error which labels are kept back, and why.
#![tactic(auto)]

ghost use Rattle.std.specs.Prelude.{◌≡◌, ◌↔◌, ◌++◌, ◌∷◌, [], OnOk, IsNone};
ghost use Rattle.cca.specs.Exits.{EndsWell, told_of};

mod ending;

use cca_tool::{AuditStatus, Command, Status, Words, run, run_audited, show_trail, unload};
use device_cells::{Disk, FileDisk, NoMemory, StreamEntropy, StreamSink, StreamSource};
use ending::{Ending, fault_of};
use key_cells::Workbench;
use real_devices::{Fault, Folder, MODULE_LEN, STORE_LEN, TRAIL_LEN};
use std::env;
use std::io::ErrorKind;
use std::process::ExitCode;
use std::rt::Env;

fn main(rt: HostRuntime) -> ExitCode {
    match fault_in(run_in(&rt)) {
        None => ExitCode::SUCCESS,
        Some(fault) => {
            // Where standard error is closed, the exit status tells alone.
            let _ = eprintln!(rt; "{fault}");
            ExitCode::from(fault.exit_status())
        }
    }
}

/// Why the program doesn't end well, if so.
fn fault_in(outcome: Result<Ending, Fault>) -> Option<Fault>
    ensures told { result ≡ told_of outcome }
    ensures none { IsNone result ↔ EndsWell outcome }
{
    match outcome {
        Ok(ending) => fault_of(ending),
        Err(fault) => Some(fault),
    }
}

fn run_in(rt: &HostRuntime) -> Result<Ending, Fault> {
    let words = words_of(rt)?;
    if words.moving().is_some() {
        return move_in(rt, &words);
    }
    Ok(Ending::Run(serve_in(rt, &words)?))
}

/// Serves requests, or shows the audit trail.
fn serve_in(rt: &HostRuntime, words: &Words) -> Result<AuditStatus, Fault> {
    if words.are_just("audit") {
        return audit_in(rt, words);
    }
    if words.are_just("trail") {
        return trail_in(rt, words);
    }
    match words.command() {
        Some(Command::Run) => {
            let folder = Folder::enter(rt)?;
            let module = folder.open_disk("cca.module", MODULE_LEN)?;
            let store = folder.open_disk("cca.store", STORE_LEN)?;
            run_over(rt, words, &folder, module, store)
        }
        Some(Command::Demo(_)) => {
            let folder = Folder::enter(rt)?;
            let module = folder.new_disk("demo.module", MODULE_LEN)?;
            let store = folder.new_disk("demo.store", STORE_LEN)?;
            run_over(rt, words, &folder, module, store)
        }
        // Other words open no file.
        None => Ok(AuditStatus::Run(Status::Usage)),
    }
}

/// Runs the command over these files.
fn run_over(
    rt: &HostRuntime,
    words: &Words,
    folder: &Folder,
    module: FileDisk,
    store: FileDisk,
) -> Result<AuditStatus, Fault>
    requires module_size { (⟦<FileDisk as Disk>⟧.medium «module»).size ≡ 50688 }
    requires store_size { (⟦<FileDisk as Disk>⟧.medium store).size ≡ 1572864 }
{
    let mut module = module;
    let mut store = store;
    let mut bench = Workbench::new();
    let mut source = StreamSource::new(rt.stdin());
    let mut sink = StreamSink::new(rt.stdout());
    let mut entropy = StreamEntropy::new(folder.open_random()?);
    let status = run(
        rt.alloc(),
        words,
        &mut bench,
        &mut source,
        &mut sink,
        &mut module,
        &mut store,
        &mut entropy,
    );
    Ok(AuditStatus::Run(status))
}

/// Serves requests with an audit trail.
fn audit_in(rt: &HostRuntime, words: &Words) -> Result<AuditStatus, Fault> {
    let folder = Folder::enter(rt)?;
    let mut module = folder.open_disk("cca.module", MODULE_LEN)?;
    let mut store = folder.open_disk("cca.store", STORE_LEN)?;
    let mut trail = folder.open_disk("cca.trail", TRAIL_LEN)?;
    let mut bench = Workbench::new();
    let mut source = StreamSource::new(rt.stdin());
    let mut sink = StreamSink::new(rt.stdout());
    let mut entropy = StreamEntropy::new(folder.open_random()?);
    Ok(run_audited(
        rt.alloc(),
        words,
        &mut bench,
        &mut source,
        &mut sink,
        &mut module,
        &mut store,
        &mut entropy,
        &mut trail,
    ))
}

/// Shows the records of the audit trail.
fn trail_in(rt: &HostRuntime, words: &Words) -> Result<AuditStatus, Fault> {
    let folder = Folder::enter(rt)?;
    let mut trail = folder.open_disk("cca.trail", TRAIL_LEN)?;
    let mut sink = StreamSink::new(rt.stdout());
    Ok(show_trail(rt.alloc(), words, &mut sink, &mut trail))
}

/// Moves the keys of the store: the file goes to standard output, and the report to standard error.
fn move_in(rt: &HostRuntime, words: &Words) -> Result<Ending, Fault> {
    let folder = Folder::enter(rt)?;
    let mut module = folder.open_disk("cca.module", MODULE_LEN)?;
    let mut store = folder.open_disk("cca.store", STORE_LEN)?;
    let mut bench = Workbench::new();
    let mut sink = StreamSink::new(rt.stdout());
    let mut report = StreamSink::new(rt.stderr());
    Ok(Ending::Move(unload(
        rt.alloc(),
        words,
        &mut bench,
        &mut sink,
        &mut report,
        &mut module,
        &mut store,
    )))
}

/// The words behind the program's name. A word that isn't UTF-8 is a faulty command line.
fn words_of<R: Env + AllocGlobal>(rt: &R) -> Result<Words, Fault> {
    let mut words = Words::new(rt.alloc());
    match env::args(rt) {
        Ok(args) => {
            for word in args.skip(1) {
                push(&mut words, word.as_str())?;
            }
            Ok(words)
        }
        Err(error) if error.kind() == ErrorKind::InvalidData => Err(Fault::Usage),
        Err(_) => Err(Fault::NoMemory),
    }
}

fn push(words: &mut Words, word: &str) -> Result<(), Fault>
    ensures { OnOk result (words.new ≡ words.old ++ word.now ∷ []) }
{
    match words.push(word) {
        Ok(()) => Ok(()),
        Err(NoMemory) => Err(Fault::NoMemory),
    }
}
