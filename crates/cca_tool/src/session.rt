//! Sessions: lines served one after another, over a module and a store.
ghost use Rattle.std.specs.Prelude.{◌≡◌, ℕ, List, [], None, IsSome, IsTrue, Ok, Err, OnOk, OnErr, IfOk, IfErr};
ghost use Rattle.std.specs.Io.KnownBytes.{IsAtEnd};
ghost use Rattle.key_cells.specs.Bench.{blank_bench};
ghost use Rattle.device_cells.specs.WhereTold.{WhereTold};
ghost use Rattle.line_service.specs.Lines.{EndsInNewline};
ghost use Rattle.line_service.specs.Reading.{blank};
ghost use Rattle.line_service.specs.Sending.{GotReply};
ghost use Rattle.line_service.specs.Answering.{OnDisks, IsSound, Stands, Serves};
ghost use Rattle.line_service.specs.Devices.{HaveSizes, AreSettled, BothSettled, DamageSpares, DamageTold, DevicesLeft, OpeningLeft, OutsideLeft, TellsFault, Undamaged};
ghost use Rattle.line_service.specs.Machine.{world};
ghost use Rattle.line_service.specs.Running.{LineLeaves, LineTaken, SessionLeft, Unmoved, Untouched};
ghost use Rattle.line_service.specs.Stops.{IsDeskStop, IsOpeningStop};
ghost use Rattle.cca_machine.specs.State.{State, module_size, store_size};
ghost use Rattle.cca_tool.specs.Sessions.{blank_memory, InputRead, IsReadingStop, IsWaitingLine, waiting_after};
ghost use Rattle.cca_machine.specs.Coprocessor.{cca, IsStop};
ghost use Rattle.store_unload.specs.Opening.{AreKnown, remembers};

use crate::coprocessor::Coprocessor;
use cca_roles::Roles;
use device_cells::{Disk, Entropy, NoMemory, Sink, Source};
use key_cells::Workbench;
use key_records::Records;
use line_service::{
    Desk, LINE_LIMIT, Served, Shown, ShownOutside, Stop, answer_taken, serve, serve_one,
};
use std::alloc::Global;
use std::marker::Model;
use verb_script::{LineBuffer, LineFault, ReplyBuffer, Taken, read_line};

/// The buffers of a session, the roles of its module and the labels of its store, with all the memory that it uses.
/// Clauses see the reading of its lines, the tables of roles and labels, the reply, and the line that waits for its
/// answer.
#[derive(Drop)]
pub struct Session {
    pub(crate) lines: LineBuffer,
    pub(crate) reply: ReplyBuffer,
    pub(crate) desk: Coprocessor,
    // How the line was taken that isn't answered yet.
    waiting: Option<Taken>,
}

impl Model for Session {
    ghost use Rattle.request_rules.specs.Standing.{tables};
    ghost use Rattle.cca_tool.specs.Sessions.{Memory, ShowsWaiting};

    ghost Value = { Memory };

    ghost view = { λ s. record {
      reading = s.lines;
      tables = tables s.desk.roles s.desk.records;
      reply = s.reply;
      waiting = s.waiting;
    } };

    ghost invariant = { λ s. ShowsWaiting s.waiting s.lines };
}

impl Session {
    /// A session that has taken nothing. It is to be begun.
    pub fn new(alloc: Global) -> Result<Session, NoMemory>
        ensures { IfOk result (λ session. session ≡ blank_memory) }
    {
        let reply = ReplyBuffer::new(alloc)?;
        let lines = LineBuffer::new(alloc)?;
        let records = Records::new(alloc)?;
        Ok(Session {
            lines,
            reply,
            desk: Coprocessor {
                roles: Roles::new(),
                records,
            },
            waiting: None,
        })
    }

    /// Begins the session: bytes that were taken before and not answered are lost, a line that waits among them.
    /// Every image of a disk becomes its content, the registers are looked at, and roles and labels are read. The
    /// module is judged before the store is called.
    pub fn begin<M: Disk, D: Disk>(
        &mut self,
        bench: &mut Workbench,
        module: &mut M,
        store: &mut D,
    ) -> Result<(), Stop>
        requires { HaveSizes module_size store_size
            (⟦<(M, D) as Shown>⟧.shown («module».old, store.old)) }

        ensures fresh { self.new.reading ≡ blank }
        ensures idle { self.new.waiting ≡ None }
        // It succeeds only where the disks stand for a state, whose roles and labels are then known. Nothing is
        // written.
        ensures known { OnOk result
            (AreKnown self.new.tables (M.medium «module».new) (D.medium store.new)) }
        ensures left { OpeningLeft result (⟦<(M, D) as Shown>⟧.between
            («module».old, store.old) («module».new, store.new)) }
        ensures damage { DamageTold cca result (⟦<(M, D) as Shown>⟧.between
            («module».old, store.old) («module».new, store.new)) }
        ensures stops { IfErr result IsStop }
        ensures opening { IfErr result IsOpeningStop }
        ensures bench { bench.new ≡ blank_bench }
    {
        bench.wipe();
        self.forget_lines();
        self.desk.open(bench, module, store)
    }

    /// Serves one line: it is taken from the source, judged and carried out, and the reply is sent.
    ///
    /// The session was begun, no call of it has answered a stop since, and no line waits.
    pub fn serve_one<S: Source, K: Sink, M: Disk, D: Disk, E: Entropy>(
        &mut self,
        bench: &mut Workbench,
        source: &mut S,
        sink: &mut K,
        module: &mut M,
        store: &mut D,
        entropy: &mut E,
    ) -> Result<Served, Stop>
        requires idle { self.old.waiting ≡ None }
        requires at_end { IsTrue self.old.reading.ended → IsAtEnd (S.left source.old) }
        requires disks { AreSettled module_size store_size
            (⟦<(M, D) as Shown>⟧.shown («module».old, store.old)) }
        requires known { AreKnown self.old.tables (M.medium «module».old) (D.medium store.old) }

        // What the line comes to, from the state for which the disks stand.
        ensures serves { (s : State) → OnDisks cca s (M.medium «module».old) (D.medium store.old)
            → LineLeaves cca s (remembers self.new.tables) result
            (⟦<(S, K, M, D, E) as ShownOutside>⟧.between
            (source.old, sink.old, «module».old, store.old, entropy.old)
            (source.new, sink.new, «module».new, store.new, entropy.new))
            self.old.reading self.new.reading }
        ensures known { OnOk result
            (AreKnown self.new.tables (M.medium «module».new) (D.medium store.new)) }

        // Whatever the disks tell, the sink got a reply where the line is said to be answered.
        ensures replied { result ≡ Ok Served.Replied
            → WhereTold (K.held sink.old) (K.held sink.new) GotReply }
        // How far the input was taken, and which line is shown.
        ensures taken { LineTaken result (⟦<(S, K, M, D, E) as ShownOutside>⟧.between
            (source.old, sink.old, «module».old, store.old, entropy.old)
            (source.new, sink.new, «module».new, store.new, entropy.new))
            self.old.reading self.new.reading }
        // Where no reply is sent, the sink is as before; and where no line was answered, so is all else.
        ensures unmoved { Unmoved result sink.old sink.new «module».old «module».new
            store.old store.new entropy.old entropy.new self.old.tables self.new.tables }
        // What is left of each device, and why it stopped. Disks that tell their bytes don't turn out damaged.
        ensures left { OutsideLeft result (⟦<(S, K, M, D, E) as ShownOutside>⟧.between
            (source.old, sink.old, «module».old, store.old, entropy.old)
            (source.new, sink.new, «module».new, store.new, entropy.new)) }
        ensures undamaged { Undamaged cca result
            (⟦<(M, D) as Shown>⟧.shown («module».old, store.old)) }
        ensures damaged { DamageSpares result (M.medium «module».old) (M.medium «module».new)
            store.old store.new entropy.old entropy.new }
        ensures cut { result ≡ Err Stop.WriteFault → BothSettled
            (⟦<(M, D) as Shown>⟧.shown («module».new, store.new)) }
        ensures stops { IfErr result IsStop }
        ensures idle { self.new.waiting ≡ None }
        ensures bench { bench.new ≡ blank_bench }
    {
        bench.wipe();
        serve_one(
            &mut self.desk,
            &mut self.lines,
            &mut self.reply,
            bench,
            source,
            sink,
            module,
            store,
            entropy,
        )
    }

    /// Takes the next line from the source, as `read_line` does. The line waits then: it is to be answered before
    /// the next one is taken.
    ///
    /// The session was begun, no call of it has answered a stop since, and no line waits.
    pub fn take_line<S: Source>(&mut self, source: &mut S) -> Result<Taken, Stop>
        requires idle { self.old.waiting ≡ None }
        requires at_end { IsTrue self.old.reading.ended → IsAtEnd (S.left source.old) }

        // How far the input was taken, and which line waits.
        ensures read { InputRead result (S.left source.old) (S.left source.new)
            self.old.reading self.new.reading }
        ensures waits { self.new.waiting ≡ waiting_after result }
        ensures tables { self.new.tables ≡ self.old.tables }
        ensures reply { self.new.reply ≡ self.old.reply }
        // Why no line was taken.
        ensures left { TellsFault (S.faults source.old) (S.faults source.new)
            (result ≡ Err Stop.ReadFault) }
        ensures stops { IfErr result IsReadingStop }
    {
        match read_line(source, &mut self.lines) {
            Ok(Taken::End) => Ok(Taken::End),
            Ok(taken) => {
                self.waiting = Some(taken);
                Ok(taken)
            }
            Err(LineFault::ReadFault) => Err(Stop::ReadFault),
            Err(LineFault::InputLimit) => Err(Stop::InputLimit),
        }
    }

    /// The line that was taken last, without its newline. It is empty where none was taken, where
    /// the line is too long, and after ReadFault and InputLimit. Any other stop leaves it.
    pub fn line(&self) -> &[u8]
        ensures { result.now ≡ self.now.reading.line }
    {
        self.lines.line()
    }

    /// Answers the line that waits: it is judged and carried out, and `reply` gives the reply then. After a stop there
    /// is none.
    ///
    /// The session was begun, and no call of it has answered a stop since.
    pub fn answer<M: Disk, D: Disk, E: Entropy>(
        &mut self,
        bench: &mut Workbench,
        module: &mut M,
        store: &mut D,
        entropy: &mut E,
    ) -> Result<(), Stop>
        requires waits { IsSome self.old.waiting }
        requires disks { AreSettled module_size store_size
            (⟦<(M, D) as Shown>⟧.shown («module».old, store.old)) }
        requires known { AreKnown self.old.tables (M.medium «module».old) (D.medium store.old) }

        // What the line comes to, from the state for which the disks stand.
        ensures serves { (s : State) → OnDisks cca s (M.medium «module».old) (D.medium store.old)
            → (line : List ℕ) → IsWaitingLine self.old line
            → Serves cca s (remembers self.new.tables) line result self.new.reply
            (world (M.medium «module».old) (D.medium store.old) (E.left entropy.old))
            (world (M.medium «module».new) (D.medium store.new) (E.left entropy.new)) }
        ensures known { OnOk result
            (AreKnown self.new.tables (M.medium «module».new) (D.medium store.new)) }
        ensures reading { self.new.reading ≡ self.old.reading }
        ensures idle { self.new.waiting ≡ None }
        // Whatever the disks tell, there is a reply, unless it stopped.
        ensures answered { OnOk result (EndsInNewline self.new.reply) }
        ensures unanswered { OnErr result (self.new.reply ≡ []) }
        // What is left of each device, and why it stopped. Disks that tell their bytes don't turn out damaged.
        ensures left { DevicesLeft result (⟦<(M, D, E) as Shown>⟧.between
            («module».old, store.old, entropy.old) («module».new, store.new, entropy.new)) }
        ensures undamaged { Undamaged cca result
            (⟦<(M, D) as Shown>⟧.shown («module».old, store.old)) }
        ensures damaged { DamageSpares result (M.medium «module».old) (M.medium «module».new)
            store.old store.new entropy.old entropy.new }
        ensures stops { IfErr result IsDeskStop }
        ensures bench { bench.new ≡ blank_bench }
    {
        bench.wipe();
        let Some(taken) = self.waiting.take() else {
            unreachable!()
        };
        match answer_taken(
            &mut self.desk,
            taken,
            &self.lines,
            &mut self.reply,
            bench,
            module,
            store,
            entropy,
        ) {
            Ok(()) => Ok(()),
            Err(stop) => {
                self.reply.clear();
                Err(stop)
            }
        }
    }

    /// Answers a line that is handed in, without its newline, as `answer` does the line that waits. A line that waits goes on
    /// waiting.
    ///
    /// The session was begun, and no call of it has answered a stop since.
    pub fn answer_line<M: Disk, D: Disk, E: Entropy>(
        &mut self,
        line: &[u8],
        bench: &mut Workbench,
        module: &mut M,
        store: &mut D,
        entropy: &mut E,
    ) -> Result<(), Stop>
        requires disks { AreSettled module_size store_size
            (⟦<(M, D) as Shown>⟧.shown («module».old, store.old)) }
        requires known { AreKnown self.old.tables (M.medium «module».old) (D.medium store.old) }

        // What the line comes to, from the state for which the disks stand.
        ensures serves { (s : State) → OnDisks cca s (M.medium «module».old) (D.medium store.old)
            → Serves cca s (remembers self.new.tables) line.now result self.new.reply
            (world (M.medium «module».old) (D.medium store.old) (E.left entropy.old))
            (world (M.medium «module».new) (D.medium store.new) (E.left entropy.new)) }
        ensures known { OnOk result
            (AreKnown self.new.tables (M.medium «module».new) (D.medium store.new)) }
        ensures reading { self.new.reading ≡ self.old.reading }
        ensures waiting { self.new.waiting ≡ self.old.waiting }
        // Whatever the disks tell, there is a reply, unless it stopped.
        ensures answered { OnOk result (EndsInNewline self.new.reply) }
        ensures unanswered { OnErr result (self.new.reply ≡ []) }
        // What is left of each device, and why it stopped. Disks that tell their bytes don't turn out damaged.
        ensures left { DevicesLeft result (⟦<(M, D, E) as Shown>⟧.between
            («module».old, store.old, entropy.old) («module».new, store.new, entropy.new)) }
        ensures undamaged { Undamaged cca result
            (⟦<(M, D) as Shown>⟧.shown («module».old, store.old)) }
        ensures damaged { DamageSpares result (M.medium «module».old) (M.medium «module».new)
            store.old store.new entropy.old entropy.new }
        ensures stops { IfErr result IsDeskStop }
        ensures bench { bench.new ≡ blank_bench }
    {
        bench.wipe();
        match answer_handed(
            &mut self.desk,
            line,
            &mut self.reply,
            bench,
            module,
            store,
            entropy,
        ) {
            Ok(()) => Ok(()),
            Err(stop) => {
                self.reply.clear();
                Err(stop)
            }
        }
    }

    /// After `answer`, the reply to that line, with its newline; after a stop of `answer`, nothing.
    pub fn reply(&self) -> &[u8]
        ensures { result.now ≡ self.now.reply }
    {
        self.reply.bytes()
    }

    /// Begins the session, and serves line after line to the end of the input. It takes no memory.
    pub fn serve<S: Source, K: Sink, M: Disk, D: Disk, E: Entropy>(
        &mut self,
        bench: &mut Workbench,
        source: &mut S,
        sink: &mut K,
        module: &mut M,
        store: &mut D,
        entropy: &mut E,
    ) -> Result<(), Stop>
        requires { HaveSizes module_size store_size
            (⟦<(M, D) as Shown>⟧.shown («module».old, store.old)) }

        // What it leaves of all that is outside, and what the lines come to.
        ensures ends { SessionLeft cca result (⟦<(S, K, M, D, E) as ShownOutside>⟧.between
            (source.old, sink.old, «module».old, store.old, entropy.old)
            (source.new, sink.new, «module».new, store.new, entropy.new)) }
        // Where the disks stand for no state, all is as before.
        ensures unsound { (IsSound cca (M.medium «module».old) (D.medium store.old) → ⊥)
            → Untouched source.old source.new sink.old sink.new entropy.old entropy.new
            (⟦<(M, D) as Shown>⟧.between («module».old, store.old) («module».new, store.new)) }
        ensures stops { IfErr result IsStop }
        ensures bench { bench.new ≡ blank_bench }
    {
        bench.wipe();
        self.forget_lines();
        serve(
            &mut self.desk,
            &mut self.lines,
            &mut self.reply,
            bench,
            source,
            sink,
            module,
            store,
            entropy,
        )
    }

    // Drops the bytes that were taken and not answered, a line that waits among them.
    fn forget_lines(&mut self)
        ensures { self.new ≡ record self.old { reading = blank; waiting = None } }
    {
        self.lines.clear();
        self.waiting = None;
    }
}

// Writes the reply to a line that is handed in, of any length, into the reply buffer.
fn answer_handed<A: Desk, M: Disk, D: Disk, E: Entropy>(
    desk: &mut A,
    line: &[u8],
    reply: &mut ReplyBuffer,
    bench: &mut Workbench,
    module: &mut M,
    store: &mut D,
    entropy: &mut E,
) -> Result<(), Stop>
    requires disks { AreSettled A.machine.module_size A.machine.store_size
        (⟦<(M, D) as Shown>⟧.shown («module».old, store.old)) }
    requires ready { A.ready desk.old (M.medium «module».old) (D.medium store.old) }
    requires bench { bench.old ≡ blank_bench }

    ensures serves { (s : A.machine.State)
        → Stands A.machine s (A.knows desk.old) (M.medium «module».old) (D.medium store.old)
        → Serves A.machine s (A.knows desk.new) line.now result reply.new
        (world (M.medium «module».old) (D.medium store.old) (E.left entropy.old))
        (world (M.medium «module».new) (D.medium store.new) (E.left entropy.new)) }
    ensures ready { OnOk result (A.ready desk.new (M.medium «module».new) (D.medium store.new)) }
    ensures line { OnOk result (EndsInNewline reply.new) }
    ensures undamaged { Undamaged A.machine result
        (⟦<(M, D) as Shown>⟧.shown («module».old, store.old)) }
    ensures damaged { DamageSpares result (M.medium «module».old) (M.medium «module».new)
        store.old store.new entropy.old entropy.new }
    ensures left { DevicesLeft result (⟦<(M, D, E) as Shown>⟧.between
        («module».old, store.old, entropy.old) («module».new, store.new, entropy.new)) }
    ensures stops { IfErr result IsDeskStop }
    ensures bench { bench.new ≡ blank_bench }
{
    if line.len() > LINE_LIMIT {
        desk.too_long(reply);
        return Ok(());
    }
    desk.answer(line, reply, bench, module, store, entropy)
}
