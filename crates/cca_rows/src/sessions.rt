//! Sessions, as a program that serves lines one by one would use them.

use crate::runs::{Ends, MODULE_SIZE, STORE_SIZE, blank, ends_of, source_of};
use cca_tool::{Served, Session, Taken};
use key_cells::Workbench;
use slot_disk::{BlankEntropy, Disk};
use std::alloc::Global;
use std::process::Abort;

const LINE: &[u8] = b"CSNBMKP role=DEFAULT action=CLEAR\n";

const REPLY: &[u8] = b"OK new=empty\n";

fn session_of(rt: &impl Abort, alloc: Global) -> Session {
    Session::new(alloc).expect(rt, "a session")
}

// Serves one line by a call for each line, over blank disks.
fn serve_one(rt: &impl Abort, alloc: Global, ends: &mut Ends) -> Served {
    let mut session = session_of(rt, alloc);
    let mut bench = Workbench::new();
    let mut pair = blank(rt, alloc);
    assert!(rt; pair.module.size() == MODULE_SIZE && pair.store.size() == STORE_SIZE);
    session
        .begin(&mut bench, &mut pair.module, &mut pair.store)
        .expect(rt, "begun");
    session
        .serve_one(
            &mut bench,
            &mut ends.source,
            &mut ends.sink,
            &mut pair.module,
            &mut pair.store,
            &mut ends.entropy,
        )
        .expect(rt, "a reply")
}

// Serves all lines over blank disks.
fn serve(rt: &impl Abort, alloc: Global, ends: &mut Ends) {
    let mut session = session_of(rt, alloc);
    let mut pair = blank(rt, alloc);
    assert!(rt; pair.module.size() == MODULE_SIZE && pair.store.size() == STORE_SIZE);
    session
        .serve(
            &mut Workbench::new(),
            &mut ends.source,
            &mut ends.sink,
            &mut pair.module,
            &mut pair.store,
            &mut ends.entropy,
        )
        .expect(rt, "replies")
}

#[test]
fn a_session_serves_one_line_or_all(rt: HostRuntime) {
    let mut ends = ends_of(&rt, rt.alloc(), LINE, 10);
    assert!(rt; serve_one(&rt, rt.alloc(), &mut ends) == Served::Replied);
    assert!(rt; ends.sink.bytes() == REPLY);
    let mut ends = ends_of(&rt, rt.alloc(), b"x\nCSNBMKP role=DEFAULT action=CLEAR", 10);
    serve(&rt, rt.alloc(), &mut ends);
    assert!(rt; ends.sink.bytes() == b"NO 01 -\nOK new=empty\n".as_slice());
}

// Takes the line and answers it, over blank disks.
fn answer(rt: &impl Abort, alloc: Global, session: &mut Session) {
    let mut bench = Workbench::new();
    let mut source = source_of(rt, alloc, LINE, 10);
    let mut pair = blank(rt, alloc);
    assert!(rt; pair.module.size() == MODULE_SIZE && pair.store.size() == STORE_SIZE);
    session
        .begin(&mut bench, &mut pair.module, &mut pair.store)
        .expect(rt, "begun");
    match session.take_line(&mut source) {
        Ok(Taken::Line) => {}
        _ => panic!(rt; "no line"),
    }
    session
        .answer(
            &mut bench,
            &mut pair.module,
            &mut pair.store,
            &mut BlankEntropy::new(),
        )
        .expect(rt, "an answer");
}

#[test]
fn a_session_takes_a_line_and_answers_it(rt: HostRuntime) {
    let mut session = session_of(&rt, rt.alloc());
    answer(&rt, rt.alloc(), &mut session);
    assert!(rt; session.line() == b"CSNBMKP role=DEFAULT action=CLEAR".as_slice());
    assert!(rt; session.reply() == REPLY);
}
