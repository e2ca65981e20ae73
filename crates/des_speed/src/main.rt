//! Measures des_core. With no word it only prints a block of the example of NIST SP 800-67, enciphered and
//! deciphered again. With a word it also measures, and prints a line for each operation: its name, how many
//! are in a round, and the nanoseconds of the fastest of many rounds.
#![tactic(auto)]

ghost use Rattle.std.specs.Prelude.{◌≡◌};
ghost use Rattle.key_cells.specs.Lease.{bench_of};

use des_core::{
    cbc_decipher, cbc_decipher_single, cbc_encipher, cbc_encipher_single, cbc_mac, ded, ede,
    schedule,
};
use key_cells::{Lease, Schedule, Secret, Workbench};
use std::time::{Duration, Instant};
use std::{env, io};

/// How many rounds each operation is measured in.
const ROUNDS: u32 = 400;

/// How many operations a round has.
const COUNT: u64 = 64;

/// The keys of the example of NIST SP 800-67.
const KEYS: [u64; 3] = [
    0x0123_4567_89ab_cdef,
    0x2345_6789_abcd_ef01,
    0x4567_89ab_cdef_0123,
];

fn main(rt: HostRuntime) -> io::Result<()> {
    let schedules = example_schedules();
    let enciphered = ede(&schedules, b"The qufc");
    let deciphered = u64::from_be_bytes(ded(&schedules, &enciphered));
    let sealed = u64::from_be_bytes(enciphered);
    println!(rt; "triple DES {sealed:016x}, and back {deciphered:016x}")?;
    if env::args(&rt)?.count() > 1 {
        report(&rt, "schedule", Operation::KeySchedule)?;
        report(&rt, "block", Operation::Block)?;
        report(&rt, "request", Operation::Request)?;
        report(&rt, "short", Operation::ShortText)?;
        measure_text(&rt)?;
    }
    Ok(())
}

/// An operation of which a round is measured.
#[derive(Clone, Copy)]
enum Operation {
    KeySchedule,
    Block,
    Request,
    ShortText,
}

/// A round of an operation.
fn round(operation: Operation, start: u64) -> u64 {
    match operation {
        Operation::KeySchedule => key_schedules(start),
        Operation::Block => blocks(start),
        Operation::Request => requests(start),
        Operation::ShortText => short_texts(start),
    }
}

/// Prints the time of the fastest round of an operation.
fn report(rt: &HostRuntime, name: &str, operation: Operation) -> io::Result<()> {
    let mut fastest = Duration::MAX;
    let mut sum: u64 = 0;
    for _ in 0..ROUNDS {
        let start = Instant::now(rt)?;
        sum ^= round(operation, sum);
        fastest = fastest.min(start.elapsed(rt)?);
    }
    let nanoseconds = fastest.as_nanos();
    println!(rt; "{name} {COUNT} {nanoseconds} {sum}")
}

fn put_schedule(key: u64, out: &mut Schedule) {
    let mut bytes = key.to_be_bytes();
    schedule(&Secret::guard(&mut bytes), out);
}

fn example_schedules() -> [Schedule; 3] {
    let mut schedules = [Schedule::new(), Schedule::new(), Schedule::new()];
    for i in 0..3 {
        put_schedule(KEYS[i], &mut schedules[i]);
    }
    schedules
}

/// Key schedules, each of a key that hangs on the one before.
fn key_schedules(start: u64) -> u64 {
    let mut out = Schedule::new();
    let mut sum = start;
    for i in 0..COUNT {
        put_schedule(sum ^ i, &mut out);
        sum ^= (out.groups[5] as u64) << 8 ^ out.groups[77] as u64;
    }
    sum
}

/// Blocks by triple DES, each of what the one before gave.
fn blocks(start: u64) -> u64 {
    let schedules = example_schedules();
    let mut sum = start;
    for _ in 0..COUNT {
        sum = u64::from_be_bytes(ede(&schedules, &sum.to_be_bytes()));
    }
    sum
}

/// What a short request costs: eight key schedules and three blocks by triple DES.
fn requests(start: u64) -> u64 {
    let mut schedules = example_schedules();
    let mut sum = start;
    for _ in 0..COUNT {
        for j in 0..8 {
            put_schedule(sum ^ (j as u64) << 40, &mut schedules[j % 3]);
            sum ^= schedules[j % 3].groups[5] as u64;
        }
        for _ in 0..3 {
            sum = u64::from_be_bytes(ede(&schedules, &sum.to_be_bytes()));
        }
    }
    sum
}

/// Texts of 64 bytes, deciphered in a chain one after another in one place.
fn short_texts(start: u64) -> u64 {
    let mut bench = Workbench::new();
    let mut lease = Lease::open(&mut bench);
    *lease.schedules_mut() = example_schedules();
    for i in 0..COUNT {
        lease.set_text_length(64);
        cbc_decipher(&mut lease, &(start ^ i).to_be_bytes());
    }
    lease
        .text()
        .iter()
        .fold(start, |sum, byte| sum.rotate_left(8) ^ *byte as u64)
}

/// An operation over the text of a bench.
#[derive(Clone, Copy)]
enum TextOperation {
    Encipher,
    Decipher,
    EncipherSingle,
    DecipherSingle,
    Mac,
}

/// Carries out an operation over a text of 4,096 bytes, and answers the code, if it makes one.
fn over_text(lease: &mut Lease, operation: TextOperation) -> u64
    requires { (bench_of lease.now).text.size ≡ 4096 }
{
    match operation {
        TextOperation::Encipher => cbc_encipher(lease, &[7; 8]),
        TextOperation::Decipher => cbc_decipher(lease, &[9; 8]),
        TextOperation::EncipherSingle => cbc_encipher_single(lease, &[7; 8]),
        TextOperation::DecipherSingle => cbc_decipher_single(lease, &[9; 8]),
        TextOperation::Mac => {
            return u64::from_be_bytes(cbc_mac(&lease.schedules()[0], lease.text()));
        }
    }
    0
}

/// Prints the time of the fastest round of an operation over a text of 4,096 bytes.
fn report_text(
    rt: &HostRuntime,
    lease: &mut Lease,
    name: &str,
    operation: TextOperation,
) -> io::Result<()> {
    let mut fastest = Duration::MAX;
    let mut sum: u64 = 0;
    for _ in 0..ROUNDS {
        lease.set_text_length(4096);
        let start = Instant::now(rt)?;
        sum ^= over_text(lease, operation);
        fastest = fastest.min(start.elapsed(rt)?);
    }
    let nanoseconds = fastest.as_nanos();
    println!(rt; "{name} 4096 {nanoseconds} {sum}")
}

/// Measures cipher block chaining, by triple DES and by DES, and the message authentication code.
fn measure_text(rt: &HostRuntime) -> io::Result<()> {
    let mut bench = Workbench::new();
    let mut lease = Lease::open(&mut bench);
    *lease.schedules_mut() = example_schedules();
    report_text(rt, &mut lease, "encipher", TextOperation::Encipher)?;
    report_text(rt, &mut lease, "decipher", TextOperation::Decipher)?;
    report_text(
        rt,
        &mut lease,
        "encipher_single",
        TextOperation::EncipherSingle,
    )?;
    report_text(
        rt,
        &mut lease,
        "decipher_single",
        TextOperation::DecipherSingle,
    )?;
    report_text(rt, &mut lease, "mac", TextOperation::Mac)
}
