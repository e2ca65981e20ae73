//! Keys that are opened, scheduled and written, and the parity of bytes.
ghost use Rattle.std.specs.Prelude.{◌≡◌, IsSome};
ghost use Rattle.key_tokens.specs.declared.key_token.Asked.{Asked};
ghost use Rattle.verb_rules.specs.Keys.{HasHalves};

use crate::sealed_keys::vector;
use cca_vectors::{Class, Vector};
use des_blocks::encipher_block;
use key_cells::{KeyPlace, Lease, MasterPlace, Workbench};
use key_tokens::{Kind, Token};
use master_registers::{NewState, Registers, pattern_of};
use multi_encipher::{Under, seal};
use std::process::Abort;
use verb_rules::{
    Age, Asked, Classes, Judged, Need, judge_key, open_key, schedule_key, set_even_parity,
    set_odd_parity, write_current,
};

const DOUBLE_KEY: [u8; 16] = *b"0123456789abcdef";

const SINGLE_KEY: [u8; 16] = *b"01234567\0\0\0\0\0\0\0\0";

fn single(rt: &impl Abort) -> Vector {
    vector(rt, 0, 0)
}

fn double(rt: &impl Abort) -> Vector {
    vector(rt, 0x0000_7d00_0341_0000, 0x0000_7d00_0321_0000)
}

/// Registers that hold this pattern of the current master key.
fn registers(lease: &Lease) -> Registers
    ensures { IsSome result.current_pattern }
{
    Registers {
        new_state: NewState::Empty,
        current_pattern: Some(pattern_of(lease, MasterPlace::Current)),
        old_pattern: None,
    }
}

/// Asks for an internal token of a DATA key.
fn data_need() -> Need
    ensures { result.asked ≡ Asked.Internal }
{
    Need {
        asked: Asked::Internal,
        classes: Classes::of(&[Class::Data]),
        usage: None,
        export: false,
        double: false,
        parts: false,
    }
}

/// What a key opens to that was written under the current master key.
fn written(rt: &impl Abort, vector: &Vector, key: [u8; 16]) -> [u8; 16] {
    let mut bench = Workbench::new();
    let mut lease = Lease::open(&mut bench);
    *lease.master_mut(MasterPlace::Current) = *b"abcdefghijklmnopqrstuvwx";
    let held = registers(&lease);
    *lease.key_mut(KeyPlace::Key) = key;
    let token = write_current(&mut lease, &held, vector);
    let judged = judge_key(&token, &data_need(), &held).expect(rt, "a key token");
    assert!(rt; judged.age == Some(Age::Current));
    open_key(&mut lease, &judged, KeyPlace::First);
    *lease.key(KeyPlace::First)
}

/// A token that is written under the current master key opens to its key.
#[test]
fn a_written_key_is_opened(rt: HostRuntime) {
    assert!(rt; written(&rt, &single(&rt), SINGLE_KEY) == SINGLE_KEY);
    assert!(rt; written(&rt, &double(&rt), DOUBLE_KEY) == DOUBLE_KEY);
}

/// A key in the place `Key`, enciphered under the old master key.
fn old_key(lease: &mut Lease, vector: &Vector) -> Judged
    ensures { HasHalves result }
{
    *lease.master_mut(MasterPlace::Old) = *b"abcdefghijklmnopqrstuvwx";
    let sealed = seal(lease, Under::Old, vector);
    Judged {
        token: Token {
            kind: Kind::Internal,
            pattern: [0; 8],
            sealed,
            vector: *vector,
        },
        age: Some(Age::Old),
    }
}

#[test]
fn a_key_under_the_old_master_key(rt: HostRuntime) {
    let mut bench = Workbench::new();
    let mut lease = Lease::open(&mut bench);
    *lease.key_mut(KeyPlace::Key) = DOUBLE_KEY;
    let key = old_key(&mut lease, &double(&rt));
    open_key(&mut lease, &key, KeyPlace::Second);
    assert!(rt; *lease.key(KeyPlace::Second) == DOUBLE_KEY);
    let current = Judged {
        age: Some(Age::Current),
        ..key
    };
    open_key(&mut lease, &current, KeyPlace::Second);
    assert!(rt; *lease.key(KeyPlace::Second) != DOUBLE_KEY);
}

/// The published encipherment of a block, under each of the three schedules.
#[test]
fn a_single_length_key_three_times(rt: HostRuntime) {
    let mut bench = Workbench::new();
    let mut lease = Lease::open(&mut bench);
    lease.key_mut(KeyPlace::Key)[..8].copy_from_slice(&0x0123_4567_89ab_cdefu64.to_be_bytes());
    let key = old_key(&mut lease, &single(&rt));
    schedule_key(&mut lease, &key);
    for schedule in lease.schedules() {
        let block = encipher_block(schedule, &0x4e6f_7720_6973_2074u64.to_be_bytes());
        assert!(rt; u64::from_be_bytes(block) == 0x3fa4_0e8a_984d_4815);
    }
}

#[test]
fn parity(rt: HostRuntime) {
    for (byte, odd, even) in [
        (0x00, 0x01, 0x00),
        (0x01, 0x01, 0x00),
        (0x80, 0x80, 0x81),
        (0xfe, 0xfe, 0xff),
        (0xff, 0xfe, 0xff),
        (0x7e, 0x7f, 0x7e),
    ] {
        let mut bytes = [byte; 2];
        set_odd_parity(&mut bytes);
        assert!(rt; bytes == [odd; 2]);
        set_even_parity(&mut bytes);
        assert!(rt; bytes == [even; 2]);
    }
}
