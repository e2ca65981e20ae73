//! Keys that are given as tokens, under the master keys of the bytes from 01, 21 and 41 upwards.
ghost use Rattle.std.specs.Prelude.{◌≡◌, ◌≢◌, IsSome};
ghost use Rattle.verb_rules.specs.Keys.{HasHalves, IsDouble};

use cca_vectors::Class;
use key_cells::{Lease, MasterPlace};
use master_registers::{NewState, Registers, pattern_of};
use std::process::Abort;
use verb_rules::{Asked, Classes, Judged, Need, judge_key};

/// A token by its words.
pub(crate) fn bytes_of(words: &[u64; 8]) -> [u8; 64] {
    let mut bytes = [0; 64];
    for i in 0..8 {
        bytes[8 * i..8 * i + 8].copy_from_slice(&words[i].to_be_bytes());
    }
    bytes
}

/// The bytes from a first one upwards.
fn put_master(master: &mut [u8; 24], first: u8) {
    for i in 0..24 {
        master[i] = first.wrapping_add(i as u8);
    }
}

/// Fills the three registers.
pub(crate) fn put_masters(lease: &mut Lease) -> Registers
    ensures current { IsSome result.current_pattern }
    ensures full { result.new_state ≡ NewState.Full }
{
    put_master(lease.master_mut(MasterPlace::Current), 0x01);
    put_master(lease.master_mut(MasterPlace::New), 0x21);
    put_master(lease.master_mut(MasterPlace::Old), 0x41);
    Registers {
        new_state: NewState::Full,
        current_pattern: Some(pattern_of(lease, MasterPlace::Current)),
        old_pattern: Some(pattern_of(lease, MasterPlace::Old)),
    }
}

/// A key of any class, whole or a part.
fn need_of(asked: Asked, double: bool) -> Need
    ensures asked { result.asked ≡ asked }
    ensures double { result.double ≡ double }
{
    Need {
        asked,
        classes: Classes::of(&[
            Class::Data,
            Class::Cipher,
            Class::Mac,
            Class::Exporter,
            Class::Importer,
        ]),
        usage: None,
        export: false,
        double,
        parts: true,
    }
}

pub(crate) fn judged(rt: &impl Abort, held: &Registers, asked: Asked, token: &[u64; 8]) -> Judged
    requires { asked ≢ Asked.Either }
    ensures { HasHalves result }
{
    judge_key(&bytes_of(token), &need_of(asked, false), held).expect(rt, "a key token")
}

pub(crate) fn transport(rt: &impl Abort, held: &Registers, token: &[u64; 8]) -> Judged
    ensures { IsDouble result }
{
    judge_key(&bytes_of(token), &need_of(Asked::Internal, true), held).expect(rt, "a transport key")
}
