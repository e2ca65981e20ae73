//! The laws of the ciphers, each the contract of a call that does nothing.
ghost use Rattle.std.specs.Prelude.{◌≡◌, List, length, ℕ};
ghost use Rattle.key_cells.specs.declared.schedules.Schedule.{Schedule};
ghost use Rattle.des_blocks.specs.Bits.{AreBytes, xor};
ghost use Rattle.des_blocks.specs.Des.{decipher, encipher, round_keys};
ghost use Rattle.des_blocks.specs.Schedules.{ded_under, each_xor, ede_under};
ghost use Rattle.des_blocks.specs.TripleDes.{ded, deciphered, ede, enciphered};

/// The key schedule is linear: the round keys of the XOR of two keys are the XOR of their round keys, one by one.
pub fn key_schedule_is_linear()
    ensures { (a b : List ℕ) → length a ≡ length b
        → round_keys (xor a b) ≡ each_xor (round_keys a) (round_keys b) }
{}

/// Deciphering and enciphering a block of 64 bits undo each other, for every list of round keys.
pub fn deciphering_undoes_enciphering()
    ensures undone { (keys : List (List ℕ)) (block : List ℕ) → length block ≡ 64
        → decipher keys (encipher keys block) ≡ block }
    ensures redone { (keys : List (List ℕ)) (block : List ℕ) → length block ≡ 64
        → encipher keys (decipher keys block) ≡ block }
{}

/// `ded` and `ede` of a block of 64 bits undo each other, for every three schedules.
pub fn ded_undoes_ede()
    ensures undone { (keys : List Schedule) (block : List ℕ) → length block ≡ 64
        → ded_under keys (ede_under keys block) ≡ block }
    ensures redone { (keys : List Schedule) (block : List ℕ) → length block ≡ 64
        → ede_under keys (ded_under keys block) ≡ block }
{}

/// `ded` and `ede` of 8 bytes are 8 bytes and undo each other, for every three keys. Under three equal
/// keys they are DES.
pub fn ded_undoes_ede_of_bytes()
    ensures enciphered { (a b c block : List ℕ) → AreBytes 8 (ede a b c block) }
    ensures deciphered { (a b c block : List ℕ) → AreBytes 8 (ded a b c block) }
    ensures undone { (a b c block : List ℕ) → AreBytes 8 block
        → ded a b c (ede a b c block) ≡ block }
    ensures redone { (a b c block : List ℕ) → AreBytes 8 block
        → ede a b c (ded a b c block) ≡ block }
    ensures single { (key block : List ℕ) → AreBytes 8 block
        → ede key key key block ≡ enciphered key block }
    ensures single_back { (key block : List ℕ) → AreBytes 8 block
        → ded key key key block ≡ deciphered key block }
{}
