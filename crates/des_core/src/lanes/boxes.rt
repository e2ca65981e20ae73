//! The S-boxes of FIPS 46-3 as circuits over 128 lanes. Written by tools/circuits/write.
ghost use Rattle.std.specs.Prelude.{◌≡◌, ◌<◌, ℕ, [], ◌∷◌};
ghost use Rattle.des_blocks.specs.Des.{look_up};
ghost use Rattle.des_blocks.specs.Tables.{s1, s2, s3, s4, s5, s6, s7, s8};
ghost use Rattle.des_core.specs.Lanes.{AreVectors, lane};

use std::simd::prelude::*;

/// The S-box S1 at each lane, by 62 operations.
#[inline(always)]
pub(crate) fn s1(
    x0: u64x2,
    x1: u64x2,
    x2: u64x2,
    x3: u64x2,
    x4: u64x2,
    x5: u64x2,
) -> (u64x2, u64x2, u64x2, u64x2)
    ensures vectors { AreVectors (result.0 ∷ result.1 ∷ result.2 ∷ result.3 ∷ []) }
    ensures lanes { (e i : ℕ) → e < 2 → i < 64
        → lane e i (result.0 ∷ result.1 ∷ result.2 ∷ result.3 ∷ [])
        ≡ look_up s1 (lane e i (x0 ∷ x1 ∷ x2 ∷ x3 ∷ x4 ∷ x5 ∷ [])) }
{
    let x6 = x5 ^ x2;
    let x7 = x6 & x4;
    let x8 = x3 ^ x7;
    let x9 = x4 & !x8;
    let x10 = x6 ^ x9;
    let x11 = x3 & !x10;
    let x12 = x11 & !x5;
    let x13 = x10 ^ x12;
    let x14 = x13 & x0;
    let x15 = x8 ^ x14;
    let x16 = x4 ^ x0;
    let x17 = x13 | x16;
    let x18 = !x4;
    let x19 = x16 & !x7;
    let x20 = x6 ^ x19;
    let x21 = x20 & !x5;
    let x22 = x18 ^ x21;
    let x23 = x22 & !x3;
    let x24 = x17 ^ x23;
    let x25 = x24 & x1;
    let x26 = x15 ^ x25;
    let x27 = x11 ^ x6;
    let x28 = x18 ^ x27;
    let x29 = x16 | x10;
    let x30 = x29 & x0;
    let x31 = x3 ^ x30;
    let x32 = x31 & !x1;
    let x33 = x28 ^ x32;
    let x34 = x26 ^ x11;
    let x35 = x17 & x34;
    let x36 = x28 | x0;
    let x37 = x5 & x36;
    let x38 = x37 | x1;
    let x39 = x35 ^ x38;
    let x40 = x39 & !x2;
    let x41 = x33 ^ x40;
    let x42 = x31 ^ x20;
    let x43 = x16 ^ x42;
    let x44 = x20 & !x8;
    let x45 = x36 ^ x44;
    let x46 = x45 & !x1;
    let x47 = x43 ^ x46;
    let x48 = x28 & !x16;
    let x49 = x31 ^ x2;
    let x50 = x24 & x49;
    let x51 = x50 | x1;
    let x52 = x48 ^ x51;
    let x53 = x52 & x5;
    let x54 = x47 ^ x53;
    let x55 = x26 & !x46;
    let x56 = x17 ^ x55;
    let x57 = x40 | x6;
    let x58 = x50 ^ x57;
    let x59 = x58 & !x3;
    let x60 = x56 ^ x59;
    let x61 = x1 & !x26;
    let x62 = x37 ^ x61;
    let x63 = x33 ^ x12;
    let x64 = x63 & !x0;
    let x65 = x62 ^ x64;
    let x66 = x65 | x4;
    let x67 = x60 ^ x66;
    (x41, x54, x67, x26)
}

/// The S-box S2 at each lane, by 55 operations.
#[inline(always)]
pub(crate) fn s2(
    x0: u64x2,
    x1: u64x2,
    x2: u64x2,
    x3: u64x2,
    x4: u64x2,
    x5: u64x2,
) -> (u64x2, u64x2, u64x2, u64x2)
    ensures vectors { AreVectors (result.0 ∷ result.1 ∷ result.2 ∷ result.3 ∷ []) }
    ensures lanes { (e i : ℕ) → e < 2 → i < 64
        → lane e i (result.0 ∷ result.1 ∷ result.2 ∷ result.3 ∷ [])
        ≡ look_up s2 (lane e i (x0 ∷ x1 ∷ x2 ∷ x3 ∷ x4 ∷ x5 ∷ [])) }
{
    let x6 = x4 ^ x0;
    let x7 = x1 & !x5;
    let x8 = x6 ^ x7;
    let x9 = x4 & x0;
    let x10 = x7 & !x9;
    let x11 = x10 | x3;
    let x12 = x8 ^ x11;
    let x13 = !x10;
    let x14 = !x1;
    let x15 = x4 & x3;
    let x16 = x14 ^ x15;
    let x17 = x16 & x5;
    let x18 = x13 ^ x17;
    let x19 = x18 | x2;
    let x20 = x12 ^ x19;
    let x21 = x6 ^ x2;
    let x22 = x3 & x1;
    let x23 = x21 ^ x22;
    let x24 = x23 ^ x18;
    let x25 = x6 | x24;
    let x26 = x25 & x5;
    let x27 = x23 ^ x26;
    let x28 = x19 & !x26;
    let x29 = x10 ^ x28;
    let x30 = x26 ^ x15;
    let x31 = x30 & !x1;
    let x32 = x29 ^ x31;
    let x33 = x32 | x0;
    let x34 = x27 ^ x33;
    let x35 = x34 ^ x30;
    let x36 = x31 ^ x20;
    let x37 = x36 & !x4;
    let x38 = x35 ^ x37;
    let x39 = x33 & x4;
    let x40 = x14 ^ x39;
    let x41 = x40 & !x6;
    let x42 = x28 ^ x41;
    let x43 = x42 & !x2;
    let x44 = x40 ^ x43;
    let x45 = x44 | x5;
    let x46 = x38 ^ x45;
    let x47 = x26 | x0;
    let x48 = x47 & !x3;
    let x49 = x16 ^ x48;
    let x50 = x0 & !x39;
    let x51 = x50 | x5;
    let x52 = x49 ^ x51;
    let x53 = x3 & !x46;
    let x54 = x33 ^ x53;
    let x55 = x11 & !x28;
    let x56 = x41 | x55;
    let x57 = x56 & !x4;
    let x58 = x54 ^ x57;
    let x59 = x58 & !x2;
    let x60 = x52 ^ x59;
    (x34, x20, x60, x46)
}

/// The S-box S3 at each lane, by 55 operations.
#[inline(always)]
pub(crate) fn s3(
    x0: u64x2,
    x1: u64x2,
    x2: u64x2,
    x3: u64x2,
    x4: u64x2,
    x5: u64x2,
) -> (u64x2, u64x2, u64x2, u64x2)
    ensures vectors { AreVectors (result.0 ∷ result.1 ∷ result.2 ∷ result.3 ∷ []) }
    ensures lanes { (e i : ℕ) → e < 2 → i < 64
        → lane e i (result.0 ∷ result.1 ∷ result.2 ∷ result.3 ∷ [])
        ≡ look_up s3 (lane e i (x0 ∷ x1 ∷ x2 ∷ x3 ∷ x4 ∷ x5 ∷ [])) }
{
    let x6 = x5 ^ x1;
    let x7 = x6 ^ x2;
    let x8 = x7 & x1;
    let x9 = x3 ^ x8;
    let x10 = x9 & x3;
    let x11 = x6 ^ x10;
    let x12 = x9 & !x5;
    let x13 = x2 ^ x12;
    let x14 = x13 & !x4;
    let x15 = x11 ^ x14;
    let x16 = x6 ^ x4;
    let x17 = !x16;
    let x18 = x17 & x3;
    let x19 = x14 ^ x18;
    let x20 = x19 & !x2;
    let x21 = x0 ^ x20;
    let x22 = x21 & x0;
    let x23 = x15 ^ x22;
    let x24 = x18 ^ x2;
    let x25 = !x13;
    let x26 = x25 | x5;
    let x27 = x24 ^ x26;
    let x28 = x3 & !x23;
    let x29 = x28 | x4;
    let x30 = x27 ^ x29;
    let x31 = x28 ^ x6;
    let x32 = x26 & x31;
    let x33 = x10 ^ x7;
    let x34 = x33 & x5;
    let x35 = x7 ^ x34;
    let x36 = x35 & x4;
    let x37 = x32 ^ x36;
    let x38 = x37 | x0;
    let x39 = x30 ^ x38;
    let x40 = x7 ^ x0;
    let x41 = x5 & !x8;
    let x42 = x0 & !x41;
    let x43 = x42 & !x3;
    let x44 = x40 ^ x43;
    let x45 = x9 ^ x2;
    let x46 = x45 | x0;
    let x47 = x8 ^ x46;
    let x48 = x47 & !x4;
    let x49 = x44 ^ x48;
    let x50 = x9 ^ x4;
    let x51 = x36 | x5;
    let x52 = x51 | x1;
    let x53 = x50 ^ x52;
    let x54 = x49 | x3;
    let x55 = x26 & !x54;
    let x56 = x11 & !x27;
    let x57 = x56 & !x1;
    let x58 = x55 ^ x57;
    let x59 = x58 | x0;
    let x60 = x53 ^ x59;
    (x60, x23, x39, x49)
}

/// The S-box S4 at each lane, by 43 operations.
#[inline(always)]
pub(crate) fn s4(
    x0: u64x2,
    x1: u64x2,
    x2: u64x2,
    x3: u64x2,
    x4: u64x2,
    x5: u64x2,
) -> (u64x2, u64x2, u64x2, u64x2)
    ensures vectors { AreVectors (result.0 ∷ result.1 ∷ result.2 ∷ result.3 ∷ []) }
    ensures lanes { (e i : ℕ) → e < 2 → i < 64
        → lane e i (result.0 ∷ result.1 ∷ result.2 ∷ result.3 ∷ [])
        ≡ look_up s4 (lane e i (x0 ∷ x1 ∷ x2 ∷ x3 ∷ x4 ∷ x5 ∷ [])) }
{
    let x6 = x4 | x1;
    let x7 = x6 & x3;
    let x8 = x4 ^ x7;
    let x9 = x1 | x2;
    let x10 = x8 ^ x9;
    let x11 = x3 & x1;
    let x12 = x2 & !x11;
    let x13 = x7 ^ x2;
    let x14 = !x13;
    let x15 = x14 & !x4;
    let x16 = x12 ^ x15;
    let x17 = x16 & !x0;
    let x18 = x10 ^ x17;
    let x19 = x13 ^ x12;
    let x20 = x10 | x2;
    let x21 = x4 ^ x20;
    let x22 = x21 | x0;
    let x23 = x19 ^ x22;
    let x24 = x21 | x17;
    let x25 = x2 & x1;
    let x26 = x24 ^ x25;
    let x27 = x26 & !x3;
    let x28 = x23 ^ x27;
    let x29 = x28 & !x5;
    let x30 = x18 ^ x29;
    let x31 = x0 & !x16;
    let x32 = x8 ^ x31;
    let x33 = x24 ^ x3;
    let x34 = x21 ^ x33;
    let x35 = x34 | x1;
    let x36 = x32 ^ x35;
    let x37 = x18 | x14;
    let x38 = x25 ^ x37;
    let x39 = x27 & !x0;
    let x40 = x10 ^ x39;
    let x41 = x40 & !x4;
    let x42 = x38 ^ x41;
    let x43 = x42 | x5;
    let x44 = x36 ^ x43;
    let x45 = x42 & x5;
    let x46 = x36 ^ x45;
    let x47 = x30 ^ x28;
    let x48 = x5 ^ x47;
    (x30, x48, x44, x46)
}

/// The S-box S5 at each lane, by 62 operations.
#[inline(always)]
pub(crate) fn s5(
    x0: u64x2,
    x1: u64x2,
    x2: u64x2,
    x3: u64x2,
    x4: u64x2,
    x5: u64x2,
) -> (u64x2, u64x2, u64x2, u64x2)
    ensures vectors { AreVectors (result.0 ∷ result.1 ∷ result.2 ∷ result.3 ∷ []) }
    ensures lanes { (e i : ℕ) → e < 2 → i < 64
        → lane e i (result.0 ∷ result.1 ∷ result.2 ∷ result.3 ∷ [])
        ≡ look_up s5 (lane e i (x0 ∷ x1 ∷ x2 ∷ x3 ∷ x4 ∷ x5 ∷ [])) }
{
    let x6 = x0 & !x2;
    let x7 = x6 | x5;
    let x8 = x0 ^ x7;
    let x9 = x2 & !x3;
    let x10 = x8 ^ x9;
    let x11 = x3 ^ x0;
    let x12 = x9 | x11;
    let x13 = x12 & !x5;
    let x14 = x2 ^ x13;
    let x15 = x14 | x4;
    let x16 = x10 ^ x15;
    let x17 = x4 & x2;
    let x18 = !x17;
    let x19 = x4 & !x0;
    let x20 = x6 ^ x19;
    let x21 = x20 & x3;
    let x22 = x18 ^ x21;
    let x23 = x22 ^ x3;
    let x24 = x23 & !x15;
    let x25 = x24 & !x5;
    let x26 = x22 ^ x25;
    let x27 = x26 & !x1;
    let x28 = x16 ^ x27;
    let x29 = x11 ^ x4;
    let x30 = x0 & !x26;
    let x31 = x30 | x2;
    let x32 = x29 ^ x31;
    let x33 = x24 ^ x3;
    let x34 = x19 | x33;
    let x35 = x34 & x5;
    let x36 = x32 ^ x35;
    let x37 = x14 ^ x0;
    let x38 = x3 | x37;
    let x39 = x38 & x1;
    let x40 = x36 ^ x39;
    let x41 = x29 ^ x14;
    let x42 = x15 & x1;
    let x43 = x41 ^ x42;
    let x44 = x23 & !x1;
    let x45 = x42 & x2;
    let x46 = x44 ^ x45;
    let x47 = x22 & !x44;
    let x48 = x47 | x5;
    let x49 = x1 ^ x48;
    let x50 = x49 & x4;
    let x51 = x46 ^ x50;
    let x52 = x51 & !x0;
    let x53 = x43 ^ x52;
    let x54 = x40 | x10;
    let x55 = x41 ^ x54;
    let x56 = x30 | x28;
    let x57 = x38 & x56;
    let x58 = x57 | x1;
    let x59 = x55 ^ x58;
    let x60 = x54 & !x16;
    let x61 = x13 ^ x60;
    let x62 = x40 | x14;
    let x63 = x17 ^ x62;
    let x64 = x63 & x4;
    let x65 = x61 ^ x64;
    let x66 = x65 | x0;
    let x67 = x59 ^ x66;
    (x67, x40, x53, x28)
}

/// The S-box S6 at each lane, by 57 operations.
#[inline(always)]
pub(crate) fn s6(
    x0: u64x2,
    x1: u64x2,
    x2: u64x2,
    x3: u64x2,
    x4: u64x2,
    x5: u64x2,
) -> (u64x2, u64x2, u64x2, u64x2)
    ensures vectors { AreVectors (result.0 ∷ result.1 ∷ result.2 ∷ result.3 ∷ []) }
    ensures lanes { (e i : ℕ) → e < 2 → i < 64
        → lane e i (result.0 ∷ result.1 ∷ result.2 ∷ result.3 ∷ [])
        ≡ look_up s6 (lane e i (x0 ∷ x1 ∷ x2 ∷ x3 ∷ x4 ∷ x5 ∷ [])) }
{
    let x6 = x3 ^ x2;
    let x7 = x5 & !x3;
    let x8 = x7 | x0;
    let x9 = x6 ^ x8;
    let x10 = x5 ^ x3;
    let x11 = x9 | x5;
    let x12 = x11 & x0;
    let x13 = x10 ^ x12;
    let x14 = x13 & x1;
    let x15 = x9 ^ x14;
    let x16 = x15 ^ x10;
    let x17 = x5 ^ x1;
    let x18 = x17 & x0;
    let x19 = x16 ^ x18;
    let x20 = x1 ^ x0;
    let x21 = x18 ^ x20;
    let x22 = x21 & x2;
    let x23 = x19 ^ x22;
    let x24 = x23 & !x4;
    let x25 = x15 ^ x24;
    let x26 = x20 | x2;
    let x27 = x10 ^ x26;
    let x28 = !x2;
    let x29 = x22 & x5;
    let x30 = x29 & x3;
    let x31 = x28 ^ x30;
    let x32 = x31 | x0;
    let x33 = x27 ^ x32;
    let x34 = x33 ^ x23;
    let x35 = x5 & !x34;
    let x36 = x9 & !x35;
    let x37 = x36 & !x2;
    let x38 = x35 ^ x37;
    let x39 = x38 | x4;
    let x40 = x33 ^ x39;
    let x41 = x26 & !x1;
    let x42 = x13 ^ x41;
    let x43 = x9 & !x14;
    let x44 = x32 ^ x43;
    let x45 = x44 & !x5;
    let x46 = x42 ^ x45;
    let x47 = x6 & !x37;
    let x48 = x32 ^ x47;
    let x49 = x48 & !x4;
    let x50 = x46 ^ x49;
    let x51 = x50 & !x33;
    let x52 = x25 ^ x51;
    let x53 = x33 & !x39;
    let x54 = x53 | x1;
    let x55 = x52 ^ x54;
    let x56 = x27 | x15;
    let x57 = x40 | x13;
    let x58 = x51 ^ x57;
    let x59 = x58 & x0;
    let x60 = x56 ^ x59;
    let x61 = x60 | x5;
    let x62 = x55 ^ x61;
    (x40, x62, x25, x50)
}

/// The S-box S7 at each lane, by 58 operations.
#[inline(always)]
pub(crate) fn s7(
    x0: u64x2,
    x1: u64x2,
    x2: u64x2,
    x3: u64x2,
    x4: u64x2,
    x5: u64x2,
) -> (u64x2, u64x2, u64x2, u64x2)
    ensures vectors { AreVectors (result.0 ∷ result.1 ∷ result.2 ∷ result.3 ∷ []) }
    ensures lanes { (e i : ℕ) → e < 2 → i < 64
        → lane e i (result.0 ∷ result.1 ∷ result.2 ∷ result.3 ∷ [])
        ≡ look_up s7 (lane e i (x0 ∷ x1 ∷ x2 ∷ x3 ∷ x4 ∷ x5 ∷ [])) }
{
    let x6 = x5 ^ x1;
    let x7 = x3 & !x6;
    let x8 = !x6;
    let x9 = x8 | x2;
    let x10 = x7 ^ x9;
    let x11 = x1 & !x3;
    let x12 = x5 | x11;
    let x13 = x10 | x1;
    let x14 = x13 & !x2;
    let x15 = x12 ^ x14;
    let x16 = x15 & !x0;
    let x17 = x10 ^ x16;
    let x18 = x12 | x0;
    let x19 = x8 ^ x0;
    let x20 = x19 & !x16;
    let x21 = x20 & !x3;
    let x22 = x18 ^ x21;
    let x23 = x17 & !x0;
    let x24 = x1 ^ x23;
    let x25 = x24 | x2;
    let x26 = x22 ^ x25;
    let x27 = x26 | x4;
    let x28 = x17 ^ x27;
    let x29 = x4 ^ x3;
    let x30 = x0 ^ x29;
    let x31 = x3 & !x4;
    let x32 = x1 ^ x31;
    let x33 = x32 | x2;
    let x34 = x30 ^ x33;
    let x35 = x32 | x6;
    let x36 = x29 ^ x2;
    let x37 = x32 & x36;
    let x38 = x37 & x0;
    let x39 = x35 ^ x38;
    let x40 = x39 & x5;
    let x41 = x34 ^ x40;
    let x42 = x15 & !x38;
    let x43 = x17 ^ x42;
    let x44 = x24 & x5;
    let x45 = x44 & !x3;
    let x46 = x43 ^ x45;
    let x47 = x9 & x3;
    let x48 = x41 & x47;
    let x49 = x37 & x0;
    let x50 = x48 ^ x49;
    let x51 = x50 | x4;
    let x52 = x46 ^ x51;
    let x53 = x44 ^ x2;
    let x54 = x27 ^ x19;
    let x55 = !x54;
    let x56 = x55 | x5;
    let x57 = x53 ^ x56;
    let x58 = x48 ^ x15;
    let x59 = x25 & !x58;
    let x60 = x59 & !x0;
    let x61 = x35 ^ x60;
    let x62 = x61 & x3;
    let x63 = x57 ^ x62;
    (x28, x52, x63, x41)
}

/// The S-box S8 at each lane, by 55 operations.
#[inline(always)]
pub(crate) fn s8(
    x0: u64x2,
    x1: u64x2,
    x2: u64x2,
    x3: u64x2,
    x4: u64x2,
    x5: u64x2,
) -> (u64x2, u64x2, u64x2, u64x2)
    ensures vectors { AreVectors (result.0 ∷ result.1 ∷ result.2 ∷ result.3 ∷ []) }
    ensures lanes { (e i : ℕ) → e < 2 → i < 64
        → lane e i (result.0 ∷ result.1 ∷ result.2 ∷ result.3 ∷ [])
        ≡ look_up s8 (lane e i (x0 ∷ x1 ∷ x2 ∷ x3 ∷ x4 ∷ x5 ∷ [])) }
{
    let x6 = x2 ^ x0;
    let x7 = x0 & !x2;
    let x8 = x1 | x7;
    let x9 = x8 & !x4;
    let x10 = x6 ^ x9;
    let x11 = x4 ^ x1;
    let x12 = !x9;
    let x13 = x12 | x0;
    let x14 = x11 ^ x13;
    let x15 = x14 & !x3;
    let x16 = x10 ^ x15;
    let x17 = x16 & !x0;
    let x18 = x3 ^ x17;
    let x19 = x3 & !x8;
    let x20 = x14 ^ x19;
    let x21 = x20 & !x2;
    let x22 = x18 ^ x21;
    let x23 = x1 & !x16;
    let x24 = x2 ^ x23;
    let x25 = x24 & x4;
    let x26 = x22 ^ x25;
    let x27 = x26 | x5;
    let x28 = x16 ^ x27;
    let x29 = x2 | x1;
    let x30 = x8 | x4;
    let x31 = x29 ^ x30;
    let x32 = x29 ^ x4;
    let x33 = x6 & x32;
    let x34 = x33 | x3;
    let x35 = x31 ^ x34;
    let x36 = x35 & x5;
    let x37 = x16 ^ x36;
    let x38 = x33 ^ x3;
    let x39 = x23 & !x0;
    let x40 = x39 | x4;
    let x41 = x38 ^ x40;
    let x42 = x8 & !x18;
    let x43 = x12 ^ x42;
    let x44 = x43 & !x5;
    let x45 = x41 ^ x44;
    let x46 = x30 & x14;
    let x47 = x46 & x5;
    let x48 = x12 ^ x47;
    let x49 = x48 & x2;
    let x50 = x45 ^ x49;
    let x51 = x33 ^ x1;
    let x52 = x23 & x5;
    let x53 = x4 ^ x52;
    let x54 = x53 & !x3;
    let x55 = x51 ^ x54;
    let x56 = x5 & !x21;
    let x57 = x27 | x4;
    let x58 = x56 ^ x57;
    let x59 = x58 & x0;
    let x60 = x55 ^ x59;
    (x28, x50, x60, x37)
}
