//! The access control points as named bits.
ghost use Rattle.std.specs.Prelude.{⊤};
ghost use Rattle.cca_roles.specs.Points.{access_points};

use bitflags::{Flag, Flags, bitflag_items};

/// A set of named bits of 32.
#[derive(Clone, Copy, Debug, PartialEq, Eq)]
pub(crate) struct Points(u32);

bitflag_items! {
    impl Points: u32 {
        const ENC = 0x0000_0001;
        const DEC = 0x0000_0002;
        const MGN = 0x0000_0004;
        const MVR = 0x0000_0008;
        const KYT = 0x0000_0010;
        const CKI = 0x0000_0020;
        const RNG = 0x0000_0040;
        const KGN_OP = 0x0000_0080;
        const KGN_PAIR = 0x0000_0100;
        const KGN_OUT = 0x0000_0200;
        const KIM = 0x0000_0400;
        const KEX = 0x0000_0800;
        const PEX = 0x0000_1000;
        const KTC_CURRENT = 0x0000_2000;
        const KTC_NEW = 0x0000_4000;
        const KRC = 0x0000_8000;
        const KRW = 0x0001_0000;
        const KRR = 0x0002_0000;
        const KRD = 0x0004_0000;
        const KRL = 0x0008_0000;
        const MK_FIRST = 0x0010_0000;
        const MK_COMBINE = 0x0020_0000;
        const MK_CLEAR = 0x0040_0000;
        const MK_SET = 0x0080_0000;
        const ROLES = 0x0100_0000;
        const REENC = 0x0200_0000;
        const KPI_FIRST = 0x0400_0000;
        const KPI_COMBINE = 0x0800_0000;
        const KTR = 0x1000_0000;
    }
}

impl Flags for Points {
    type Bits = u32;

    ghost exact = { ⊤ };

    ghost table = { access_points };

    ghost set_of = { λ p. p.0 };

    fn flags<'a>() -> &'a [Flag<Points>] {
        Points::FLAGS
    }

    fn bits(&self) -> u32 {
        self.0
    }

    fn from_bits_retain(bits: u32) -> Points {
        Points(bits)
    }
}
