//! What a role may do.
ghost use Rattle.std.specs.Prelude.{◌≡◌, ◌↔◌, ◌<◌, ◌^◌, IfSome, IsSome, IsTrue};
ghost use Rattle.std.specs.Int.RustNames.{bit_or};
ghost use Rattle.cca_roles.specs.Points.{ArePoints, every_point, includes};

use crate::points::Points;
use bitflags::Flags;
use std::marker::Model;

/// A set of access control points.
#[derive(Clone, Copy, Debug, PartialEq, Eq)]
pub struct AccessPoints {
    points: Points,
}

// Clauses see its number, in which each point is a bit.
impl Model for AccessPoints {
    ghost use Rattle.std.specs.Prelude.{ℕ};
    ghost use Rattle.cca_roles.specs.Points.{ArePoints};

    ghost Value = { ℕ };

    ghost view = { λ a. a.points.0 };

    ghost invariant = { λ a. ArePoints a.points.0 };

    ghost inverse = { λ n. record { points = record { 0 = n } } };
}

impl AccessPoints {
    /// Needed by CSNBENC.
    pub const ENC: AccessPoints = AccessPoints {
        points: Points::ENC,
    };

    /// Needed by CSNBDEC.
    pub const DEC: AccessPoints = AccessPoints {
        points: Points::DEC,
    };

    /// Needed by CSNBMGN.
    pub const MGN: AccessPoints = AccessPoints {
        points: Points::MGN,
    };

    /// Needed by CSNBMVR.
    pub const MVR: AccessPoints = AccessPoints {
        points: Points::MVR,
    };

    /// Needed by CSNBKYT.
    pub const KYT: AccessPoints = AccessPoints {
        points: Points::KYT,
    };

    /// Needed by CSNBCKI.
    pub const CKI: AccessPoints = AccessPoints {
        points: Points::CKI,
    };

    /// Needed by CSNBRNG.
    pub const RNG: AccessPoints = AccessPoints {
        points: Points::RNG,
    };

    /// Needed by CSNBKGN, form OP.
    pub const KGN_OP: AccessPoints = AccessPoints {
        points: Points::KGN_OP,
    };

    /// Needed by CSNBKGN, forms OPEX and OPIM.
    pub const KGN_PAIR: AccessPoints = AccessPoints {
        points: Points::KGN_PAIR,
    };

    /// Needed by CSNBKGN, forms IMEX, EXEX and IMIM.
    pub const KGN_OUT: AccessPoints = AccessPoints {
        points: Points::KGN_OUT,
    };

    /// Needed by CSNBKIM.
    pub const KIM: AccessPoints = AccessPoints {
        points: Points::KIM,
    };

    /// Needed by CSNBKEX.
    pub const KEX: AccessPoints = AccessPoints {
        points: Points::KEX,
    };

    /// Needed by CSNBPEX.
    pub const PEX: AccessPoints = AccessPoints {
        points: Points::PEX,
    };

    /// Needed by CSNBKTC, rule RTCMK.
    pub const KTC_CURRENT: AccessPoints = AccessPoints {
        points: Points::KTC_CURRENT,
    };

    /// Needed by CSNBKTC, rule RTNMK.
    pub const KTC_NEW: AccessPoints = AccessPoints {
        points: Points::KTC_NEW,
    };

    /// Needed by CSNBKRC.
    pub const KRC: AccessPoints = AccessPoints {
        points: Points::KRC,
    };

    /// Needed by CSNBKRW, and each verb whose key goes into a record.
    pub const KRW: AccessPoints = AccessPoints {
        points: Points::KRW,
    };

    /// Needed by CSNBKRR.
    pub const KRR: AccessPoints = AccessPoints {
        points: Points::KRR,
    };

    /// Needed by CSNBKRD.
    pub const KRD: AccessPoints = AccessPoints {
        points: Points::KRD,
    };

    /// Needed by CSNBKRL.
    pub const KRL: AccessPoints = AccessPoints {
        points: Points::KRL,
    };

    /// Needed by CSNBMKP, action FIRST.
    pub const MK_FIRST: AccessPoints = AccessPoints {
        points: Points::MK_FIRST,
    };

    /// Needed by CSNBMKP, actions MIDDLE and LAST.
    pub const MK_COMBINE: AccessPoints = AccessPoints {
        points: Points::MK_COMBINE,
    };

    /// Needed by CSNBMKP, action CLEAR.
    pub const MK_CLEAR: AccessPoints = AccessPoints {
        points: Points::MK_CLEAR,
    };

    /// Needed by CSNBMKP, action SET.
    pub const MK_SET: AccessPoints = AccessPoints {
        points: Points::MK_SET,
    };

    /// Needed by CSUAACI.
    pub const ROLES: AccessPoints = AccessPoints {
        points: Points::ROLES,
    };

    /// Needed by REENCIPHER.
    pub const REENC: AccessPoints = AccessPoints {
        points: Points::REENC,
    };

    /// Needed by CSNBKPI, rule FIRST.
    pub const KPI_FIRST: AccessPoints = AccessPoints {
        points: Points::KPI_FIRST,
    };

    /// Needed by CSNBKPI, rules MIDDLE and LAST.
    pub const KPI_COMBINE: AccessPoints = AccessPoints {
        points: Points::KPI_COMBINE,
    };

    /// Needed by CSNBKTR.
    pub const KTR: AccessPoints = AccessPoints {
        points: Points::KTR,
    };

    /// No point.
    pub fn empty() -> AccessPoints
        ensures { result ≡ 0 }
    {
        AccessPoints {
            points: Points::empty(),
        }
    }

    /// Every point that is known.
    pub fn all() -> AccessPoints
        ensures { result ≡ every_point }
    {
        AccessPoints {
            points: Points::all(),
        }
    }

    /// The points of a number, where no bit is on that isn't a point.
    pub fn from_bits(bits: u32) -> Option<AccessPoints>
        ensures known { IsSome result ↔ ArePoints bits }
        ensures same { IfSome result (λ points. points ≡ bits) }
    {
        match Points::from_bits(bits) {
            Some(points) => Some(AccessPoints { points }),
            None => None,
        }
    }

    /// Their number.
    pub fn bits(&self) -> u32
        ensures bits { result ≡ self.now }
        ensures known { ArePoints self.now }
    {
        self.points.bits()
    }

    /// Whether every point of `other` is among these.
    pub fn contains(&self, other: AccessPoints) -> bool
        ensures { result ≡ includes self.now other }
    {
        self.points.contains(other.points)
    }

    /// These points and those of `other`.
    pub fn union(self, other: AccessPoints) -> AccessPoints
        ensures { result ≡ bit_or self other }
    {
        AccessPoints {
            points: self.points.union(other.points),
        }
    }
}
