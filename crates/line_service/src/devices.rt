//! What devices show, as a clause names it.
ghost use Rattle.line_service.specs.Devices.{Devices, devices, Outside, outside, Span};

use device_cells::{Disk, Entropy, Sink, Source};

/// The devices behind a machine: a module, a store and, where there is one, a random source.
pub trait Shown {
    /// What they show, and how often each has failed.
    ghost shown: { Self → Devices };

    /// The same before a call and after it.
    ghost between: { Self → Self → Span Devices };
}

impl<M: Disk, D: Disk> Shown for (M, D) {
    ghost use Rattle.std.specs.Prelude.{None};

    ghost shown = { λ t. devices (M.medium t.0) (M.faults t.0) (D.medium t.1) (D.faults t.1)
        None 0 };

    ghost between = { λ t u. record {
      old = devices (M.medium t.0) (M.faults t.0) (D.medium t.1) (D.faults t.1) None 0;
      new = devices (M.medium u.0) (M.faults u.0) (D.medium u.1) (D.faults u.1) None 0;
    } };
}

impl<M: Disk, D: Disk, E: Entropy> Shown for (M, D, E) {
    ghost shown = { λ t. devices (M.medium t.0) (M.faults t.0) (D.medium t.1) (D.faults t.1)
        (E.left t.2) (E.faults t.2) };

    ghost between = { λ t u. record {
      old = devices (M.medium t.0) (M.faults t.0) (D.medium t.1) (D.faults t.1)
          (E.left t.2) (E.faults t.2);
      new = devices (M.medium u.0) (M.faults u.0) (D.medium u.1) (D.faults u.1)
          (E.left u.2) (E.faults u.2);
    } };
}

/// The same with a sink and, where there is one, a source before them.
pub trait ShownOutside {
    /// What they show before a call and after it, and how often each has failed.
    ghost between: { Self → Self → Span Outside };
}

impl<S: Source, K: Sink, M: Disk, D: Disk, E: Entropy> ShownOutside for (S, K, M, D, E) {
    ghost between = { λ t u. record {
      old = outside (S.left t.0) (S.faults t.0) (K.held t.1) (K.faults t.1)
          (devices (M.medium t.2) (M.faults t.2) (D.medium t.3) (D.faults t.3)
          (E.left t.4) (E.faults t.4));
      new = outside (S.left u.0) (S.faults u.0) (K.held u.1) (K.faults u.1)
          (devices (M.medium u.2) (M.faults u.2) (D.medium u.3) (D.faults u.3)
          (E.left u.4) (E.faults u.4));
    } };
}

// with no source and no random source
impl<K: Sink, M: Disk, D: Disk> ShownOutside for (K, M, D) {
    ghost use Rattle.std.specs.Prelude.{None};

    ghost between = { λ t u. record {
      old = outside None 0 (K.held t.0) (K.faults t.0)
          (devices (M.medium t.1) (M.faults t.1) (D.medium t.2) (D.faults t.2) None 0);
      new = outside None 0 (K.held u.0) (K.faults u.0)
          (devices (M.medium u.1) (M.faults u.1) (D.medium u.2) (D.faults u.2) None 0);
    } };
}
