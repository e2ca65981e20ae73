//! Labels of records.
ghost use Rattle.record_bodies.specs.Labels.{is_label};
ghost use Rattle.std.proofs.Common.{arith};
ghost use Rattle.cca_roles.specs.NameLaws.{label_short};

use cca_roles::{Form, FormedText, is_label};

/// The form of a label.
pub struct LabelForm;

impl Form<64> for LabelForm {
    ghost has = { is_label };

    ghost short = { (label_short, omega arith) };

    fn is(text: &[u8]) -> bool {
        is_label(text)
    }
}

/// A label: 1 to 64 characters of A to Z, 0 to 9, `#`, `$`, `@` and period, of which the first is no digit and
/// no period.
pub type Label = FormedText<LabelForm, 64>;
