//! Short texts of a form.
ghost use Rattle.std.specs.Prelude.{◌≡◌, ◌≤◌, ◌<◌, ◌+◌, ◌++◌, ◌-◌, ◌↔◌, ℕ, List, Bool, length, replicate, IfSome, IsSome, IsTrue, bytes_eq};
ghost use Rattle.std.specs.Cmp.Lexicographic.{slice_cmp};
ghost use Rattle.std.specs.Ordering.{nat_cmp};

use device_cells::Steps;
use key_cells::ShortList;
use std::cmp::Ordering;
use std::marker::{Model, PhantomData};

/// A form of texts, none longer than `N` bytes.
pub trait Form<const N: usize> {
    /// Whether a text has it.
    ghost has: { List ℕ → Bool };

    /// No text that has it is longer, and a byte counts as many.
    ghost short: { ((text : List ℕ) → IsTrue (has text) → length text ≤ N) × (N < 256) };

    /// Whether a text has it.
    fn is(text: &[u8]) -> bool
        ensures { result ≡ has text.now };
}

/// A text that has the form `F`, kept in `N` bytes.
#[derive_where(Clone, Copy, Debug, PartialEq, Eq)]
pub struct FormedText<F: Form<N>, const N: usize> {
    text: ShortList<N>,
    form: PhantomData<F>,
}

// Clauses see the text.
impl<F: Form<N>, const N: usize> Model for FormedText<F, N> {
    ghost use Rattle.std.specs.Prelude.{ℕ, List, IsTrue};

    ghost Value = { List ℕ };

    ghost view = { λ s. s.text };

    ghost invariant = { λ s. IsTrue (F.has s.text) };

    ghost inverse = { λ list. record { text = list; form = record {} } };
}

impl<F: Form<N>, const N: usize> FormedText<F, N> {
    /// A text that has the form.
    pub fn of(text: &[u8]) -> FormedText<F, N>
        requires form { IsTrue (F.has text.now) }
        ensures { result ≡ text.now }
    {
        FormedText {
            text: ShortList::of(text),
            form: PhantomData,
        }
    }

    /// A text, where it has the form.
    pub fn read(text: &[u8]) -> Option<FormedText<F, N>>
        ensures found { IfSome result (λ formed. formed ≡ text.now) }
        ensures form { IsSome result ↔ IsTrue (F.has text.now) }
    {
        if F::is(text) {
            Some(FormedText::of(text))
        } else {
            None
        }
    }

    /// The text.
    pub fn text(&self) -> &[u8]
        ensures text { result.now ≡ self.now }
        ensures form { IsTrue (F.has self.now) }
    {
        self.text.bytes()
    }

    /// The text, filled with zeros.
    pub fn filled(&self) -> &[u8; N]
        ensures { result.now ≡ self.now ++ replicate (N - length self.now) 0 }
    {
        self.text.filled()
    }

    /// How long it is.
    pub fn length(&self) -> u8
        ensures length { result ≡ length self.now }
        ensures short { length self.now ≤ N }
        ensures form { IsTrue (F.has self.now) }
    {
        self.text.length()
    }

    /// Whether the other is the same text.
    pub fn is(&self, other: &FormedText<F, N>) -> bool
        ensures { result ≡ bytes_eq self.now other.now }
    {
        self.text() == other.text()
    }

    /// Compares two whole texts by their bytes, which is one step.
    pub fn compare<L>(&self, other: &FormedText<F, N>, steps: &mut Steps<L>) -> Ordering
        ensures order { result ≡ slice_cmp nat_cmp self.now other.now }
        ensures step { steps.new ≡ steps.old + 1 }
    {
        steps.tick();
        self.text().cmp(other.text())
    }
}
