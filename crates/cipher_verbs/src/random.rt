//! Random bytes, as they are drawn or with a parity.
ghost use Rattle.std.specs.Prelude.{◌≡◌, IfOk, length};
ghost use Rattle.device_cells.specs.Faults.{HasCause};
ghost use Rattle.cipher_verbs.specs.RandomBytes.{Draws, random_form_of_name, in_form};

use device_cells::{Entropy, Failed};
use verb_rules::{set_even_parity, set_odd_parity};

/// The form of random bytes.
#[derive(Clone, Copy, Debug, PartialEq, Eq)]
pub enum RandomForm {
    /// As they are drawn.
    Random,
    /// With odd parity in each byte, by its low-order bit.
    Odd,
    /// With even parity in each byte, by its low-order bit.
    Even,
}

impl RandomForm {
    /// The form with this name: RANDOM, ODD or EVEN; none where the text is none of these.
    pub fn read(text: &[u8]) -> Option<RandomForm>
        ensures { result ≡ random_form_of_name text.now }
    {
        if text == b"RANDOM".as_slice() {
            Some(RandomForm::Random)
        } else if text == b"ODD".as_slice() {
            Some(RandomForm::Odd)
        } else if text == b"EVEN".as_slice() {
            Some(RandomForm::Even)
        } else {
            None
        }
    }
}

fn set_form(form: RandomForm, bytes: &mut [u8; 8])
    ensures { bytes.new ≡ in_form form bytes.old }
{
    match form {
        RandomForm::Random => {}
        RandomForm::Odd => set_odd_parity(bytes),
        RandomForm::Even => set_even_parity(bytes),
    }
}

/// Eight random bytes in a form. After `Failed` nothing is known of the bytes still to come.
pub fn random_number<E: Entropy>(form: RandomForm, entropy: &mut E) -> Result<[u8; 8], Failed>
    ensures drawn { IfOk result (Draws form (E.left entropy.old) (E.left entropy.new)) }
    ensures cause { HasCause (E.faults entropy.old) (E.faults entropy.new) result }
{
    let mut bytes = [0; 8];
    entropy.fill(&mut bytes)?;
    set_form(form, &mut bytes);
    Ok(bytes)
}
