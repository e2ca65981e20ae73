//! What an operand stands for, where it breaks no rule.
ghost use Rattle.std.specs.Prelude.{◌≡◌, Some, None, IsTrue};
ghost use Rattle.verb_script.specs.Grammar.{is_hex};
ghost use Rattle.verb_script.specs.Values.{hex_value};

use key_tokens::Token;
use record_bodies::Place;
use verb_rules::Judged;
use verb_script::decode;

/// What an operand stands for, where it breaks no rule.
#[derive(Clone, Copy)]
pub struct Grant {
    /// The key token, where one is asked for by its own rules.
    pub token: Option<Token>,
    /// The key, where one is asked for.
    pub key: Option<Judged>,
    /// The place of the label, where one that is held is asked for.
    pub place: Option<Place>,
}

/// What the operands stand for.
#[derive(Clone, Copy)]
pub struct Granted {
    /// The first one.
    pub first: Grant,
    /// The second one.
    pub second: Grant,
    /// The third one.
    pub third: Grant,
}

impl Grant {
    /// Nothing is asked of it.
    pub fn nothing() -> Grant
        ensures { result ≡ record { token = None; key = None; place = None } }
    {
        Grant {
            token: None,
            key: None,
            place: None,
        }
    }

    /// A token that was read.
    pub fn of_token(token: Token) -> Grant
        ensures { result ≡ record { token = Some token; key = None; place = None } }
    {
        Grant {
            token: Some(token),
            key: None,
            place: None,
        }
    }

    /// A key that was judged.
    pub fn of_key(key: Judged) -> Grant
        ensures { result ≡ record { token = None; key = Some key; place = None } }
    {
        Grant {
            token: None,
            key: Some(key),
            place: None,
        }
    }

    /// The place of a label.
    pub fn of_place(place: Place) -> Grant
        ensures { result ≡ record { token = None; key = None; place = Some place } }
    {
        Grant {
            token: None,
            key: None,
            place: Some(place),
        }
    }
}

/// The bytes of a key token that 128 hexadecimal digits spell.
pub fn token_bytes(digits: &[u8]) -> [u8; 64]
    requires { IsTrue (is_hex 128 digits.now) }
    ensures { result ≡ hex_value digits.now }
{
    let mut bytes = [0; 64];
    decode(digits, &mut bytes);
    bytes
}
