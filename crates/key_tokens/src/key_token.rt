use cca_vectors::Vector;
use multi_encipher::Sealed;
use thiserror::Error;

/// Under which key a token's key is enciphered.
#[derive(Clone, Copy, Debug, PartialEq, Eq)]
pub enum Kind {
    /// Under a master key of this coprocessor.
    Internal,
    /// Under a transport key.
    External,
}

/// Which kind of token is wanted.
#[derive(Clone, Copy, Debug, PartialEq, Eq)]
pub enum Asked {
    Internal,
    External,
    Either,
}

/// Which master key an internal token's key is under.
#[derive(Clone, Copy, Debug, PartialEq, Eq)]
pub enum Age {
    /// The one in the current register.
    Current,
    /// The one in the old register.
    Old,
}

/// What a key token says.
#[derive(Clone, Copy, Debug, PartialEq, Eq)]
pub struct Token {
    pub kind: Kind,
    /// The verification pattern of the master key; zeros in an external token.
    pub pattern: [u8; 8],
    pub sealed: Sealed,
    pub vector: Vector,
}

/// The first rule that 64 bytes break, in the order of these variants.
#[derive(Clone, Copy, Debug, PartialEq, Eq, Error)]
pub enum TokenFault {
    #[error("the token isn't of the kind that is asked for")]
    Kind,
    #[error("the token validation value isn't that of the token")]
    Tvv,
    #[error("the version isn't 00")]
    Version,
    #[error("the flag is neither C0 nor, with a zero vector, 80")]
    Flag,
    #[error("a reserved byte isn't zero")]
    Reserved,
    #[error("a byte of the control vector has an odd number of ones")]
    Parity,
    #[error("a half of the control vector isn't anti-variant")]
    AntiVariant,
    #[error("the halves don't have the key form of the control vector")]
    Form,
}
