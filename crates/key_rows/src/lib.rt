//! Tests of keys, and of the verbs over keys that are given as tokens: CSNBENC, CSNBDEC, CSNBMGN, CSNBMVR, CSNBKYT, CSNBCKI,
//! CSNBRNG, CSNBKGN, CSNBKIM, CSNBKEX, CSNBKTC, CSNBKPI and CSNBKTR. They are chains under DES and codes, control vectors and
//! types of keys by tables, the rule that a token breaks first, and tokens under transport keys, as other programs make them;
//! and published answers of DES and a few types of keys that the definitions compute. It is a crate of tests.
#![tactic(auto)]

ghost use Rattle.key_rows.specs.PublishedVectors.{AreAnswered, single_vectors, TripleAnswered};
ghost use Rattle.key_rows.specs.WorkedTypes.{TypesStand};

#[cfg(test)]
mod benches;
#[cfg(test)]
mod codes;
#[cfg(test)]
mod des;
#[cfg(test)]
mod given_keys;
#[cfg(test)]
mod names;
#[cfg(test)]
mod opened_keys;
#[cfg(test)]
mod parts;
#[cfg(test)]
mod rules;
#[cfg(test)]
mod sealed_keys;
#[cfg(test)]
mod sealing;
#[cfg(test)]
mod texts;
#[cfg(test)]
mod tokens;
#[cfg(test)]
mod transport;
#[cfg(test)]
mod vectors;

/// DES as the definitions have it gives the published answers, of which nineteen reach every entry of every S-box.
pub fn published_vectors()
    ensures single { AreAnswered single_vectors }
    ensures triple { TripleAnswered }
{}

/// Which texts name a type of keys, and which types are a pair: the definitions compute it.
pub fn worked_types()
    ensures { TypesStand }
{}
