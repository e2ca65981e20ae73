//! Which access control points it takes to get keys, data and MACs in a reply.

ghost use Rattle.std.specs.Prelude.{◌≡◌, ◌≢◌, ℕ, List, codes};
ghost use Rattle.cca_machine.specs.Points.{point};
ghost use Rattle.cca_machine.specs.State.{State};
ghost use Rattle.verb_script.specs.Grammar.{value_of};
ghost use Rattle.verb_script.specs.declared.rows.RequestName.TheVariants.{Csnbktc};
ghost use Rattle.cca_laws.specs.EachLine.{EachRequest};
ghost use Rattle.cca_laws.specs.EachReply.{EachAnswer, EachReply};
ghost use Rattle.cca_laws.specs.Exports.{IsRefused, Lacks, ShowsNoToken, chain_points, export_points, text_points, token_points, verb_point};
ghost use Rattle.cca_laws.specs.Points.{HoldsNone};
ghost use Rattle.cca_laws.specs.Uses.{ShowsNoExternal};

/// Over any lines: if no line's role has KEX, KTR, KGN_PAIR or KGN_OUT at its turn, no reply has an external token; and
/// if none has a point by which tokens are given out, none has a token. If none has ENC or DEC, no reply has a plaintext
/// or a ciphertext; if none has MGN, none has a MAC; if none has MVR, none says whether a MAC matches; if none has KYT,
/// none has a key check value; and if none has any of the first four, none has a chaining value. A verb whose point no
/// line's role has is refused each time, whatever other points they have; and so is CSNBKTC to the current and to the new
/// master key.
pub fn points_for_exports_and_texts()
    ensures external { (s : State) (random : List ℕ) (lines : List (List ℕ))
        → EachRequest (HoldsNone export_points) s random lines
        → EachReply ShowsNoExternal s random lines }
    ensures token { (s : State) (random : List ℕ) (lines : List (List ℕ))
        → EachRequest (HoldsNone token_points) s random lines
        → EachReply ShowsNoToken s random lines }
    ensures text { (s : State) (random : List ℕ) (lines : List (List ℕ))
        → EachRequest (HoldsNone text_points) s random lines
        → EachReply (Lacks (codes "text")) s random lines }
    ensures chain { (s : State) (random : List ℕ) (lines : List (List ℕ))
        → EachRequest (HoldsNone chain_points) s random lines
        → EachReply (Lacks (codes "chain")) s random lines }
    ensures mac { (s : State) (random : List ℕ) (lines : List (List ℕ))
        → EachRequest (HoldsNone (point (codes "MGN"))) s random lines
        → EachReply (Lacks (codes "mac")) s random lines }
    ensures matches { (s : State) (random : List ℕ) (lines : List (List ℕ))
        → EachRequest (HoldsNone (point (codes "MVR"))) s random lines
        → EachReply (Lacks (codes "match")) s random lines }
    ensures value { (s : State) (random : List ℕ) (lines : List (List ℕ))
        → EachRequest (HoldsNone (point (codes "KYT"))) s random lines
        → EachReply (Lacks (codes "value")) s random lines }
    ensures verbs { (s : State) (random : List ℕ) (lines : List (List ℕ)) (points : ℕ)
        → points ≢ 0 → EachRequest (HoldsNone points) s random lines
        → EachAnswer (λ r reply. verb_point r.name ≡ points → IsRefused reply) s random lines }
    ensures current { (s : State) (random : List ℕ) (lines : List (List ℕ))
        → EachRequest (HoldsNone (point (codes "KTC_CURRENT"))) s random lines
        → EachAnswer (λ r reply. r.name ≡ Csnbktc → value_of r (codes "rule") ≡ codes "RTCMK"
        → IsRefused reply) s random lines }
    ensures new { (s : State) (random : List ℕ) (lines : List (List ℕ))
        → EachRequest (HoldsNone (point (codes "KTC_NEW"))) s random lines
        → EachAnswer (λ r reply. r.name ≡ Csnbktc → value_of r (codes "rule") ≡ codes "RTNMK"
        → IsRefused reply) s random lines }
{}
