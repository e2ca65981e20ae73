//! The machine: the state, the verdict on a request, what a permitted request does, and what comes of a line, as definitions
//! in `specs/` with laws over them. With it stands what a verb is given of its request, once no rule refuses it: what the
//! operands stand for ([`Granted`]), and what the words of fields choose; the refusal by a rule ([`Refusal`]); and what a verb
//! leaves to be carried out ([`Effect`]).
#![tactic(auto)]

ghost use Rattle.std.specs.Prelude.{◌≡◌, ℕ, List, [], ◌∷◌, ◌++◌, ◌<◌, ◌≤◌, length, take, replicate, codes, None, Some};
ghost use Rattle.line_service.specs.Reading.{line_limit};
ghost use Rattle.line_service.specs.Replies.{Refused, Done, Number};
ghost use Rattle.device_cells.specs.Cells.{body};
ghost use Rattle.verb_script.specs.Requests.{request_of};
ghost use Rattle.verb_script.specs.Grammar.{Request};
ghost use Rattle.cca_vectors.specs.DefaultVectors.{vector_with};
ghost use Rattle.cca_vectors.specs.declared.key_length.Length.TheVariants.{Unique};
ghost use Rattle.cca_vectors.specs.declared.key_type.KeyType.TheVariants.{Data};
ghost use Rattle.key_tokens.specs.Denotes.{HaveDistinctPatterns};
ghost use Rattle.key_transport.specs.Generated.{generated_key};
ghost use Rattle.record_bodies.specs.Further.{reruns, changed_count};
ghost use Rattle.record_bodies.specs.declared.actions.StoreAction.{StoreAction};
ghost use Rattle.verb_rules.specs.Keys.{keys_of};
ghost use Rattle.cca_machine.specs.State.{State, IsStoreOf, blank_state};
ghost use Rattle.cca_machine.specs.Act.{performed};
ghost use Rattle.cca_machine.specs.CutRequests.{RepliedTextsAreWhole, RepliedCodesAreWhole, CutCodesAreVerified};
ghost use Rattle.cca_machine.specs.Lines.{line_outcome, taken_by};
ghost use Rattle.cca_machine.specs.Verdict.{Refusal as AnyRefusal, early_verdict, refusal, verdict};
ghost use Rattle.cca_machine.specs.Reruns.{reencipher_for, stopped};
ghost use Rattle.cca_machine.specs.Session.{random_after, replies};
ghost use Rattle.cca_machine.specs.WorkedHalves.{one_key, worked_ceremony, worked_halves, worked_refusals};
ghost use Rattle.cca_machine.specs.WorkedRoles.{worked_roles, worked_role_table, lines_of, replies_of};
ghost use Rattle.cca_machine.specs.WorkedTokens.{TokensAnswered, worked_tokens};

mod asking;
mod choices;
mod effects;
mod granted;
mod grants;
mod pairs;
mod refusals;
mod tables;

pub use asking::Ask;
pub use choices::{
    is_last_part, key_length_of, mac_length_of, mac_rule_of, out_form_of, pad_of, pair_form_of,
    part_action_of, random_form_of, target_of,
};
pub use effects::Effect;
pub use granted::{Grant, Granted, token_bytes};
pub use grants::{double_key_in, external_in, is_old, key_in, place_in, token_in};
pub use pairs::a_pair_stands_for_one_state;
pub use refusals::Refusal;
pub use tables::{forms_of_requests_have_transport_keys, requests_need_points_of_the_table};

/// The machine gives the replies that are known from outside: the definitions compute them.
pub fn worked_key_tokens()
    ensures { TokensAnswered worked_tokens }
{}

/// The same of requests on roles, one after another from a blank module.
pub fn worked_requests_on_roles()
    ensures roles { replies blank_state [] (lines_of worked_roles) ≡ replies_of worked_roles }
    ensures full_table { replies blank_state [] (lines_of worked_role_table)
        ≡ replies_of worked_role_table }
{}

/// The same of requests for a key with unique halves. Of a left half, one that is the same but for the low-order bits and
/// one that differs, the key is the first and the last, and no random byte is left.
pub fn worked_requests_for_unique_halves()
    ensures refusals { replies blank_state (replicate 72 0) (lines_of worked_refusals)
        ≡ replies_of worked_refusals }
    ensures taken { random_after blank_state worked_halves
        (lines_of worked_ceremony ++ one_key (codes "DATA") ∷ []) ≡ [] }
    ensures key { generated_key Data Unique worked_halves ≡ record {
      key = replicate 8 1 ++ replicate 8 2;
      vector = vector_with 0x00007D0003C00000 0x00007D0003A00000;
    } }
{}

/// What comes of a line, by what the line is. A request takes its random bytes whatever follows them, and the bytes that it
/// takes give the verdict that all the bytes to come give. Where a rule fails that doesn't ask them, it is the verdict
/// whatever they are, and none is taken. Rule 34 takes 72.
pub fn outcomes_of_lines()
    ensures no_request { (s : State) (random line : List ℕ) → length line ≤ line_limit
        → request_of line ≡ None
        → line_outcome s random line
        ≡ record { state = s; reply = Refused 1 (codes "-"); random = random } }
    ensures too_long { (s : State) (random line : List ℕ) → line_limit < length line
        → line_outcome s random line
        ≡ record { state = s; reply = Refused 2 (codes "-"); random = random } }
    ensures request { (s : State) (drawn rest line : List ℕ) (request : Request)
        → length line ≤ line_limit
        → request_of line ≡ Some request → length drawn ≡ taken_by s drawn request
        → line_outcome s (drawn ++ rest) line ≡ record {
          state = (performed s drawn request).state;
          reply = (performed s drawn request).reply;
          random = rest;
        } }
    ensures verdict { (s : State) (random : List ℕ) (request : Request)
        → verdict s (take (taken_by s random request) random) request
        ≡ verdict s random request }
    ensures early { (s : State) (random : List ℕ) (request : Request) (refused : AnyRefusal)
        → early_verdict s request ≡ Some refused → verdict s random request ≡ Some refused }
    ensures untaken { (s : State) (random : List ℕ) (request : Request) (refused : AnyRefusal)
        → early_verdict s request ≡ Some refused → taken_by s random request ≡ 0 }
    ensures repeated { (s : State) (random : List ℕ) (request : Request)
        → verdict s random request ≡ Some (refusal 34 (codes "length"))
        → early_verdict s request ≡ None → taken_by s random request ≡ 72 }
{}

/// A text of any length goes through CSNBENC or CSNBDEC in segments, each given the chain that the one before replied. Where
/// no rule refuses one, the texts that are replied, joined, are the whole text enciphered or deciphered.
pub fn segments_reply_the_whole_text()
    ensures { RepliedTextsAreWhole }
{}

/// The same of CSNBMGN and CSNBMVR: the code that is replied after the last segment, or compared there, is that of the whole
/// text.
pub fn segments_reply_the_whole_code()
    ensures made { RepliedCodesAreWhole }
    ensures verified { CutCodesAreVerified }
{}

/// REENCIPHER with an action is stopped at some cell, begun again and stopped again, any number of times. It is then
/// permitted exactly where it was. A run that isn't stopped leaves the state that one run from the start leaves, and in each
/// cell of the store the same selected bytes; and the next run finds no label that the action changes.
pub fn stopped_runs_end_as_one_run()
    ensures stop { (a : StoreAction) (s : State) (drawn role : List ℕ) (cell : ℕ)
        → verdict s [] (reencipher_for a role) ≡ None
        → (performed s drawn (reencipher_for a role)).between cell ≡ stopped a s (cell ∷ []) }
    ensures verdict { (a : StoreAction) (s : State) (role stops : List ℕ)
        → verdict (stopped a s stops) [] (reencipher_for a role)
        ≡ verdict s [] (reencipher_for a role) }
    ensures state { (a : StoreAction) (s : State) (role stops : List ℕ) → length s.labels ≤ 1024
        → verdict s [] (reencipher_for a role) ≡ None
        → (performed (stopped a s stops) [] (reencipher_for a role)).state
        ≡ (performed s [] (reencipher_for a role)).state }
    ensures changed { (a : StoreAction) (s : State) (role stops : List ℕ)
        → verdict s [] (reencipher_for a role) ≡ None
        → (performed (stopped a s stops) [] (reencipher_for a role)).reply
        ≡ Done (Number (codes "changed") (changed_count a (reruns a s.labels stops)) ∷ []) }
    ensures none_left { (a : StoreAction) (s : State) (role : List ℕ) → length s.labels ≤ 1024
        → verdict s [] (reencipher_for a role) ≡ None
        → (performed (performed s [] (reencipher_for a role)).state []
        (reencipher_for a role)).reply
        ≡ Done (Number (codes "changed") 0 ∷ []) }
    ensures bytes { (a : StoreAction) (s : State) (role stops one other : List ℕ) (cell : ℕ)
        → HaveDistinctPatterns (keys_of s.registers)
        → verdict s [] (reencipher_for a role) ≡ None
        → IsStoreOf (performed s [] (reencipher_for a role)).state one
        → IsStoreOf (performed (stopped a s stops) [] (reencipher_for a role)).state other
        → cell < 1024 → body one cell ≡ body other cell }
{}
