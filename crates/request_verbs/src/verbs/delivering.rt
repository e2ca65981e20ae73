//! A key delivered: into the record that the field `to` names, or into the reply.
ghost use Rattle.std.specs.Prelude.{◌≡◌, ◌≤◌, ◌+◌, ◌++◌, [], Some, length};
ghost use Rattle.key_tokens.specs.Denotes.{Denoted, denoted};
ghost use Rattle.line_service.specs.Replies.{fields_text};
ghost use Rattle.verb_rules.specs.Keys.{keys_of, token_for};
ghost use Rattle.verb_script.specs.Named.{label_named};
ghost use Rattle.cca_machine.specs.Act.{delivered_with};
ghost use Rattle.cca_machine.specs.State.{State};
ghost use Rattle.cca_machine.specs.Deciding.{IsDelivered, IsDelivery, token2_fields};
ghost use Rattle.cca_machine.specs.Granted.{IsPlaceFor, target_cell};

use cca_machine::Effect;
use key_records::Place;
use verb_script::{ReplyBuffer, named_label};

/// Shows the token of a second key in the field `token2`, where there is one.
pub(super) fn show_second(second: Option<[u8; 64]>, reply: &mut ReplyBuffer)
    requires { length reply.old ≤ 1000 }
    ensures bytes { reply.new ≡ reply.old ++ fields_text (token2_fields second) }
    ensures size { length reply.new ≤ length reply.old + 136 }
{
    if let Some(token) = second {
        reply.hex("token2", &token);
    }
}

/// Leaves a token to be written into the record at this place, which `to` names, or shows it in a field of the reply. The
/// token of a second key follows in the field `token2`.
pub(crate) fn deliver(
    field: &'static str,
    token: &[u8; 64],
    second: Option<[u8; 64]>,
    to: &[u8],
    place: Option<Place>,
    reply: &mut ReplyBuffer,
) -> Effect
    requires target { IsPlaceFor (label_named to.now) place }
    requires empty { reply.old ≡ [] }
    requires short { length field.now ≤ 20 }
    ensures delivered { (s : State) (key : Denoted)
        → token.now ≡ token_for (keys_of s.registers) key
        → denoted (keys_of s.registers) token.now ≡ Some key
        → place ≡ target_cell s (label_named to.now)
        → IsDelivered s (delivered_with s field.now (label_named to.now) key (token2_fields second))
        result reply.new }
    ensures size { length reply.new ≤ 69000 }
    ensures delivery { IsDelivery token.now place result }
{
    reply.ok();
    match named_label(to) {
        Some(label) => {
            reply.text("stored", label);
            show_second(second, reply);
            Effect::Write(place.unwrap(), *token)
        }
        None => {
            reply.hex(field, token);
            show_second(second, reply);
            Effect::Shown
        }
    }
}
