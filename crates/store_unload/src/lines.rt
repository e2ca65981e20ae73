//! The lines of the file and of the report, each with its newline.
ghost use Rattle.std.specs.Prelude.{◌≡◌, ◌+◌, ◌≤◌, ◌++◌, [], ◌∷◌, Some, length};
ghost use Rattle.line_service.specs.Lines.{newline};
ghost use Rattle.store_unload.specs.Moves.{create_line, import_line, remarks_by, with_newlines};

use command_words::Move;
use key_records::Label;
use line_service::ReplyBuffer;

/// Writes the request that creates the label's record at the other module.
pub(crate) fn write_create(line: &mut ReplyBuffer, how: &Move, label: &Label)
    requires { line.old ≡ [] }
    ensures { line.new ≡ create_line how.now label.now ++ newline ∷ [] }
{
    put_role(line, b"CSNBKRC role=", how);
    line.more(b" label=");
    put_label(line, label);
    line.finish();
}

/// Writes the request that imports the label's key there.
#[tactic(auto, unfolding(line_service::specs::Replies::field_name, line_service::specs::Replies::hex_field))]
pub(crate) fn write_import(line: &mut ReplyBuffer, how: &Move, token: &[u8; 64], label: &Label)
    requires { line.old ≡ [] }
    ensures { line.new ≡ import_line how.now token.now label.now ++ newline ∷ [] }
{
    put_role(line, b"CSNBKIM role=", how);
    line.hex("token", token);
    line.more(b" transport=L:");
    put_label(line, &how.transport_there);
    line.more(b" to=L:");
    put_label(line, label);
    line.finish();
}

/// Writes why a label is kept back.
pub(crate) fn write_remark(line: &mut ReplyBuffer, label: &Label, why: &[u8])
    requires empty { line.old ≡ [] }
    requires short { length why.now ≤ 6 }
    ensures { line.new ≡ with_newlines (remarks_by (Some why.now) label.now) }
{
    line.more(b"kept ");
    put_label(line, label);
    line.more(b" ");
    line.more(why);
    line.finish();
}

// Writes what begins a request of the role there, as far as its name.
#[tactic(auto, using(cca_roles::specs::NameLaws::role_short))]
fn put_role(line: &mut ReplyBuffer, front: &[u8], how: &Move)
    requires empty { line.old ≡ [] }
    requires short { length front.now ≤ 13 }
    ensures bytes { line.new ≡ front.now ++ how.now.role_there }
    ensures size { length line.new ≤ 21 }
{
    line.more(front);
    line.more(how.role_there.text());
}

// Writes a label.
#[tactic(auto, using(cca_roles::specs::NameLaws::label_short))]
fn put_label(line: &mut ReplyBuffer, label: &Label)
    requires { length line.old ≤ 1000 }
    ensures bytes { line.new ≡ line.old ++ label.now }
    ensures size { length line.new ≤ length line.old + 64 }
{
    line.more(label.text());
}
