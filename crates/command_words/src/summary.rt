//! The line that tells how the lines of a demo were answered.
ghost use Rattle.std.specs.Prelude.{◌≡◌, ◌++◌, ◌+◌, ◌≤◌, [], length};
ghost use Rattle.line_service.specs.Replies.{number_field, reply_limit};
ghost use Rattle.command_words.specs.Counting.{counted_summary};
ghost use Rattle.command_words.specs.Demo.{demo_lines};

use crate::tally::Tally;
use itoa::Buffer;
use line_service::ReplyBuffer;

/// Writes the summary of the replies to `demo N`, which were counted, into an empty line.
#[tactic(auto, unfolding(crate::specs::Demo::summary_text))]
pub fn put_summary(line: &mut ReplyBuffer, number: u32, tally: &Tally)
    requires empty { line.old ≡ [] }
    requires number { number ≤ 1000 }
    ensures { line.new ≡ counted_summary number tally.now }
{
    let mut digits = Buffer::new();
    line.more(b"demo ");
    line.more(digits.format(number).as_bytes());
    line.more(b":");
    put_number(line, "lines", line_count(number));
    put_number(line, "ok", tally.ok());
    put_number(line, "refused", tally.refused());
    put_number(line, "old", tally.old());
    line.finish();
}

// How many lines the demo has.
fn line_count(number: u32) -> u32
    requires { number ≤ 1000 }
    ensures { result ≡ length (demo_lines number) }
{
    10 + 4 * number + (number + 1) / 2
}

// Writes a field whose value is a number, which has at most ten digits.
fn put_number(line: &mut ReplyBuffer, name: &str, value: u32)
    requires { length line.old + length name.now + 12 ≤ reply_limit }
    ensures bytes { line.new ≡ line.old ++ number_field name.now value }
    ensures size { length line.new ≤ length line.old + length name.now + 12 }
{
    line.number(name, value);
}
