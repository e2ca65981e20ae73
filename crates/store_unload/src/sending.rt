//! What is sent of one label.
ghost use Rattle.std.specs.Prelude.{◌≡◌, ◌≤◌, Some, length, Err, IfErr};
ghost use Rattle.line_service.specs.Devices.{TellsFault};
ghost use Rattle.device_cells.specs.Faults.{HasCause};
ghost use Rattle.store_unload.specs.Moves.{remarks_by, with_newlines};
ghost use Rattle.store_unload.specs.Telling.{Gets, requests_text};

use crate::lines::{write_create, write_import, write_remark};
use crate::writing::MoveFault;
use command_words::Move;
use device_cells::{Failed, Sink};
use key_records::Label;
use line_service::{ReplyBuffer, send};

/// Sends the two requests that move a label: a write for each, unless the file takes it in parts.
pub(crate) fn send_requests<K: Sink>(
    how: &Move,
    token: &[u8; 64],
    label: &Label,
    line: &mut ReplyBuffer,
    file: &mut K,
) -> Result<(), MoveFault>
    ensures sends { Gets (requests_text how.now token.now label.now) result
        (K.held file.old) (K.held file.new) }
    ensures fault { IfErr result (λ fault. fault ≡ MoveFault.WriteFault) }
    ensures left { TellsFault (K.faults file.old) (K.faults file.new)
        (result ≡ Err MoveFault.WriteFault) }
{
    match put_requests(how, token, label, line, file) {
        Ok(()) => Ok(()),
        Err(_) => Err(MoveFault::WriteFault),
    }
}

fn put_requests<K: Sink>(
    how: &Move,
    token: &[u8; 64],
    label: &Label,
    line: &mut ReplyBuffer,
    file: &mut K,
) -> Result<(), Failed>
    ensures sends { Gets (requests_text how.now token.now label.now) result
        (K.held file.old) (K.held file.new) }
    ensures cause { HasCause (K.faults file.old) (K.faults file.new) result }
{
    line.clear();
    write_create(line, how, label);
    send(file, line.bytes())?;
    line.clear();
    write_import(line, how, token, label);
    send(file, line.bytes())
}

/// Sends why a label is kept back: one write, unless the report takes it in parts.
pub(crate) fn send_remark<P: Sink>(
    label: &Label,
    why: &[u8],
    line: &mut ReplyBuffer,
    report: &mut P,
) -> Result<(), MoveFault>
    requires { length why.now ≤ 6 }
    ensures sends { Gets (with_newlines (remarks_by (Some why.now) label.now)) result
        (P.held report.old) (P.held report.new) }
    ensures fault { IfErr result (λ fault. fault ≡ MoveFault.ReportFault) }
    ensures left { TellsFault (P.faults report.old) (P.faults report.new)
        (result ≡ Err MoveFault.ReportFault) }
{
    line.clear();
    write_remark(line, label, why);
    match send(report, line.bytes()) {
        Ok(()) => Ok(()),
        Err(_) => Err(MoveFault::ReportFault),
    }
}
