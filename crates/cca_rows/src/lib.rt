//! Whole runs of the top calls as tests: sessions line by line, devices that fail at a call, and a stop. And what the
//! definitions compute: key ceremonies of the machine, the lines of a demo, and the requests that lines spell. It is a crate
//! of tests.
#![tactic(auto)]

ghost use Rattle.cca_rows.specs.WorkedCeremonies.{CeremoniesAnswered};
ghost use Rattle.cca_rows.specs.WorkedDemo.{DemoSpelled};
ghost use Rattle.cca_rows.specs.WorkedLines.{LinesSpell};
ghost use Rattle.cca_rows.specs.WorkedRows.{AreSpelled, code_lines, control_lines, form_lines, key_lines, record_lines, single_key_lines, text_lines};

#[cfg(test)]
mod audits;
#[cfg(test)]
mod faults;
#[cfg(test)]
mod moves;
#[cfg(test)]
mod runs;
#[cfg(test)]
mod sessions;
#[cfg(test)]
mod stops;

/// The machine gives the replies to two key ceremonies that are known from outside: the definitions compute them.
pub fn worked_ceremonies()
    ensures { CeremoniesAnswered }
{}

/// The lines of a demo over three labels are those that another program wrote from their description: the definitions compute
/// them.
pub fn worked_demo()
    ensures { DemoSpelled }
{}

/// What some lines spell: the definitions of the grammar compute it.
pub fn worked_lines()
    ensures { LinesSpell }
{}

/// What lines of each row spell: the definitions of the grammar compute it.
pub fn each_row_is_spelled()
    ensures text_lines { AreSpelled text_lines }
    ensures code_lines { AreSpelled code_lines }
    ensures single_key_lines { AreSpelled single_key_lines }
    ensures key_lines { AreSpelled key_lines }
    ensures record_lines { AreSpelled record_lines }
    ensures control_lines { AreSpelled control_lines }
    ensures form_lines { AreSpelled form_lines }
{}
