//! How the program ends otherwise than well: by a text on standard error, and an exit status.
ghost use Rattle.std.specs.Prelude.{◌≡◌};
ghost use Rattle.real_devices.specs.Exits.{exit_of};

use thiserror::Error;

/// Why the program didn't end well, with its text.
#[derive(Clone, Copy, Debug, Error)]
pub enum Fault {
    /// The words are no command, or one of them isn't UTF-8.
    #[error("cca: usage: cca run, cca demo N with N from 1 to 1000, cca audit, cca trail, or cca unload ROLE LABEL ROLE LABEL")]
    Usage,
    /// The module holds in this cell what no module may hold.
    #[error("cca: module cell {0} is damaged")]
    ModuleCell(u16),
    /// The store holds in this cell what no store may hold.
    #[error("cca: store cell {0} is damaged")]
    StoreCell(u16),
    /// The input could not be read.
    #[error("cca: the input could not be read")]
    Input,
    /// The output could not be written.
    #[error("cca: the output could not be written")]
    Output,
    /// A call of the module's file failed.
    #[error("cca: the module file failed")]
    Module,
    /// A call of the store's file failed.
    #[error("cca: the store file failed")]
    Store,
    /// The random source failed.
    #[error("cca: the random source failed")]
    Entropy,
    /// More bytes came than a run takes.
    #[error("cca: the input is too long")]
    InputLimit,
    /// There was no memory.
    #[error("cca: out of memory")]
    NoMemory,
    /// A file could not be opened or made, or another run uses it.
    #[error("cca: a file could not be opened")]
    File,
    /// The rule of this number refuses a move.
    #[error("cca: refused by rule {0:02}")]
    Refused(u8),
    /// A call of the trail's file failed.
    #[error("cca: the trail file failed")]
    Trail,
    /// The trail holds in this cell what no trail may hold there.
    #[error("cca: trail cell {0} is damaged")]
    TrailCell(u16),
    /// No number is left for a further record of the trail.
    #[error("cca: the trail is full")]
    TrailFull,
    /// The report of a move could not be written.
    #[error("cca: the report could not be written")]
    Report,
    /// A file has another size than it must.
    #[error("cca: a file has a wrong size")]
    Size,
}

impl Fault {
    /// The exit status. That of a good end is 0.
    pub fn exit_status(self) -> u8
        ensures { result ≡ exit_of self }
    {
        match self {
            Fault::Usage => 2,
            Fault::ModuleCell(_) | Fault::StoreCell(_) => 3,
            Fault::Input => 4,
            Fault::Output => 5,
            Fault::Module => 6,
            Fault::Store => 7,
            Fault::Entropy => 8,
            Fault::InputLimit => 9,
            Fault::NoMemory => 10,
            Fault::File => 11,
            Fault::Refused(_) => 12,
            Fault::Trail => 13,
            Fault::TrailCell(_) => 14,
            Fault::TrailFull => 15,
            Fault::Report => 16,
            Fault::Size => 17,
        }
    }
}
