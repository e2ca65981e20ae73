//! The devices of `device_cells`, and each in memory, where its calls can be made to fail and a disk can be stopped.
#![tactic(auto)]

mod call;
mod fault_plan;
mod memory_disk;
mod memory_entropy;
mod memory_sink;
mod memory_source;

pub use device_cells::{
    BODY_LEN, BlankEntropy, CELL_LEN, Cell, Disk, Entropy, Failed, FileDisk, NoMemory, SECTOR_LEN,
    Sink, Source, Steps, StreamEntropy, StreamSink, StreamSource, read_cell, replace_cell, settle,
};
pub use memory_disk::{MemoryDisk, Torn};
pub use memory_entropy::MemoryEntropy;
pub use memory_sink::MemorySink;
pub use memory_source::MemorySource;
