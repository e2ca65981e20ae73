//! The lines of a demo, as a source of bytes.
ghost use Rattle.std.specs.Prelude.{◌≡◌, ◌≤◌, Some, IfOk};
ghost use Rattle.command_words.specs.Demo.{demo_text};

use crate::demo_lines::lines_of;
use device_cells::{Failed, NoMemory, Source};
use std::alloc::Global;
use std::marker::Model;

/// The lines of a demo, each with its newline. No read of them fails.
#[derive(Drop)]
pub struct DemoText {
    text: Vec<u8>,
    at: usize,
}

// Clauses see the bytes still to come.
impl Model for DemoText {
    ghost use Rattle.std.specs.Prelude.{◌≤◌, ℕ, List, drop};
    ghost use Rattle.std.specs.Vec.{vec_len};

    ghost Value = { List ℕ };

    ghost view = { λ t. drop t.at t.text.items };

    ghost invariant = { λ t. t.at ≤ vec_len t.text };
}

impl DemoText {
    /// The lines of `demo N`. This takes all their memory.
    pub fn new(alloc: Global, number: u32) -> Result<DemoText, NoMemory>
        requires { number ≤ 1000 }
        ensures { IfOk result (λ text. text ≡ demo_text number) }
    {
        Ok(DemoText {
            text: lines_of(alloc, number)?,
            at: 0,
        })
    }
}

impl Source for DemoText {
    ghost left = { λ t. Some t };

    ghost faults = { λ _. 0 };

    fn read(&mut self, out: &mut [u8]) -> Result<usize, Failed> {
        let rest = &self.text[self.at..];
        let count = out.len().min(rest.len());
        out[..count].copy_from_slice(&rest[..count]);
        self.at += count;
        Ok(count)
    }
}
