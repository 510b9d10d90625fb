//! Whole lines of bytes that come in chunks.

ghost use Rattle.std.specs.Prelude.{◌≡◌, ◌≤◌, ◌<◌, [], length, IfOk, IsTrue, ◌↔◌};
ghost use Rattle.log_core.specs.Lines.{TakesLines};

use common_types::OutOfMemory;
use memchr::memrchr;
use std::alloc::Global;
use std::marker::Model;
use std::mem;

/// Bytes that wait for the end of their line.
#[derive(Drop)]
pub struct LineBuffer {
    waiting: Vec<u8>,
}

impl Model for LineBuffer {
    ghost use Rattle.std.specs.Prelude.{List, ℕ};

    ghost Value = { List ℕ };

    ghost view = { λ b. b.waiting.items };
}

impl LineBuffer {
    /// No bytes. It takes no memory.
    pub fn new(alloc: Global) -> LineBuffer
        ensures { result ≡ [] }
    {
        LineBuffer {
            waiting: Vec::new(alloc),
        }
    }

    /// How many bytes wait.
    pub fn len(&self) -> usize
        ensures { result ≡ length self.now }
    {
        self.waiting.len()
    }

    /// The whole lines that the bytes which wait and a chunk behind them make. What is left waits for the next chunk. An `Err` is out of memory alone.
    pub fn take_lines(&mut self, alloc: Global, chunk: &[u8]) -> Result<Vec<u8>, OutOfMemory>
        ensures { IfOk result (λ lines. TakesLines self.old chunk.now lines.items self.new) }
    {
        let Some(end) = memrchr(b'\n', chunk) else {
            self.waiting.extend_from_slice(chunk)?;
            return Ok(Vec::new(alloc));
        };
        let left = Vec::from_slice(alloc, &chunk[end + 1..])?;
        let mut lines = mem::replace(&mut self.waiting, left);
        lines.extend_from_slice(&chunk[..end + 1])?;
        Ok(lines)
    }

    /// The bytes that wait, which are the last line where nothing comes behind them. None wait then.
    pub fn take_last(&mut self, alloc: Global) -> Vec<u8>
        ensures all { result.items ≡ self.old }
        ensures none { self.new ≡ [] }
    {
        mem::replace(&mut self.waiting, Vec::new(alloc))
    }
}
