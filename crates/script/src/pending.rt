// A line that is being read, byte by byte.
ghost use Rattle.std.specs.Prelude.{◌≡◌, [], length, is_ok, if◌then◌else◌, ◌==◌};
ghost use Rattle.script.specs.Lines.{longer};

use std::alloc::{AllocError, Global};

// Of a line that is too long only so much is kept that this can be seen.
const KEPT: usize = 251;

#[derive(Drop)]
pub struct Pending {
    bytes: Vec<u8>,
}

impl Pending {
    pub fn new(heap: Global) -> Self
        ensures { result.bytes.items ≡ [] }
    {
        Pending {
            bytes: Vec::new(heap),
        }
    }

    // One byte more.
    pub fn push(&mut self, byte: u8) -> Result<(), AllocError>
        ensures { self.new.bytes.items ≡ (if is_ok result then longer self.old.bytes.items byte else self.old.bytes.items) }
    {
        if self.bytes.len() < KEPT {
            self.bytes.push(byte)?;
        }
        Ok(())
    }

    pub fn is_empty(&self) -> bool
        ensures { result ≡ (length self.now.bytes.items == 0) }
    {
        self.bytes.is_empty()
    }

    pub fn as_slice(&self) -> &[u8]
        ensures { result.now ≡ self.now.bytes.items }
    {
        self.bytes.as_slice()
    }

    // Begins the next line.
    pub fn clear(&mut self)
        ensures { self.new.bytes.items ≡ [] }
    {
        self.bytes.clear();
    }
}
