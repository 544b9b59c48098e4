//! Lists of bytes in one buffer, as a file that was split gives them.

use std::alloc::{AllocError, Global};

#[derive(Drop)]
pub struct Cells {
    bytes: Vec<u8>,
    ends: Vec<usize>,
}

impl Cells {
    pub fn new(alloc: Global) -> Self {
        Cells {
            bytes: Vec::new(alloc),
            ends: Vec::new(alloc),
        }
    }

    /// The bytes of the cell that is being made.
    pub fn bytes(&mut self) -> &mut Vec<u8> {
        &mut self.bytes
    }

    /// Ends a cell after its bytes.
    #[inline(always)]
    pub fn end(&mut self) -> Result<(), AllocError> {
        self.ends.push(self.bytes.len())?;
        Ok(())
    }

    pub fn len(&self) -> usize {
        self.ends.len()
    }

    #[inline(always)]
    pub fn get(&self, index: usize) -> &[u8] {
        let start = match index.checked_sub(1) {
            Some(before) => self.ends.get(before).copied().unwrap_or(0),
            None => 0,
        };
        let end = self.ends.get(index).copied().unwrap_or(start);
        self.bytes.get(start..end).unwrap_or(&[])
    }
}
