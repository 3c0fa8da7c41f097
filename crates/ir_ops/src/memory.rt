// Data memory.
ghost use Rattle.std.specs.Prelude.{◌≡◌, ◌+◌, ◌≤◌, ◌<◌, ◌++◌, [], ◌∷◌, length, take, replicate, true, None, OnOk};
ghost use Rattle.ir_meaning.specs.Memory.{data_start, is_inside as is_inside_of, bytes_at, with_bytes, from_bytes, to_bytes};
ghost use Rattle.ir_meaning.specs.Ranges.{FitsWidth, IsMemory};

use crate::cells::{POISON, cell_of, fill_cells, number_of, put_number};
use std::alloc::{AllocError, Global};
use std::marker::Model;

/// Where data memory starts.
pub const DATA_START: u64 = 0x1000_0000;

/// The bytes from the start of data memory to the data top.
#[derive(Drop)]
pub struct DataMemory {
    cells: Vec<u16>,
}

impl Model for DataMemory {
    ghost use Rattle.ir_meaning.specs.Memory.{Memory};
    ghost use Rattle.ir_ops.specs.Cells.{bytes_of};
    ghost use Rattle.std.specs.Coded.{codes};

    ghost Value = { Memory };

    ghost coded = { Prim.hlevel codes };

    ghost view = { λ it. bytes_of it.cells.items };
}

impl DataMemory {
    /// A data memory without bytes.
    pub fn new(alloc: Global) -> DataMemory
        ensures { result ≡ [] }
    {
        DataMemory {
            cells: Vec::new(alloc),
        }
    }

    /// Each byte is a number below 256, or poison.
    pub fn keeps_ranges(&self)
        ensures { IsMemory self.now }
    {
        let _len = self.cells.len();
    }

    /// How many bytes there are below the data top.
    pub fn len(&self) -> usize
        ensures { result ≡ length self.now }
    {
        self.cells.len()
    }

    /// These bytes are wholly inside.
    pub fn is_inside(&self, address: u64, count: u64) -> bool
        ensures { result ≡ is_inside_of self.now address count }
    {
        let len = self.cells.len() as u64;
        address >= DATA_START
            && address - DATA_START <= len
            && count <= len - (address - DATA_START)
    }

    /// The number of at most sixteen bytes at an address; poison where one of them is.
    pub fn load(&self, address: u64, count: usize) -> Option<u128>
        requires inside { is_inside_of self.now address count ≡ true }
        requires few { count ≤ 16 }
        ensures { result ≡ from_bytes (bytes_at self.now address count) }
    {
        let at = (address - DATA_START) as usize;
        number_of(&self.cells[at..at + count])
    }

    /// Writes so many bytes of a value at an address; poison has poison bytes.
    pub fn store(&mut self, address: u64, count: usize, value: Option<u128>)
        requires { is_inside_of self.old address count ≡ true }
        ensures { self.new ≡ with_bytes self.old address (to_bytes count value) }
    {
        let at = (address - DATA_START) as usize;
        match value {
            None => fill_cells(&mut self.cells[at..at + count], POISON),
            Some(n) => put_number(&mut self.cells[at..at + count], n),
        }
    }

    /// Raises the data top: the fresh bytes are poison.
    pub fn extend(&mut self, count: usize) -> Result<(), AllocError>
        ensures { OnOk result (self.new ≡ self.old ++ replicate count None) }
    {
        for _ in 0..count {
            self.cells.push(POISON)?;
        }
        Ok(())
    }

    /// Adds a byte, or poison.
    pub fn push(&mut self, byte: Option<u128>) -> Result<(), AllocError>
        requires { FitsWidth 8 byte }
        ensures { OnOk result (self.new ≡ self.old ++ byte ∷ []) }
    {
        self.cells.push(cell_of(byte))?;
        Ok(())
    }

    /// Lowers the data top to so many bytes.
    pub fn truncate(&mut self, len: usize)
        ensures { self.new ≡ take len self.old }
    {
        self.cells.truncate(len);
    }

    /// Copies bytes from one address to another, as if all were read first.
    pub fn copy(&mut self, to: u64, from: u64, count: usize)
        requires to { is_inside_of self.old to count ≡ true }
        requires from { is_inside_of self.old from count ≡ true }
        ensures { self.new ≡ with_bytes self.old to (bytes_at self.old from count) }
    {
        let at = (to - DATA_START) as usize;
        let start = (from - DATA_START) as usize;
        self.cells.copy_within(start..start + count, at);
    }

    /// Writes one byte, or poison, to so many places.
    pub fn fill(&mut self, to: u64, count: usize, byte: Option<u128>)
        requires inside { is_inside_of self.old to count ≡ true }
        requires byte { FitsWidth 8 byte }
        ensures { self.new ≡ with_bytes self.old to (replicate count byte) }
    {
        let at = (to - DATA_START) as usize;
        fill_cells(&mut self.cells[at..at + count], cell_of(byte));
    }
}
