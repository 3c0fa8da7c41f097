// A hart's fields, and what passes between it and the code that serves it.
ghost use Rattle.std.specs.Prelude.{◌≡◌, ◌≤◌, length};

use crate::forms::Forms;
use ir_meaning::calls::Ended;
use rv_core::reg::Reg;
use rv_core::step::Regs;
use sqlite_items::Items;

/// The first bytes of data memory, from its start on, and the address behind the last of them and the zeros that follow.
#[derive(Drop)]
pub struct Image {
    pub bytes: Items<u8>,
    pub top: u64,
}

/// What a hart wants next.
#[derive(Clone, Copy, PartialEq, Eq)]
pub enum Wanted {
    /// The call begins: nothing has been asked before.
    Begin,
    /// The base that a symbol's cell holds.
    Cell(u32),
    /// The code word at an address.
    Fetch(u64),
    /// An entry of a symbol is to be counted.
    Count(u32),
    /// The call is over: nothing will be asked any more.
    End,
    Done(Ended),
}

/// What is given to a hart.
#[derive(Clone, Copy, PartialEq, Eq)]
pub enum Given {
    Nothing,
    /// The base that the cell holds.
    Cell(u64),
    /// The code word.
    Word(u32),
}

/// What a call waits for.
#[derive(Clone, Copy, PartialEq, Eq)]
pub enum Phase {
    Idle,
    Start,
    Begin,
    Fetch,
    /// A base, for a register.
    Cell(Reg, u32),
    Count(u32),
    End(Ended),
    Done(Ended),
}

/// What an instruction has led to.
#[derive(Clone, Copy, PartialEq, Eq)]
pub enum Did {
    On,
    /// A register is to get the base that a symbol's cell holds.
    Cell(Reg, u32),
    Count(u32),
    Overflow,
    Fault,
}

/// A hart: registers, data memory and a control stack, the results' widths of a module's functions, and a call on its way.
#[derive(Drop)]
pub struct Hart {
    pub(crate) regs: Regs,
    pub(crate) bytes: Vec<u8>,
    pub(crate) control: Vec<u8>,
    pub(crate) widths: Vec<Option<u32>>,
    pub(crate) functions: u32,
    pub(crate) code_words: u32,
    pub(crate) width: Option<u32>,
    /// The instructions that the call may run, and those that are left of them.
    pub(crate) fuel: u64,
    pub(crate) left: u64,
    pub(crate) phase: Phase,
    pub(crate) forms: Forms,
    ghost room: { length bytes.items ≤ 67108864 },
    ghost stack: { length control.items ≡ 8388608 },
    ghost known: { functions ≡ length widths.items },
    ghost few: { functions ≤ 1024 },
    ghost code: { code_words ≤ 4194304 },
}
