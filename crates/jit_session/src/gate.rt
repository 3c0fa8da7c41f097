//! What a session tells a gate.

/// Where a session is.
#[derive(Clone, Copy, PartialEq, Eq)]
pub enum Point {
    /// A hart counts an entry of a symbol. The base is the one that it loaded last.
    Entry {
        hart: u32,
        call: u32,
        symbol: u32,
        base: u64,
    },
    /// A call of a hart has ended.
    Ended {
        hart: u32,
        call: u32,
    },
    /// A version is the linked one of its symbol.
    Linked {
        symbol: u32,
        level: u8,
        base: u64,
    },
}

/// Is told where a session is, by the thread that is there, and may hold that thread up.
pub trait Gate {
    fn at(&self, point: Point);
}

/// A gate that holds nothing up.
#[derive(Clone, Copy, Drop)]
pub struct NoGate;

impl Gate for NoGate {
    #[inline(always)]
    fn at(&self, _point: Point) {}
}
