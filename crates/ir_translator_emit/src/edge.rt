// Edges between blocks.
use sqlite_items::Items;
use std::marker::Model;

/// An edge to a block of the function: the generic block that takes it, and the registers that the block's phis read on it.
#[derive(Drop)]
pub struct Edge {
    pub to: u32,
    pub at: u32,
    pub uses: Items<u32>,
}

impl Model for Edge {
    ghost use Rattle.generic_code.specs.Edges.{Edge as GenericEdge};

    ghost Value = { GenericEdge };

    ghost view = { λ e. record { to = e.to; at = e.at; uses = e.uses } };
}
