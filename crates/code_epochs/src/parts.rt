//! What is known of the code and not stored. No value of these types is made: contracts alone speak of them.

use crate::state::VersionState;
use std::collections::LinkedList;

/// What a hart held or saw: a symbol with the base that its cell had, or an address with the word that stood there.
pub enum Item {
    Held(u32, u64),
    Saw(u64, u32),
}

/// What a hart knows: the epoch that it loaded last, its pass and its ended passes.
pub struct HartPart {
    pub epoch: u64,
    pub pass: LinkedList<Item>,
    pub ended: LinkedList<LinkedList<Item>>,
}

/// The version that is being stored. The header counts among the stored words.
pub struct Draft {
    pub symbol: u32,
    pub level: u8,
    pub base: u64,
    pub words: LinkedList<u32>,
    pub stored: u32,
}

/// The word of a hart that was found when its passing of a version was looked at.
pub struct Look {
    pub version: u32,
    pub hart: u32,
    pub found: u64,
}

/// What the keeper knows: the versions with their words, the draft, how many harts have a seat, the harts that are gone with what they knew, and the looks.
pub struct Book {
    pub versions: LinkedList<VersionState>,
    pub texts: LinkedList<LinkedList<u32>>,
    pub draft: Option<Draft>,
    pub seated: u32,
    pub gone: LinkedList<u32>,
    pub joined: LinkedList<HartPart>,
    pub looks: LinkedList<Look>,
}
