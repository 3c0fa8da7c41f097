//! The tables of names of a module, and its types: their parts, sizes and definitions.
#![tactic(auto)]

mod build;
mod fault;
mod lists;
mod names;
mod number;
mod parts;
mod resolve;
mod summary;
mod table;
mod tables;

pub use fault::Fault;
pub use lists::{Step, walk};
pub use names::{Table, bytes_of, is_numbered, named_target, number_of, target_of};
pub use number::{literal, natural};
pub use parts::{Part, named_type, parts_of, width_of};
pub use resolve::{definition, known_types};
pub use summary::{Entry, Summary};
pub use table::{Types, memory, type_of};
pub use tables::{Named, Numbered, Target};
