//! Tests of the whole program, over files and sinks in memory.
#![tactic(auto)]

#[cfg(test)]
mod answers;
#[cfg(test)]
mod drawn;
#[cfg(test)]
mod faults;
#[cfg(test)]
mod harts;
#[cfg(test)]
mod hot;
#[cfg(test)]
mod limits;
#[cfg(test)]
mod listings;
#[cfg(test)]
mod many;
#[cfg(test)]
mod program;
#[cfg(test)]
mod readme;
#[cfg(test)]
mod replaced;
#[cfg(test)]
mod rooms;
#[cfg(test)]
mod texts;
#[cfg(test)]
mod words;
