//! Rows of `Copy` items of fixed capacity: in one allocation, and in pieces which are made one by one. Neither ever moves.
//!
//! `RawRow` is one allocation, whose places are raw memory and the repository's only `unsafe` code; `Pieces` is a row of such,
//! and all that the arena uses. Read `specs/Pieced.antt` and `Laid.antt`.
#![tactic(auto)]

mod pieces;
mod raw_row;
mod room;

pub use pieces::Pieces;
pub use raw_row::RawRow;
