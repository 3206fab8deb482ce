//! The memory layer under Apache Arrow arrays: bitmaps, buffers, offsets and arrays, functions on arrays, the types of
//! values, data types and errors. This crate only re-exports other crates, at the paths that arrow2 has.
//!
//! The definitions that contracts cite are re-exported too, so that a caller's clauses can name
//! `Rattle.arrow2.specs.Lists` and the other modules of `Rattle.arrow2.specs`.
//!
//! # Examples
//!
//! `rt` is the runtime that `main` and every test get, and `alloc` its allocator.
//!
//! ```rust
//! use arrow2::array::MutablePrimitiveArray;
//!
//! let mut prices = MutablePrimitiveArray::<i64>::new(alloc)?;
//! prices.push(Some(30))?;
//! prices.push(None)?;
//! let column = prices.freeze()?;
//! assert!(rt; column.len() == 2 && column.null_count() == 1);
//! ```
#![tactic(auto)]

pub mod array;
pub mod bitmap;
pub mod buffer;
pub mod compute;
pub mod datatypes;
pub mod error;
pub mod laws;
pub mod offset;
pub mod types;
