//! Functions of the memory layer of Apache Arrow for programs in languages other than Rattle: a static library that
//! works in the caller's memory. No call allocates.
//!
//! In the docs of the calls, `length` bits from bit `offset` on are inside the bytes if the exact sum of `offset` and
//! `length` is at most 8 times the number of bytes, also where `length` is 0. A call returns `ARROW2_OK` unless its
//! docs, or those of its module, name another code for the case. With another code it writes only what these docs name.
//!
//! A caller in another language must also follow the rules of `docs/BINDINGS.md` on pointers, alignment, overlap,
//! booleans and threads.
#![tactic(auto)]

pub mod assign_tables;
pub mod bits;
mod bits_input;
mod bool_words;
pub mod booleans;
pub mod buffers;
pub mod codes;
pub mod cuts;
pub mod dictionary;
mod in_place;
mod index_checks;
mod inside;
pub mod kleene;
pub mod offsets;
pub mod runs;
pub mod set_indices;
pub mod tables;
mod validities;
