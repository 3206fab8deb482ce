//! Calls of the layer for a program that times them: a static library, which `bench/` links and measures.
//!
//! Each export has inputs of one shape. Where it serves several calls of the layer, its first slice names the call. The
//! export makes the inputs of the call, and then makes the call once for each item of its last slice: this is a run.
//! The input of a run is an item of that slice, which no compiler knows in advance. Each result goes into the number
//! that the export returns. The name is read before the first run. So the time of the runs is the time of the export
//! minus its time with no runs. Names are compared one by one, which is proved in a tenth of the time that a `match`
//! over them takes.
//!
//! Nothing is required of the slices: a run that they do not allow adds 0. The number is 0 where memory runs out, and
//! `usize::MAX` where no call has the name.
#![tactic(auto)]

mod bitmaps;
mod buffers;
mod bytes;
mod columns;
mod growing;
mod numbers;
mod offsets;
mod runs;
mod tables;
mod texts;
mod zips;
