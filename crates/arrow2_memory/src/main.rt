//! Every public call of `arrow2` that may run out of memory, and every change in place, on few items. `tests/run` lets
//! each allocation fail in turn, and tests that the output stays the same and that each call that may fail has failed
//! once.
#![tactic(auto)]

mod arrays;
mod bitmaps;
mod calls;
mod datatypes;
mod growing;
mod items;
mod kernels;
mod numbers;
mod offsets;
mod silent;
mod strings;
mod walks;

use arrow2_types::Result;
use std::alloc::Global;
use std::io::{Eprint, Print};
use std::process::ExitCode;

/// Makes all calls, group by group.
fn all<R: Print + Eprint>(rt: &R, alloc: Global) -> Result<()> {
    datatypes::all(rt, alloc);
    bitmaps::all(rt, alloc)?;
    growing::all(rt, alloc)?;
    walks::all(rt, alloc)?;
    arrays::all(rt, alloc)?;
    numbers::all(rt, alloc)?;
    strings::all(rt, alloc)?;
    kernels::all(rt, alloc)?;
    offsets::all(rt, alloc)?;
    silent::all(rt, alloc)
}

/// Ends with status 1 where the allocation of an input failed twice.
fn main(rt: HostRuntime) -> ExitCode {
    match all(&rt, rt.alloc()) {
        Ok(()) => ExitCode::SUCCESS,
        Err(_) => ExitCode::FAILURE,
    }
}
