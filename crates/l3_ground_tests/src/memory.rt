//! Runs over sources and sinks in memory.

ghost use Rattle.std.specs.Prelude.{◌<◌};

use l3_io::{MemSink, MemSource};
use std::alloc::{AllocError, Global};

// What a run gives over a source of these bytes, whose reads give at most `step` bytes and fail at
// these numbers.
pub fn from_memory<T, F: FnOnce(&mut MemSource) -> T>(
    alloc: Global,
    bytes: &[u8],
    step: usize,
    fails: &[u64],
    run: F,
) -> Result<T, AllocError>
    requires step { 0 < step }
    requires run { F.IsAlwaysCallable run }
{
    let mut source = MemSource::new(alloc, bytes, step, fails)?;
    Ok(run(&mut source))
}

// The same over a sink of so much room.
pub fn into_memory<T, F: FnOnce(&mut MemSink) -> T>(
    alloc: Global,
    room: usize,
    step: usize,
    fails: &[u64],
    run: F,
) -> Result<T, AllocError>
    requires step { 0 < step }
    requires run { F.IsAlwaysCallable run }
{
    let mut sink = MemSink::new(alloc, room, step, fails)?;
    Ok(run(&mut sink))
}
