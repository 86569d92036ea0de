//! What `seat` and `rehearse` print, in a caller's buffer.
ghost use Rattle.capi.specs.Printing.{Hands};
ghost use Rattle.listing.specs.Listing.{Lists};
ghost use Rattle.rehearsal.specs.Rehearsal.{Rehearses};

use crate::writing::write;
use listing::listing::listing;
use rehearsal::rehearse::rehearse;
use std::alloc::{AllocError, Global};

/// What a caller is told where memory is wanting.
const NO_MEMORY: i64 = i64::MIN;

/// Places the jobs of an input: what `seat` prints of it is written into the buffer.
#[unsafe(no_mangle)]
pub extern "C" fn pallurge_seat(heap: Global, input: &[u8], buffer: &mut [u8]) -> i64
    ensures { Hands (Lists input.now) buffer.old result buffer.new }
{
    match listing(heap, input) {
        Ok(lines) => write(lines.as_bytes(), buffer),
        Err(AllocError) => NO_MEMORY,
    }
}

/// Rehearses a belt cycle of the jobs of an input: what `rehearse` prints of it is written into the buffer.
#[unsafe(no_mangle)]
pub extern "C" fn pallurge_rehearse(heap: Global, input: &[u8], buffer: &mut [u8]) -> i64
    ensures { Hands (Rehearses input.now) buffer.old result buffer.new }
{
    match rehearse(heap, input) {
        Ok(report) => write(report.as_bytes(), buffer),
        Err(AllocError) => NO_MEMORY,
    }
}
