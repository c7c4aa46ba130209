//! Frames that are kept, after those that were kept before.

ghost use Rattle.std.specs.Prelude.{◌≡◌, ◌+◌, ◌≤◌, ◌++◌, vec_len, vec_capacity, length, IfOk, OnOk};
ghost use Rattle.fleet_world.specs.FleetModel.{numbers_from};

use fleet_name::Octets;
use std::alloc::{AllocError, Allocator};

// Lets through: finding no memory, whatever there is: no frame of the event is kept then. The tested
// body `keeps_no_frame_from_the_thousandth` does so; a case of `tests/run` (`test_frames`) sees it.
/// Makes room for a number of frames after those that are kept, and gives the numbers that they will
/// have.
pub(crate) fn make_room<A: Allocator + Copy>(
    frames: &mut Vec<Octets<A>, A>,
    count: usize,
) -> Result<Vec<usize, A>, AllocError>
    ensures same { frames.new.items ≡ frames.old.items }
    ensures numbered { IfOk result (λ v. v.items ≡ numbers_from (length frames.old.items) count) }
    ensures room { OnOk result (vec_len frames.new + count ≤ vec_capacity frames.new) }
{
    frames.reserve(count)?;
    let first = frames.len();
    let mut all = Vec::with_capacity(*frames.allocator(), count)?;
    for at in 0..count {
        all.push_reserved(first + at);
    }
    Ok(all)
}

/// Moves frames to the end of those that are kept.
pub(crate) fn append<A: Allocator>(frames: &mut Vec<Octets<A>, A>, kept: Vec<Octets<A>, A>)
    requires { vec_len frames.old + vec_len kept ≤ vec_capacity frames.old }
    ensures { frames.new.items ≡ frames.old.items ++ kept.items }
{
    for frame in kept {
        frames.push_reserved(frame);
    }
}
