//! Heaps that are full.

use linked_list_allocator::LocalHeap;
use std::alloc::{AllocError, Global};
use std::process::Abort;

/// All that is left of a heap.
pub fn rest_of<'a>(
    rt: &impl Abort,
    global: Global,
    heap: &'a LocalHeap,
) -> Vec<Vec<u8, &'a LocalHeap>> {
    let mut all = Vec::new(global);
    for size in [4096, 256, 16, 1] {
        for _ in 0..64u8 {
            let part: Result<Vec<u8, &LocalHeap>, AllocError> = Vec::with_capacity(heap, size);
            if let Ok(part) = part {
                all.push(part).expect(rt, "memory");
            }
        }
    }
    all
}
