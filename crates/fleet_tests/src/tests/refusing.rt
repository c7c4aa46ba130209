//! An allocator that refuses one call, or all of them for a time.

use std::alloc::{AllocError, Allocator, Global};
use std::cell::Cell;
use std::collections::BTreeMap;
use std::process::Abort;

/// Calls, one of them refused, or all for a time.
#[derive(Drop)]
struct Calls {
    made: Cell<u64>,
    refused: u64,
    refuses_all: Cell<bool>,
}

impl Calls {
    /// Counts a call, and says whether it is refused.
    fn refuses_next(&self) -> bool {
        let number = self.made.get().saturating_add(1);
        self.made.set(number);
        number == self.refused || self.refuses_all.get()
    }
}

/// An allocator that refuses one call for memory, or all for a time, and passes every other on.
#[derive(Drop)]
pub struct Refusing<A: Allocator> {
    inner: A,
    calls: Calls,
}

impl<A: Allocator> Refusing<A> {
    /// Refuses the call with this number, counted from 1; 0 is the number of none.
    pub fn after(inner: A, refused: u64) -> Refusing<A> {
        Refusing {
            inner,
            calls: Calls {
                made: Cell::new(0),
                refused,
                refuses_all: Cell::new(false),
            },
        }
    }

    /// From now on the one call that is refused is that with this number, counted from the next; it
    /// is no greater than the first such number was.
    pub fn refuse(&self, call: u64) {
        let before = self.calls.refused.saturating_sub(call);
        self.calls.made.set(before);
    }

    /// From now on refuses every call, or no longer does.
    pub fn refuse_all(&self, refuses_all: bool) {
        self.calls.refuses_all.set(refuses_all);
    }

    /// Whether that call was made.
    pub fn has_refused(&self) -> bool {
        1 <= self.calls.refused && self.calls.refused <= self.calls.made.get()
    }
}

unsafe impl<A: Allocator> Allocator for Refusing<A> {
    ghost dealloc_token = { λ r ty ptr. A.dealloc_token r.inner ty ptr };

    fn allocate(&self, size: usize, align: usize) -> Result<*mut u8, AllocError> {
        if self.calls.refuses_next() {
            return Err(AllocError);
        }
        self.inner.allocate(size, align)
    }

    unsafe fn deallocate(&self, ptr: *mut u8, size: usize, align: usize) {
        self.inner.deallocate(ptr, size, align);
    }
}

/// Makes boxes: the call of this number is refused, where there is one, and no other.
fn check_boxes(rt: &impl Abort, refusing: &Refusing<Global>, refused: u64) {
    for call in 1..12u64 {
        let made = Box::new(refusing, call);
        assert_eq!(rt; made.is_err(), call == refused);
        assert_eq!(rt; refusing.has_refused(), 1 <= refused && refused <= call);
    }
}

#[test]
fn refuses_calls_for_boxes(rt: HostRuntime) {
    for refused in 0..4u64 {
        check_boxes(&rt, &Refusing::after(rt.alloc(), refused), refused);
    }
    let refusing = Refusing::after(rt.alloc(), 9);
    for refused in [3, 1, 9, 2] {
        refusing.refuse(refused);
        check_boxes(&rt, &refusing, refused);
    }
}

#[test]
fn refuses_all_calls_for_a_time(rt: HostRuntime) {
    let refusing = Refusing::after(rt.alloc(), 0);
    for refuses_all in [false, true, false, true] {
        refusing.refuse_all(refuses_all);
        assert_eq!(rt; Box::new(&refusing, 7u64).is_err(), refuses_all);
    }
}

#[test]
fn refuses_one_call_for_lists_and_maps(rt: HostRuntime) {
    for refused in 1..9u64 {
        let refusing = Refusing::after(rt.alloc(), refused);
        let mut list = Vec::new(&refusing);
        let mut map = BTreeMap::new(&refusing);
        let mut faults = 0u64;
        for key in 0..99u64 {
            if list.push(key).is_err() {
                list.push(key).expect(&rt, "memory");
                faults = faults.saturating_add(1);
            }
            if map.insert(key, key).is_err() {
                assert!(rt; map.insert(key, key).is_ok());
                faults = faults.saturating_add(1);
            }
        }
        assert_eq!(rt; (faults, list.len(), map.len()), (1, 99, 99));
    }
}
