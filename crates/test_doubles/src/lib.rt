//! An allocator that refuses one allocation, a source that does as it is told, numbers that look drawn at random,
//! worked tracks, and where points are. They are for tests alone.
#![tactic(auto)]

mod positions;
mod random;
mod scripted;
mod tracks;

pub use positions::are_at;
pub use random::next_random;
pub use scripted::ScriptedSource;
use std::alloc::{AllocError, Allocator};
use std::sync::atomic::{AtomicU64, Ordering};
pub use tracks::{
    CUT_A, FILE_A, FILE_B, HEADER, HEADER_WITH_USE, MARKED_A, MARKED_AND_QUOTED_A, QUOTED_A, SQUARE,
};

/// More allocations than any run makes that is refused each of them in turn.
pub const MANY_ALLOCATIONS: u32 = 1000;

/// A number of allocations that no run comes to.
const NEVER: u64 = 1 << 63;

/// For tests alone: passes each allocation on to `A` but one, which fails. All that is lent a `&` to it
/// shares its count, in other threads too. No contract can say what a shared count holds, so none
/// promises which allocation fails.
#[derive(Drop)]
pub struct Refusing<A: Allocator> {
    inner: A,
    /// How many allocations are left up to the one that fails: 0 once it failed, and then it wraps.
    left: AtomicU64,
}

impl<A: Allocator> Refusing<A> {
    /// Refuses allocation `number` of those to come, the first being 1; with 0 it refuses none.
    pub fn new(inner: A, number: u32) -> Refusing<A> {
        let left = if number == 0 {
            NEVER
        } else {
            u64::from(number)
        };
        Refusing {
            inner,
            left: AtomicU64::new(left),
        }
    }

    /// Whether the allocation failed by now.
    pub fn has_refused(&self) -> bool {
        let left = self.left.load(Ordering::SeqCst);
        left == 0 || left > NEVER
    }
}

// Counts an allocation, and answers whether it is the one to refuse.
fn is_refused(left: &AtomicU64) -> bool {
    left.fetch_sub(1, Ordering::SeqCst) == 1
}

unsafe impl<A: Allocator> Allocator for Refusing<A> {
    ghost dealloc_token = { λ heap ty ptr. A.dealloc_token heap.inner ty ptr };

    fn allocate(&self, size: usize, align: usize) -> Result<*mut u8, AllocError> {
        if is_refused(&self.left) {
            return Err(AllocError);
        }
        self.inner.allocate(size, align)
    }

    unsafe fn deallocate(&self, ptr: *mut u8, size: usize, align: usize) {
        self.inner.deallocate(ptr, size, align);
    }
}

#[cfg(test)]
mod tests {
    use super::*;
    use std::alloc::Global;

    const NUMBERS: u32 = 100;

    // Whether the list is 0, 1, .. up to `count`.
    fn counts_up(list: &Vec<u32, &Refusing<Global>>, count: u32) -> bool {
        let mut expected = 0u32;
        for &x in list {
            if x != expected || expected >= count {
                return false;
            }
            expected += 1;
        }
        expected == count
    }

    #[test]
    fn the_allocation_of_that_number_alone_is_refused(rt: HostRuntime) {
        for number in 1..=3 {
            let alloc = Refusing::new(rt.alloc(), number);
            let mut list = Vec::new(&alloc);
            let mut allocations = 0u32;
            let mut refusals = 0u32;
            for x in 0..NUMBERS {
                let capacity = list.capacity();
                if list.push(x).is_err() {
                    refusals = refusals.wrapping_add(1);
                    allocations = allocations.wrapping_add(1);
                    assert_eq!(rt; allocations, number, "the allocation that failed");
                    assert!(rt; alloc.has_refused(), "at allocation {number}");
                    assert!(rt; counts_up(&list, x), "after allocation {number}");
                    assert!(rt; list.push(x).is_ok(), "again after allocation {number}");
                }
                if list.capacity() > capacity {
                    allocations = allocations.wrapping_add(1);
                }
                assert_eq!(rt; alloc.has_refused(), allocations >= number, "at {x}");
            }
            assert_eq!(rt; refusals, 1, "refusals");
            assert!(rt; counts_up(&list, NUMBERS), "in the end");
        }
    }

    #[test]
    fn with_0_no_allocation_is_refused(rt: HostRuntime) {
        let alloc = Refusing::new(rt.alloc(), 0);
        let mut list = Vec::new(&alloc);
        assert!(rt; !alloc.has_refused(), "before the first");
        for x in 0..NUMBERS {
            assert!(rt; list.push(x).is_ok(), "at {x}");
        }
        assert!(rt; !alloc.has_refused(), "in the end");
    }
}
