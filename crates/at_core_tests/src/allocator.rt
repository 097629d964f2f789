//! Which request the allocator of the tests refuses, and what it counts. No clause can say it, since a cell holds it.
use refusing::Refusing;
use std::alloc::{AllocError, Global};

#[test]
fn exactly_the_request_after_the_granted_ones_is_refused(rt: HostRuntime) {
    for granted in 0..3u64 {
        let heap = Refusing::new(rt.alloc(), granted);
        for request in 0..6u64 {
            assert!(rt; heap.has_refused() == (granted < request));
            let words: Result<Vec<u64, &Refusing<Global>>, AllocError> = Vec::with_capacity(
                &heap, 1,
            );
            assert!(rt; words.is_err() == (granted == request));
        }
    }
}

#[test]
fn what_is_handed_out_counts_until_it_is_given_back(rt: HostRuntime) {
    let heap = Refusing::new(rt.alloc(), 4);
    let one = Box::new(&heap, 1u8).expect(&rt, "out of memory");
    let mut words = Vec::from_array(&heap, [1u64, 2, 3]).expect(&rt, "out of memory");
    assert!(rt; heap.held() == 25);
    words.truncate(1);
    words.shrink_to_fit();
    assert!(rt; heap.held() == 9);
    words.reserve_exact(4).expect(&rt, "out of memory");
    assert!(rt; heap.held() == 41);
    // What is refused leaves the count.
    assert!(rt; words.reserve_exact(9).is_err());
    assert!(rt; heap.held() == 41);
    drop(words);
    assert!(rt; heap.held() == 1);
    drop(one);
    assert!(rt; heap.held() == 0);
}

#[test]
fn what_the_inner_allocator_refuses_does_not_count(rt: HostRuntime) {
    let heap = Refusing::new(Refusing::new(rt.alloc(), 0), 9);
    assert!(rt; Box::new(&heap, 1u8).is_err());
    assert!(rt; (heap.has_refused(), heap.held()) == (false, 0));
}
