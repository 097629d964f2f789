//! The order of sequence numbers, which go round.
use at_adsp_frame::before;

// Pairs of sequence numbers, and whether the first comes before the second.
static ORDERS: [(u32, u32, bool); 4] = [
    (0xFFFF_FFFF, 0, true),
    (0, 0, false),
    (0, 0x8000_0000, false),
    (0x8000_0000, 0, false),
];

#[test]
fn sequence_numbers_go_round(rt: HostRuntime) {
    for (first, second, is_before) in ORDERS.iter() {
        assert!(rt; before(*first, *second) == *is_before);
    }
}
