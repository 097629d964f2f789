//! Numbers that are drawn in turn.
use at_ddp::first_free;

// The number after a number of one byte.
fn after(number: u8) -> u8 {
    number.wrapping_add(1)
}

#[test]
fn the_first_free_number_is_past_those_in_use(rt: HostRuntime) {
    assert!(rt; first_free(7, 1, after, |_| false) == Some(7));
    assert!(rt; first_free(7, 3, after, |number| number < 9) == Some(9));
}

#[test]
fn numbers_go_round(rt: HostRuntime) {
    assert!(rt; first_free(254, 4, after, |number| number > 253) == Some(0));
}

#[test]
fn after_so_many_tries_no_number_is_free(rt: HostRuntime) {
    assert!(rt; first_free(7, 2, after, |number| number < 9).is_none());
    assert!(rt; first_free(7, 0, after, |_| false).is_none());
}
