//! Examples of the rule and the edges of every refusal. The expected values are worked out by hand.
use crate::order::in_order;
use crate::refusal::{Code, Refusal};
use crate::setting::set_clock;

const LAST: u64 = 999_999_999_999;

#[test]
fn worked_cases(rt: HostRuntime) {
    assert_eq!(rt; set_clock(1, &[100, 104, 97, 900]), Ok(102));
    assert_eq!(rt; set_clock(1, &[5, 5, 5, 0]), Ok(5));
    assert_eq!(rt; set_clock(2, &[10, 12, 14, 16, 18, 0, 99]), Ok(14));
    assert_eq!(rt; set_clock(0, &[7]), Ok(7));
    assert_eq!(rt; set_clock(1, &[3, 8, 9, 100, 1]), Ok(6));
}

// A silent fourth node is read as the own clock.
#[test]
fn first_round_of_four_nodes(rt: HostRuntime) {
    assert_eq!(rt; set_clock(1, &[1000, 1004, 1010, 1000]), Ok(1002));
    assert_eq!(rt; set_clock(1, &[1000, 1004, 1010, 1004]), Ok(1004));
    assert_eq!(rt; set_clock(1, &[1000, 1004, 1010, 1010]), Ok(1007));
}

#[test]
fn halves_are_rounded_down(rt: HostRuntime) {
    assert_eq!(rt; set_clock(0, &[4, 7]), Ok(5));
    assert_eq!(rt; set_clock(0, &[0, 1]), Ok(0));
    assert_eq!(rt; set_clock(0, &[LAST, LAST - 1]), Ok(LAST - 1));
}

#[test]
fn number_of_readings(rt: HostRuntime) {
    assert_eq!(rt; set_clock(0, &[]), Err(Refusal::ReadingCount { count: 0 }));
    assert_eq!(rt; set_clock(0, &[9]), Ok(9));
    assert_eq!(rt; set_clock(3, &[9; 16]), Ok(9));
    assert_eq!(rt;
        set_clock(0, &[9; 17]),
        Err(Refusal::ReadingCount { count: 17 })
    );
}

#[test]
fn three_times_the_faults(rt: HostRuntime) {
    assert_eq!(rt;
        set_clock(1, &[1, 2, 3]),
        Err(Refusal::TooManyFaults { faults: 1 })
    );
    assert_eq!(rt; set_clock(1, &[1, 2, 3, 4]), Ok(2));
    assert_eq!(rt;
        set_clock(5, &[8; 15]),
        Err(Refusal::TooManyFaults { faults: 5 })
    );
    assert_eq!(rt; set_clock(5, &[8; 16]), Ok(8));
    assert_eq!(rt;
        set_clock(u64::MAX, &[8; 16]),
        Err(Refusal::TooManyFaults { faults: u64::MAX })
    );
    // three times this is 2 more than 2^64
    let wraps = 6_148_914_691_236_517_206;
    assert_eq!(rt;
        set_clock(wraps, &[8; 16]),
        Err(Refusal::TooManyFaults { faults: wraps })
    );
}

#[test]
fn readings_past_the_limit(rt: HostRuntime) {
    assert_eq!(rt; set_clock(1, &[LAST, 1, 2, LAST]), Ok(500_000_000_000));
    assert_eq!(rt;
        set_clock(1, &[LAST + 1, 1, 2, 3]),
        Err(Refusal::ReadingTooLarge { index: 0 })
    );
    assert_eq!(rt;
        set_clock(1, &[1, 2, 3, LAST + 1]),
        Err(Refusal::ReadingTooLarge { index: 3 })
    );
    assert_eq!(rt;
        set_clock(1, &[1, u64::MAX, 3, LAST + 1]),
        Err(Refusal::ReadingTooLarge { index: 1 })
    );
    let mut all = [LAST; 16];
    assert_eq!(rt; set_clock(0, &all), Ok(LAST));
    all[15] = LAST + 1;
    assert_eq!(rt;
        set_clock(0, &all),
        Err(Refusal::ReadingTooLarge { index: 15 })
    );
}

#[test]
fn first_number_wins(rt: HostRuntime) {
    assert_eq!(rt;
        set_clock(u64::MAX, &[]),
        Err(Refusal::ReadingCount { count: 0 })
    );
    assert_eq!(rt;
        set_clock(9, &[u64::MAX; 17]),
        Err(Refusal::ReadingCount { count: 17 })
    );
    assert_eq!(rt;
        set_clock(1, &[u64::MAX; 3]),
        Err(Refusal::TooManyFaults { faults: 1 })
    );
}

#[test]
fn numbers_and_places(rt: HostRuntime) {
    assert_eq!(rt;
        Code::from(Refusal::ReadingCount { count: 17 }),
        Code {
            number: 1,
            place: 17,
        }
    );
    assert_eq!(rt;
        Code::from(Refusal::TooManyFaults { faults: 5 }),
        Code {
            number: 2,
            place: 5,
        }
    );
    assert_eq!(rt;
        Code::from(Refusal::ReadingTooLarge { index: 4 }),
        Code {
            number: 3,
            place: 4,
        }
    );
}

// What stands behind the count is not moved, also where it is smaller.
#[test]
fn order_of_the_front(rt: HostRuntime) {
    let mixed = [9, u64::MAX, 7, 7, 0, 5, 4, 3, 2, 1, 8, 6, 0, 11, 10, 1];
    assert_eq!(rt; in_order(mixed, 0), mixed);
    assert_eq!(rt; in_order(mixed, 1), mixed);
    assert_eq!(rt;
        in_order(mixed, 4),
        [7, 7, 9, u64::MAX, 0, 5, 4, 3, 2, 1, 8, 6, 0, 11, 10, 1]
    );
    assert_eq!(rt;
        in_order(mixed, 15),
        [0, 0, 1, 2, 3, 4, 5, 6, 7, 7, 8, 9, 10, 11, u64::MAX, 1]
    );
}

#[test]
fn order_of_all(rt: HostRuntime) {
    let falling = [16, 15, 14, 13, 12, 11, 10, 9, 8, 7, 6, 5, 4, 3, 2, 1];
    let rising = [1, 2, 3, 4, 5, 6, 7, 8, 9, 10, 11, 12, 13, 14, 15, 16];
    assert_eq!(rt; in_order(falling, 16), rising);
    assert_eq!(rt; in_order(falling, 17), rising);
    assert_eq!(rt; in_order(falling, usize::MAX), rising);
}
