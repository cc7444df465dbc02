use crate::{Base, Load, WindowTooLong, block, dbf, lcm_to, rbf, sbf, window};

const EVENT: Load = Load {
    spacing: 100,
    deadline: 50,
    units: 20,
    ticks: 8,
};

const BASE: Base = Base {
    cap: 100,
    p: 10,
    q: 3,
    checkpoint: 6,
    section: 0,
    wake: 5,
    longest: 2,
};

#[test]
fn windows_repeat(rt: HostRuntime) {
    assert_eq!(rt; window(10, &[EVENT]), Ok(100));
    assert_eq!(rt; window(7, &[]), Ok(7));

    // the first spacing with which the window exceeds the limit is named
    let long = [
        Load {
            spacing: 999_983,
            deadline: 1,
            units: 11,
            ticks: 5,
        },
        Load {
            spacing: 999_979,
            deadline: 1,
            units: 11,
            ticks: 5,
        },
    ];
    assert_eq!(rt; window(10, &long), Err(WindowTooLong(999_983)));
    assert_eq!(rt; window(1, &long), Err(WindowTooLong(999_979)));
}

#[test]
fn counts_jump(rt: HostRuntime) {
    // from 0 to 100 a job arrives at both ends, and one more each 100 ticks
    assert_eq!(rt; rbf(&[EVENT], 99), 20);
    assert_eq!(rt; rbf(&[EVENT], 100), 40);
    assert_eq!(rt; sbf(&BASE, 99), 27);
    assert_eq!(rt; sbf(&BASE, 100), 30);

    // the first job is due at its deadline
    assert_eq!(rt; dbf(&[EVENT], 49), 0);
    assert_eq!(rt; dbf(&[EVENT], 50), 8);
    assert_eq!(rt; dbf(&[EVENT], 150), 16);

    // a job that is due later may have begun, and else a wake of two ticks
    assert_eq!(rt; block(&BASE, &[EVENT], 49), 7);
    assert_eq!(rt; block(&BASE, &[EVENT], 50), 1);
}

#[test]
fn least_multiples(rt: HostRuntime) {
    assert_eq!(rt; lcm_to(4, 6, 12), Some(12));
    assert_eq!(rt; lcm_to(4, 6, 11), None);
    assert_eq!(rt; lcm_to(4_294_967_295, 4_294_967_294, 4_294_967_295), None);
}
