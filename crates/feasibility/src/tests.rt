ghost use Rattle.std.specs.Prelude.{◌≡◌, ◌<◌, IsTrue};
ghost use Rattle.demand_core.specs.Demand.{CanRepeat};

use crate::{Verdict, choose_vector, feasible, plain, reserve};
use cn_base::List;
use demand_core::{Base, Load, window};
use std::process::Abort;
use std::test::Fail;

fn load(spacing: u32, deadline: u32, units: u64, ticks: u64) -> Load
    ensures spacing { result.spacing ≡ spacing }
    ensures deadline { result.deadline ≡ deadline }
{
    Load {
        spacing,
        deadline,
        units,
        ticks,
    }
}

fn base(cap: u32, p: u32, q: u32) -> Base
    ensures p { result.p ≡ p }
    ensures longest { 0 < result.longest }
{
    Base {
        cap,
        p,
        q,
        checkpoint: 6,
        section: 0,
        wake: 5,
        longest: 2,
    }
}

/// Whether the numbers are in range.
fn are_in_range(base: &Base, loads: &[Load]) -> bool
    ensures { IsTrue result → CanRepeat base.now loads.now }
{
    0 < base.p
        && loads.iter().all(|x| 0 < x.spacing)
        && loads.iter().all(|x| x.deadline <= x.spacing)
}

/// The verdict and the reserve of a set, in which the slow bodies agree.
fn tested(rt: &impl Abort, base: &Base, loads: &[Load]) -> (Verdict, u128) {
    assert!(rt; are_in_range(base, loads));
    assert!(rt; base.p <= 1_000_000 && 0 < base.longest && loads.len() <= 16);
    let Ok(window) = window(base.p, loads) else {
        panic!(rt; "the window is too long");
    };
    let verdict = feasible(base, loads, window);
    let kept = reserve(base, loads, window);
    assert_eq!(rt; plain::feasible(base, loads, window), verdict);
    assert_eq!(rt; plain::reserve(base, loads, window), kept);
    (verdict, kept)
}

#[test]
fn one_event(rt: HostRuntime) {
    let event = [load(100, 50, 20, 8)];
    assert_eq!(rt; tested(&rt, &base(100, 10, 2), &event), (Verdict::Yes, 20));
    assert_eq!(rt;
        tested(&rt, &base(100, 10, 1), &event).0,
        Verdict::F1 {
            left: 20,
            right: 10
        }
    );
    assert_eq!(rt; tested(&rt, &base(51, 10, 3), &event).0, Verdict::Yes);
    assert_eq!(rt;
        tested(&rt, &base(50, 10, 3), &event).0,
        Verdict::F2 {
            left: 51,
            right: 50
        }
    );
    assert_eq!(rt;
        tested(&rt, &base(100, 20, 3), &event).0,
        Verdict::F1 {
            left: 20,
            right: 15
        }
    );
    assert_eq!(rt;
        tested(&rt, &base(100, 20, 3), &[load(100, 50, 15, 6)]),
        (Verdict::Yes, 15)
    );

    let short = [load(100, 9, 20, 8)];
    assert_eq!(rt; tested(&rt, &base(100, 10, 3), &short).0, Verdict::Yes);
    let shorter = [load(100, 8, 20, 8)];
    assert_eq!(rt;
        tested(&rt, &base(100, 10, 3), &shorter).0,
        Verdict::F3 {
            length: 8,
            left: 9,
            right: 8
        }
    );
    let long = [load(999_990, 999_990, 15, 6)];
    assert_eq!(rt; tested(&rt, &base(100, 10, 3), &long), (Verdict::Yes, 15));
    assert_eq!(rt; tested(&rt, &base(100, 10, 3), &[]), (Verdict::Yes, 0));
}

#[test]
fn sensor_node(rt: HostRuntime) {
    let device = Base {
        cap: 200,
        p: 100,
        q: 20,
        checkpoint: 6,
        section: 7,
        wake: 5,
        longest: 5,
    };
    let whole = [load(200, 100, 31, 16), load(300, 150, 20, 8)];
    assert_eq!(rt;
        tested(&rt, &device, &whole).0,
        Verdict::F1 {
            left: 133,
            right: 120
        }
    );
    let degraded = [load(200, 100, 26, 14), load(300, 150, 20, 8)];
    assert_eq!(rt; tested(&rt, &device, &degraded), (Verdict::Yes, 46));
    let small = Base { cap: 109, ..device };
    assert_eq!(rt;
        tested(&rt, &small, &degraded).0,
        Verdict::F2 {
            left: 110,
            right: 109
        }
    );
}

/// Sets with several jumps before the one that decides. What is expected was counted length by length, outside this program.
#[test]
fn slow_and_fast_agree(rt: HostRuntime) {
    let yes = Verdict::Yes;
    let late = |length, left| Verdict::F3 {
        length,
        left,
        right: u128::from(length),
    };
    for (cap, p, q, x, y, z, expected) in [
        (
            90,
            100,
            20,
            load(60, 20, 5, 3),
            load(90, 70, 6, 9),
            load(40, 40, 2, 2),
            (yes, 29),
        ),
        (
            40,
            50,
            30,
            load(10, 10, 2, 1),
            load(15, 12, 3, 2),
            load(25, 20, 5, 3),
            (
                Verdict::F2 {
                    left: 53,
                    right: 40,
                },
                32,
            ),
        ),
        (
            99,
            7,
            3,
            load(11, 7, 1, 6),
            load(13, 13, 1, 5),
            load(22, 22, 2, 9),
            (
                Verdict::F3 {
                    length: 0,
                    left: 2681,
                    right: 2002,
                },
                4,
            ),
        ),
        (
            60,
            20,
            23,
            load(7, 6, 1, 2),
            load(11, 11, 5, 3),
            load(13, 13, 4, 2),
            (yes, 21),
        ),
        (
            99,
            20,
            35,
            load(10, 9, 5, 2),
            load(12, 10, 4, 6),
            load(20, 11, 5, 1),
            (yes, 23),
        ),
        (
            60,
            20,
            26,
            load(8, 8, 5, 1),
            load(10, 8, 3, 5),
            load(12, 7, 6, 1),
            (
                Verdict::F1 {
                    left: 171,
                    right: 156,
                },
                45,
            ),
        ),
        (
            60,
            12,
            25,
            load(15, 12, 2, 5),
            load(20, 13, 3, 4),
            load(20, 19, 3, 6),
            (late(13, 14), 8),
        ),
        (
            60,
            20,
            38,
            load(12, 11, 2, 3),
            load(8, 8, 2, 2),
            load(12, 12, 1, 6),
            (late(24, 25), 12),
        ),
        (
            99,
            12,
            15,
            load(20, 12, 4, 3),
            load(8, 7, 5, 5),
            load(24, 14, 6, 2),
            (late(15, 16), 20),
        ),
        (
            99,
            12,
            23,
            load(8, 5, 6, 3),
            load(10, 10, 4, 3),
            load(10, 10, 1, 3),
            (late(21, 22), 22),
        ),
    ] {
        assert_eq!(rt; tested(&rt, &base(cap, p, q), &[x, y, z]), expected);
    }
}

/// An event whose whole version asks for more than is harvested.
#[test]
fn cheaper_version(rt: HostRuntime) -> Result<(), Fail> {
    let alloc = rt.alloc();
    let versions = vec![in alloc; load(100, 50, 20, 8), load(100, 50, 15, 6)]?;
    let tables = vec![in alloc; List::of(versions)]?;
    let order: [u8; 1] = [0];
    let Ok(vector) = choose_vector(alloc, &base(100, 20, 3), tables.as_slice(), &order) else {
        panic!(rt; "rejected");
    };
    assert!(rt; vector.versions.as_slice() == [1].as_slice());
    assert_eq!(rt; (vector.window, vector.reserve), (100, 15));
    Ok(())
}
