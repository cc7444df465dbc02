use crate::{FailsFault, TraceFault, fails, trace};
use cn_tables::RowKind;
use std::alloc::Global;

fn trace_fault(alloc: Global, rows: &str) -> Result<Option<TraceFault>, std::alloc::AllocError> {
    let text = format!(in alloc; "ticks,harvest,extra,sample\n{rows}")?;
    Ok(trace(alloc, text.as_bytes()).err())
}

fn fails_fault(alloc: Global, rows: &str) -> Result<Option<FailsFault>, std::alloc::AllocError> {
    let text = format!(in alloc; "tick,fill\n{rows}")?;
    Ok(fails(alloc, text.as_bytes()).err())
}

#[test]
fn a_trace_tells_each_tick(rt: HostRuntime) -> Result<(), std::test::Fail> {
    let text = b"ticks,harvest,extra,sample\n5,0,0,-2147483648\n1,0,6,0\n6,1,0,2147483647\n";
    let read = trace(rt.alloc(), text).expect(&rt, "it is a trace");
    let copy = read.copy(rt.alloc()).expect(&rt, "memory is left");
    assert_eq!(rt; copy.life(), 12);
    let table = [
        (0, 0, 0, -2_147_483_648),
        (4, 0, 0, -2_147_483_648),
        (5, 0, 6, 0),
        (6, 1, 0, 2_147_483_647),
        (11, 1, 0, 2_147_483_647),
    ];
    for (tick, harvest, extra, sample) in table {
        if tick < copy.life() {
            assert_eq!(rt; copy.harvest(tick), harvest);
            assert_eq!(rt; copy.extra(tick), extra);
            assert_eq!(rt; copy.sample(tick), sample);
        }
    }
    let none = trace(rt.alloc(), b"ticks,harvest,extra,sample").expect(&rt, "it is a trace");
    assert_eq!(rt; none.life(), 0);
    Ok(())
}

#[test]
fn the_first_fault_of_a_trace_decides(rt: HostRuntime) -> Result<(), std::test::Fail> {
    let table = [
        ("1,0,0\n", 1, RowKind::Fields),
        ("1,0,0,0,0\n", 1, RowKind::Fields),
        ("1,0,x\n", 1, RowKind::Fields),
        ("0,0,0,x\n", 1, RowKind::Number),
        ("1,0,0,00000000001\n", 1, RowKind::Number),
        ("0,1,0,0\n", 1, RowKind::Range),
        ("1000001,0,0,0\n", 1, RowKind::Range),
        ("1,1000001,0,0\n", 1, RowKind::Range),
        ("1,0,-1,0\n", 1, RowKind::Range),
        ("1,0,0,2147483648\n", 1, RowKind::Range),
        ("1000000,0,0,0\n\n1,0,0,0\n1,0\n", 2, RowKind::Total),
    ];
    for (rows, row, kind) in table {
        assert_eq!(rt;
            trace_fault(rt.alloc(), rows)?,
            Some(TraceFault::BadTrace(row, kind)),
            "{rows}"
        );
    }
    assert_eq!(rt; trace_fault(rt.alloc(), "\"1\",-0,007,0\r\n")?, None);
    assert_eq!(rt; trace_fault(rt.alloc(), "1000000,1000000,1000000,0")?, None);
    Ok(())
}

#[test]
fn the_first_fault_of_failures_decides(rt: HostRuntime) -> Result<(), std::test::Fail> {
    let table = [
        ("5\n", 1, RowKind::Fields),
        ("x,0\n", 1, RowKind::Number),
        ("1000000,0\n", 1, RowKind::Range),
        ("5,0\n", 1, RowKind::Fill),
        ("5,00\n4,0\n", 2, RowKind::Fill),
        ("5,00\n5,00\n", 2, RowKind::Order),
        ("5,00\n4,00\n", 2, RowKind::Order),
    ];
    for (rows, row, kind) in table {
        assert_eq!(rt;
            fails_fault(rt.alloc(), rows)?,
            Some(FailsFault::BadFails(row, kind)),
            "{rows}"
        );
    }
    Ok(())
}

#[test]
fn a_stretch_has_a_first_failure(rt: HostRuntime) -> Result<(), std::test::Fail> {
    let read = fails(rt.alloc(), b"tick,fill\n50,00\n137,fF0a\n999999,00").expect(
        &rt,
        "they are failures",
    );
    let table = [
        (0, 50, None),
        (0, 51, Some(50)),
        (50, 1_000_000, Some(50)),
        (51, 137, None),
        (51, 138, Some(137)),
        (138, 999_999, None),
        (138, 1_000_000, Some(999_999)),
    ];
    for (from, upto, want) in table {
        let found = read.first_in(from, upto);
        assert_eq!(rt; found.map(|failure| failure.tick), want, "{from} {upto}");
    }
    match read.first_in(100, 200) {
        Some(failure) => assert_eq!(rt; failure.fill.bytes(), [255, 10].as_slice()),
        None => assert!(rt; false),
    }
    Ok(())
}

#[test]
fn failures_have_at_most_100_000_rows(rt: HostRuntime) -> Result<(), std::test::Fail> {
    let mut text = String::from_str(rt.alloc(), "tick,fill\n")?;
    for tick in 0..100_000 {
        let row = format!(in rt.alloc(); "{tick},00\n")?;
        text.push_str(row.as_str())?;
    }
    assert!(rt; fails(rt.alloc(), text.as_bytes()).is_ok());
    text.push_str("x\n")?;
    let fault = fails(rt.alloc(), text.as_bytes()).err();
    assert_eq!(rt; fault, Some(FailsFault::BadFails(100_001, RowKind::Many)));
    Ok(())
}
