//! Reference runs.

use crate::fixtures::{NODE, NODE_TRACE, V2, item, out, ran, run_of};
use cat_program::LogEntry;
use std::alloc::Global;
use std::test::Fail;

const TICKS: &[u8] = b"ticks,harvest,extra,sample\n60,0,0,0\n";

const ROWS: &[u8] = b"tick,event,payload\n0,a,7\n0,b,0\n";

// The entries of both jobs.
fn both_done(alloc: Global) -> Result<Vec<LogEntry>, Fail> {
    Ok(vec![in alloc; ran(0, 0, 0, 7, 0), out(1, 7), ran(1, 0, 0, 15, 0)]?)
}

#[test]
fn items_in_order(rt: HostRuntime) -> Result<(), Fail> {
    let alloc = rt.alloc();
    let items = vec![in alloc; item(0, 0, 0, 7), item(0, 1, 0, 15)]?;
    let end = run_of(alloc, V2, TICKS, ROWS, &[0, 0], items, 0)?;
    let want = both_done(alloc)?;
    assert!(rt; end.words.as_slice() == [7].as_slice());
    assert!(rt; end.entries.as_slice() == want.as_slice());
    Ok(())
}

// Which of two items the run of both events can't take, with a total.
fn bad_of(
    alloc: Global,
    first: (u32, u8, u8, u32),
    second: (u32, u8, u8, u32),
    total: u32,
) -> Result<Option<u32>, Fail> {
    let items = vec![in alloc;
        item(first.0, first.1, first.2, first.3),
        item(second.0, second.1, second.2, second.3),
    ]?;
    let end = run_of(alloc, V2, TICKS, ROWS, &[0, 0], items, total)?;
    Ok(end.bad)
}

#[test]
fn first_bad_item_is_named(rt: HostRuntime) -> Result<(), Fail> {
    let alloc = rt.alloc();
    // the items exchanged
    assert_eq!(rt; bad_of(alloc, (0, 1, 0, 7), (0, 0, 0, 15), 0)?, Some(0));
    // no such version
    assert_eq!(rt; bad_of(alloc, (0, 0, 0, 7), (0, 1, 1, 15), 0)?, Some(1));
    // a start before the last one
    assert_eq!(rt; bad_of(alloc, (0, 0, 0, 7), (0, 1, 0, 6), 0)?, Some(1));
    Ok(())
}

#[test]
fn bad_steps_are_named(rt: HostRuntime) -> Result<(), Fail> {
    let alloc = rt.alloc();
    // the same arrival again
    assert_eq!(rt; bad_of(alloc, (0, 0, 0, 7), (0, 0, 0, 7), 0)?, Some(1));
    // no such step
    assert_eq!(rt; bad_of(alloc, (1, 0, 0, 7), (1, 1, 0, 15), 1)?, Some(0));
    // only the total
    assert_eq!(rt; bad_of(alloc, (0, 0, 0, 7), (0, 1, 0, 15), 1)?, Some(2));
    Ok(())
}

const TAPS: &[u8] = b"tick,event,payload\n130,tap,9\n450,tap,8\n";

// The entries of three samples, two taps and the task between them.
fn node_done(alloc: Global) -> Result<Vec<LogEntry>, Fail> {
    Ok(vec![in alloc;
        ran(0, 1, 0, 0, 0),
        out(2, 10),
        out(1, 9),
        ran(1, 0, 18, 130, 0),
        ran(0, 1, 18, 200, 1),
        out(2, 20),
        ran(0, 1, 36, 400, 2),
        out(1, 8),
        ran(1, 0, 46, 451, 1),
        out(2, 23),
    ]?)
}

#[test]
fn steps_between_items(rt: HostRuntime) -> Result<(), Fail> {
    let alloc = rt.alloc();
    let items = vec![in alloc;
        item(0, 0, 1, 0),
        item(18, 1, 0, 130),
        item(18, 0, 1, 200),
        item(36, 0, 1, 400),
        item(46, 1, 0, 451),
    ]?;
    let end = run_of(alloc, NODE, NODE_TRACE, TAPS, &[1, 0], items, 54)?;
    let want = node_done(alloc)?;
    assert!(rt; end.words.as_slice() == [4, 92, 3, 40, 40, 12, 0].as_slice());
    assert!(rt; end.entries.as_slice() == want.as_slice());
    Ok(())
}
