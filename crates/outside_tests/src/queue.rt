//! Which arrival is next, and when the one after comes.

use crate::fixtures::{NODE, NODE_TRACE, V2, asked_of, due};
use event_queue::Due;
use std::alloc::Global;
use std::test::Fail;

const TICKS: &[u8] = b"ticks,harvest,extra,sample\n300,0,0,0\n";

#[test]
fn equal_deadlines_go_by_event(rt: HostRuntime) -> Result<(), Fail> {
    let alloc = rt.alloc();
    let rows = b"tick,event,payload\n0,a,7\n0,b,0\n";
    let table = [
        ([0, 0], due(0, 0, 0, 50, 7)),
        ([1, 0], due(1, 0, 0, 50, 0)),
        ([1, 1], None),
    ];
    for (done, want) in table {
        assert_eq!(rt; asked_of(alloc, V2, TICKS, rows, 7, &done)?, (want, None));
    }
    Ok(())
}

// The event that comes later is due sooner.
fn sooner(alloc: Global, now: u32, done: [u32; 2]) -> Result<(Option<Due>, Option<u32>), Fail> {
    let source = b"event a spacing 100 deadline 90 { } event b spacing 100 deadline 10 { }";
    let rows = b"tick,event,payload\n0,a,1\n5,b,2\n100,a,3\n";
    asked_of(alloc, source, TICKS, rows, now, &done)
}

#[test]
fn least_deadline_tick_is_first(rt: HostRuntime) -> Result<(), Fail> {
    let alloc = rt.alloc();
    assert_eq!(rt; sooner(alloc, 4, [0, 0])?, (due(0, 0, 0, 90, 1), Some(5)));
    assert_eq!(rt; sooner(alloc, 5, [0, 0])?, (due(1, 0, 5, 15, 2), Some(100)));
    assert_eq!(rt; sooner(alloc, 5, [0, 1])?, (due(0, 0, 0, 90, 1), Some(100)));
    assert_eq!(rt; sooner(alloc, 5, [2, 1])?, (None, None));
    Ok(())
}

fn of_node(alloc: Global, now: u32, done: [u32; 2]) -> Result<(Option<Due>, Option<u32>), Fail> {
    let rows = b"tick,event,payload\n130,tap,9\n450,tap,8\n";
    asked_of(alloc, NODE, NODE_TRACE, rows, now, &done)
}

#[test]
fn periodic_events_bring_samples(rt: HostRuntime) -> Result<(), Fail> {
    let alloc = rt.alloc();
    assert_eq!(rt;
        of_node(alloc, 0, [0, 0])?,
        (due(0, 0, 0, 100, 40), Some(130))
    );
    assert_eq!(rt; of_node(alloc, 0, [1, 0])?, (None, Some(130)));
    assert_eq!(rt;
        of_node(alloc, 400, [2, 1])?,
        (due(0, 2, 400, 500, 12), Some(450))
    );
    Ok(())
}

#[test]
fn last_arrivals_are_found(rt: HostRuntime) -> Result<(), Fail> {
    let alloc = rt.alloc();
    assert_eq!(rt;
        of_node(alloc, 130, [1, 0])?,
        (due(1, 0, 130, 280, 9), Some(200))
    );
    assert_eq!(rt;
        of_node(alloc, 450, [3, 1])?,
        (due(1, 1, 450, 600, 8), None)
    );
    assert_eq!(rt; of_node(alloc, 599, [3, 2])?, (None, None));
    assert_eq!(rt;
        of_node(alloc, 4_294_967_295, [0, 0])?,
        (due(0, 0, 0, 100, 40), None)
    );
    Ok(())
}
