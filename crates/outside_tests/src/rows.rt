//! Rows that are kept, dropped and refused.

use crate::fixtures::{V2, arrivals_of, program_of};
use cn_tables::RowKind;
use event_arrivals::{ArrivalsFault, Dropped, arrivals};
use harvest_trace::trace;
use std::test::Fail;

#[test]
fn rows_too_soon_are_dropped(rt: HostRuntime) -> Result<(), Fail> {
    let alloc = rt.alloc();
    let v1 = b"int x = 0; event e spacing 100 deadline 50 { out 1, x; }";
    let program = program_of(alloc, v1)?;
    let ticks = b"ticks,harvest,extra,sample\n250,1,0,0\n";
    let rows = b"tick,event,payload\n0,e,0\n99,e,0\n100,e,0\n199,e,5\n200,e,0\n250,e,0\n";
    let read = arrivals_of(alloc, &program, ticks, rows)?;
    let dropped = [
        Dropped { tick: 99, event: 0 },
        Dropped {
            tick: 199,
            event: 0,
        },
    ];
    assert_eq!(rt; read.dropped(), dropped.as_slice());
    assert!(rt; read.events() == 1);
    if read.events() == 1 {
        for (k, tick) in [Some(0), Some(100), Some(200), None].iter().enumerate() {
            assert_eq!(rt;
                read.arrival(0, k as u32).map(|arrival| arrival.tick),
                *tick
            );
        }
    }
    Ok(())
}

#[test]
fn bad_rows_are_named(rt: HostRuntime) -> Result<(), Fail> {
    let alloc = rt.alloc();
    let program = program_of(alloc, V2)?;
    let Ok(ticks) = trace(alloc, b"ticks,harvest,extra,sample\n60,0,0,0\n") else {
        return Err("no trace".into());
    };
    let table: [(&[u8], u32, RowKind); 3] = [
        (b"tick,event,payload\n5,zz,0\n", 1, RowKind::Name),
        (b"tick,event,payload\n5,a,0\n4,b,0\n", 2, RowKind::Order),
        (b"tick,event\n5,a\n", 0, RowKind::Header),
    ];
    for (rows, row, kind) in table {
        match arrivals(alloc, &program, &ticks, rows) {
            Ok(_) => assert!(rt; false),
            Err(fault) => assert_eq!(rt; fault, ArrivalsFault::BadArrivals(row, kind)),
        }
    }
    Ok(())
}
