use crate::{ForecastFault, forecast};
use cn_tables::RowKind;
use std::alloc::Global;

fn fault(alloc: Global, rows: &str) -> Result<Option<ForecastFault>, std::alloc::AllocError> {
    let text = format!(in alloc; "tick,p,q\n{rows}")?;
    Ok(forecast(alloc, text.as_bytes()).err())
}

#[test]
fn the_first_fault_of_a_forecast_decides(rt: HostRuntime) -> Result<(), std::test::Fail> {
    let table = [
        ("", 1, RowKind::Few),
        ("0,1\n", 1, RowKind::Fields),
        ("5,0,x\n", 1, RowKind::Number),
        ("5,0,1\n", 1, RowKind::Range),
        ("0,1,1000001\n", 1, RowKind::Range),
        ("5,10,3\n", 1, RowKind::Order),
        ("0,1,0\n1000000,1,0\n", 2, RowKind::Range),
        ("0,1,0\n0,1,0\n", 2, RowKind::Order),
    ];
    for (rows, row, kind) in table {
        assert_eq!(rt;
            fault(rt.alloc(), rows)?,
            Some(ForecastFault::BadForecast(row, kind))
        );
    }
    assert_eq!(rt;
        fault(rt.alloc(), "-0,1000000,1000000\n999999,1,0\n")?,
        None
    );
    Ok(())
}

#[test]
fn a_row_is_in_force_from_its_tick_on(rt: HostRuntime) {
    let text = b"tick,p,q\n0,10,3\n100,20,4\n";
    let read = forecast(rt.alloc(), text).expect(&rt, "it is a forecast");
    for (tick, p) in [(0, 10), (99, 10), (100, 20), (1_000_000, 20)] {
        assert_eq!(rt; read.at(tick).p, p);
    }
}
