use super::*;

#[test]
fn values_wrap_and_truncate(rt: HostRuntime) {
    assert_eq!(rt; apply(Operator::Div, i32::MIN, -1), i32::MIN);
    assert_eq!(rt; apply(Operator::Rem, i32::MIN, -1), 0);
    assert_eq!(rt; apply(Operator::Div, -7, 2), -3);
    assert_eq!(rt; apply(Operator::Rem, -7, 2), -1);
    assert_eq!(rt; apply(Operator::Div, 7, 0), 0);
    assert_eq!(rt; apply(Operator::Rem, 7, 0), 0);
    assert_eq!(rt; apply(Operator::Sub, -2147483647, 2), i32::MAX);
    assert_eq!(rt; signed(Sign::Not, 0), 1);
    assert_eq!(rt; element_place(-1, 8), 7);
}

#[test]
fn entries_join_the_list(rt: HostRuntime) {
    let entry = LogEntry::Out {
        channel: 1,
        value: 5,
    };
    match Outs::with_room(rt.alloc(), 1) {
        Ok(mut outs) => {
            outs.push(entry);
            assert!(rt; outs.entries() == [entry].as_slice());
        }
        Err(_) => assert!(rt; false),
    }
}
