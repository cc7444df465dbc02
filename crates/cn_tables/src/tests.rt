use crate::{RowKind, Rows, TableFault, fill_of, number, open_table, within, word};
use std::alloc::Global;

// How many fields the second row has, and how long its second one is.
fn second_of(alloc: Global, text: &[u8]) -> Result<(usize, usize), TableFault> {
    let header = [b"a".as_slice(), b"b".as_slice()];
    let mut rows = open_table(alloc, text, &header)?;
    let mut found = (0, 0);
    for _ in 0..2 {
        match rows.next_row() {
            Ok(true) => found = (rows.count(), rows.field(1).len()),
            _ => return Ok((0, 0)),
        }
    }
    Ok(found)
}

#[test]
fn rows_come_in_order(rt: HostRuntime) {
    let header = Err(TableFault::Bad(0, RowKind::Header));
    let table: [(&[u8], Result<(usize, usize), TableFault>); 12] = [
        (b"a,b\n1,2\n3,44", Ok((2, 2))),
        (b"a,b\r\n1,2\r\n\r\n\n3,44\r\n", Ok((2, 2))),
        (b"a,b\r1,2\r3,44\r", Ok((2, 2))),
        (b"\"a\",b\n1,2\n3,\"4,\"\"\n5\"\n", Ok((2, 5))),
        (b"a,b\n1,2\n3,4,5\n", Ok((3, 1))),
        (b"a,b\n1,2\n \n", Ok((1, 0))),
        (b"a,b\n1,2\n", Ok((0, 0))),
        (b"a,b", Ok((0, 0))),
        (b"", header),
        (b"a,c\n1,2\n", header),
        (b"a,b \n", header),
        (b"\xEF\xBB\xBFa,b\n1,2\n", header),
    ];
    for (text, want) in table {
        assert_eq!(rt; second_of(rt.alloc(), text), want);
    }
}

#[test]
fn fields_are_spelled(rt: HostRuntime) {
    let table: [(&[u8], Option<i64>); 11] = [
        (b"0", Some(0)),
        (b"-0", Some(0)),
        (b"0000000012", Some(12)),
        (b"9999999999", Some(9_999_999_999)),
        (b"-2147483648", Some(-2_147_483_648)),
        (b"00000000001", None),
        (b"-", None),
        (b"", None),
        (b"+1", None),
        (b" 1", None),
        (b"1-", None),
    ];
    for (field, want) in table {
        assert_eq!(rt; number(field), want);
    }
    assert_eq!(rt; within(9, 9, 9), Some(9));
    assert_eq!(rt; within(-1, 0, 9), None);
    assert_eq!(rt; word(-2_147_483_648), Some(-2_147_483_648));
    assert_eq!(rt; word(2_147_483_648), None);
    assert!(rt; fill_of(b"aF00").is_some());
    assert!(rt; fill_of(b"aF0").is_none());
    assert!(rt; fill_of(b"0g").is_none());
    assert!(rt; fill_of(&[b'0'; 128]).is_some());
    assert!(rt; fill_of(&[b'0'; 130]).is_none());
}
