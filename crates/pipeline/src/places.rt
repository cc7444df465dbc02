//! Where the pieces of whole sources begin.

use cat_places::starts;
use cat_syntax::parse;
use cat_tokens::tokens;
use std::test::Fail;

// `(a + b) + c` begins with its parenthesis, and `a + b` within it does not; what is in parentheses alone begins behind them
const PLACES: [(&[u8], &[u32]); 5] = [
    (b"", &[]),
    (
        b"int x = 0; task t { if a * b < c && d { } } start t;",
        &[0, 5, 8, 9, 9, 9, 9, 11, 13, 15, 19],
    ),
    (b"task t { x = (a + b) + c; }", &[0, 3, 5, 6, 6, 8, 11]),
    (
        b"task t { x = ((a + b)); if (a[(1)]) < -(c) { post t; } else { } }",
        &[0, 3, 7, 7, 9, 13, 14, 15, 18, 23, 25, 28],
    ),
    (
        b"event e every 1 offset 0 deadline 1 { repeat 2 { out 1, 3; } } else { out 2, ((1 * (2)) + 3); } degrade e, e;",
        &[0, 9, 12, 15, 21, 25, 26, 26, 29, 33, 37],
    ),
];

#[test]
fn places(rt: HostRuntime) -> Result<(), Fail> {
    for (source, want) in PLACES {
        let found = tokens(rt.alloc(), source).expect(&rt, "tokens");
        let tree = parse(rt.alloc(), &found, source).expect(&rt, "a tree");
        let places = starts(rt.alloc(), &found, &tree).expect(&rt, "memory");
        assert_eq!(rt; places.as_slice(), want);
    }
    Ok(())
}
