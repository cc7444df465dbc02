//! Sources and what becomes of them.

ghost use Rattle.std.specs.Prelude.{◌≤◌, length};

use cat_syntax::{SyntaxFault, parse};
use cat_tokens::{LexFault, tokens};
use std::alloc::Global;
use std::test::Fail;

/// How many items the tree has, or why there is none.
#[derive(Clone, Copy, Debug, PartialEq)]
enum Outcome {
    Parsed(usize),
    Lex(LexFault),
    Syntax(SyntaxFault),
}

fn run(alloc: Global, source: &[u8]) -> Outcome
    requires { length source.now ≤ 262144 }
{
    match tokens(alloc, source) {
        Err(fault) => Outcome::Lex(fault),
        Ok(found) => {
            match parse(alloc, &found, source) {
                Err(fault) => Outcome::Syntax(fault),
                Ok(tree) => Outcome::Parsed(tree.items.len()),
            }
        }
    }
}

const WHOLE: &[u8] = b"int x = -3; bool b = true; int a[4]; // words
task t { out 1, x * 2 + 1; if b && x < 3 { x = x + 1; } else { a[x] = 0; } post t; }
event e every 10 offset 2 deadline 5 { repeat 3 { x = payload; } } else { } degrade e, e; start t;";

const SOURCES: [(&[u8], Outcome); 18] = [
    (b"", Outcome::Parsed(0)),
    (WHOLE, Outcome::Parsed(7)),
    (
        b"int a = 0; task t { if a < 1 < 2 { } }",
        Outcome::Syntax(SyntaxFault::Syntax(12)),
    ),
    (b"int x = 0", Outcome::Syntax(SyntaxFault::Syntax(4))),
    (b"int $", Outcome::Lex(LexFault::BadByte(4))),
    (
        b"int x = 2147483648;",
        Outcome::Lex(LexFault::IntTooLarge(8)),
    ),
    (
        b"start abcdefghijklmnopqrstuvwxyzabcdef;",
        Outcome::Lex(LexFault::NameTooLong(6)),
    ),
    (
        b"task t { out 1, ((((((((((((((((((((((((((((((((",
        Outcome::Syntax(SyntaxFault::TooDeep(37)),
    ),
    // closing brackets make room below none
    (
        b"} task t { out 1, ((((((((((((((((((((((((((((((((",
        Outcome::Syntax(SyntaxFault::Syntax(0)),
    ),
    // a number and a name
    (b"start 12ab;", Outcome::Syntax(SyntaxFault::Syntax(1))),
    // the place is the first token that can't follow: an operator, a bracket or `;` could stand for the 2
    (
        b"task t { x = 1 2; }",
        Outcome::Syntax(SyntaxFault::Syntax(6)),
    ),
    // behind an element only `=` begins a statement
    (
        b"task t { a[1] + 2; }",
        Outcome::Syntax(SyntaxFault::Syntax(7)),
    ),
    // one sign at most
    (
        b"task t { out 1, - -1; }",
        Outcome::Syntax(SyntaxFault::Syntax(7)),
    ),
    // a block follows `else`
    (
        b"task t { if a { } else if b { } }",
        Outcome::Syntax(SyntaxFault::Syntax(8)),
    ),
    // a period wants an offset
    (
        b"event e every 10 deadline 5 { }",
        Outcome::Syntax(SyntaxFault::Syntax(4)),
    ),
    // an item could follow the closed one
    (b"int x = 0; }", Outcome::Syntax(SyntaxFault::Syntax(5))),
    // 32 braces are open, and a block must follow: what begins a list is told without the limit of depth
    (
        b"task t{if a{if a{if a{if a{if a{if a{if a{if a{if a{if a{if a{if a{if a{if a{if a{if a{if a{if a{if a{if a{if a{if a{if a{if a{if a{if a{if a{if a{if a{if a{if a{if a",
        Outcome::Syntax(SyntaxFault::Syntax(98)),
    ),
    // all tokens begin a list
    (b"task t {", Outcome::Syntax(SyntaxFault::Syntax(3))),
];

#[test]
fn sources(rt: HostRuntime) -> Result<(), Fail> {
    for (source, want) in SOURCES {
        assert_eq!(rt; run(rt.alloc(), source), want);
    }
    Ok(())
}
