//! The sources of the tests, and their programs.

use cat_program::Program;
use cat_syntax::parse;
use cat_tokens::tokens;
use cat_types::check;
use std::alloc::Global;
use std::test::Fail;

/// One task, which counts and puts the count out.
pub(crate) const COUNT: &str = "int x = 0; task t { x = x + 1; out 1, x; } start t;";

/// The values at the limits: indexes below 0, divisors 0 and -1, and what division cuts off.
pub(crate) const LIMITS: &str = "int z = 0; int a[8];
task t { a[z - 1] = 5; out 0, a[7]; out 0, 7 / z; out 0, 7 % z;
  out 0, (-2147483647 - 1) / -1; out 0, -7 / 2; out 0, -7 % 2; }
start t;";

/// An event of two versions with every form of statement that events have.
pub(crate) const METER: &str = "int n = 1; int a[3]; bool high = false;
task report { out 9, n; }
event sample spacing 50 deadline 10 {
  a[n] = payload;
  if payload > 10 { high = true; out 1, payload; } else { out 2, a[1]; }
  repeat 2 { n = n + 1; out 3, n; }
  if high { out 4, a[-3]; }
  post report; post report;
} else { n = n + payload; post report; }
degrade sample;
start report;";

/// The program of a source that has one.
pub(crate) fn program_of(alloc: Global, source: &str) -> Result<Program, Fail> {
    let source = source.as_bytes();
    if source.len() > 262_144 {
        return Err("a long source".into());
    }
    let Ok(found) = tokens(alloc, source) else {
        return Err("no tokens".into());
    };
    let Ok(tree) = parse(alloc, found.as_slice(), source) else {
        return Err("no tree".into());
    };
    match check(alloc, &tree) {
        Ok(program) => Ok(program),
        Err(_) => Err("no program".into()),
    }
}
