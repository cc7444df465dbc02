//! A place among tokens of which only the kinds count.

ghost use Rattle.std.specs.Prelude.{◌≡◌, length, drop};
ghost use Rattle.cat_places.specs.Walk as spec;

use cat_tokens::{Symbol, Token, What};
use std::marker::Model;

/// The tokens that are left, which contracts see as their kinds.
#[derive(Drop)]
pub struct Cursor<'a> {
    rest: &'a [Token],
}

impl<'a> Model for Cursor<'a> {
    ghost use Rattle.std.specs.Prelude.{List, ◌<◌, ◌^◌, map, length};
    ghost use Rattle.cat_tokens.specs.declared.token.What.{What};

    ghost Value = { List What };

    ghost view = { λ c. map (λ t. t.what) c.rest.now };

    ghost invariant = { λ c. length c.rest.now < 2 ^ 32 };
}

impl<'a> Cursor<'a> {
    ghost use Rattle.std.specs.Prelude.{◌<◌, ◌^◌, map, true};

    pub fn new(tokens: &'a [Token]) -> Cursor<'a>
        requires { length tokens.now < 2 ^ 32 }
        ensures { result ≡ map (λ t. t.what) tokens.now }
    {
        Cursor { rest: tokens }
    }

    /// How many tokens are left.
    pub fn left(&self) -> u32
        ensures { result ≡ length self.now }
    {
        self.rest.len() as u32
    }

    /// Goes past so many tokens, or all.
    pub fn skip(&mut self, count: usize)
        ensures { self.new ≡ drop count self.old }
    {
        self.rest = &self.rest[count.min(self.rest.len())..];
    }

    fn sees(&self, symbol: Symbol) -> bool
        ensures { result ≡ spec.begins_with symbol self.now }
    {
        match self.rest {
            [token, ..] => token.what == What::Symbol(symbol),
            [] => false,
        }
    }

    /// Goes past the parentheses that open here, and counts them.
    pub fn open(&mut self) -> u32
        ensures count { result ≡ spec.opening self.old }
        ensures left { self.new ≡ spec.unopened self.old }
    {
        let before = self.left();
        'more: while self.sees(Symbol::LeftParen) {
            self.skip(1);
        }
        before - self.left()
    }

    /// Goes past the parentheses that close here, of so many at most. How many of these are open then.
    pub fn close(&mut self, count: u32) -> u32
        ensures open { result ≡ spec.still_open count self.old }
        ensures left { self.new ≡ spec.closed count self.old }
    {
        let mut open = count;
        'more: while open > 0 && self.sees(Symbol::RightParen) {
            self.skip(1);
            open -= 1;
        }
        open
    }
}
