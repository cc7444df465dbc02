//! What simple statements and tests do.

ghost use Rattle.std.specs.Prelude.{◌≡◌, ◌<◌, ◌≤◌, ◌+◌, ℤ, List, length, not};
ghost use Rattle.cat_program.specs.Value.{value_of, is_nought};
ghost use Rattle.cat_program.specs.Body.{SetWord, SetElement, Raise};
ghost use Rattle.cat_program.specs.Checked.{Reads};
ghost use Rattle.cat_eval.specs.Steps.{acted, chosen_block};

use crate::state::State;
use crate::value::value as value_in;
use cat_program::{Expr, element_place};

/// A word is set.
pub(crate) fn assign(state: &mut State, word: u16, value: &Expr, payload: i32)
    requires word { word < length state.old.words }
    requires reads { Reads (length state.old.words) value.now }
    ensures { state.new ≡ acted (SetWord word value.now) payload state.old }
{
    let value = value_in(value, state.words(), payload);
    state.set_word(word as usize, value);
}

/// An element of an array is set.
pub(crate) fn assign_element(
    state: &mut State,
    base: u16,
    len: u16,
    index: &Expr,
    value: &Expr,
    payload: i32,
)
    requires some { 0 < len }
    requires array { base + len ≤ length state.old.words }
    requires index { Reads (length state.old.words) index.now }
    requires reads { Reads (length state.old.words) value.now }
    ensures { state.new ≡ acted (SetElement base len index.now value.now) payload state.old }
{
    let at = element_place(value_in(index, state.words(), payload), len);
    let value = value_in(value, state.words(), payload);
    state.set_word(base as usize + at as usize, value);
}

/// A task gets one post more, up to 65,535.
pub(crate) fn post(state: &mut State, task: u8, payload: i32)
    requires { task < length state.old.posts }
    ensures { state.new ≡ acted (Raise task) payload state.old }
{
    state.raise(task as usize);
}

/// Whether a test holds.
pub(crate) fn holds(test: &Expr, words: &[i32], payload: i32) -> bool
    requires { Reads (length words.now) test.now }
    ensures { result ≡ not (is_nought (value_of test.now words.now payload)) }
{
    value_in(test, words, payload) != 0
}

/// The block that a task's test chooses, if there is one.
pub(crate) fn chosen_block(
    test: &Expr,
    words: &[i32],
    first: u32,
    second: Option<u32>,
) -> Option<u32>
    requires { Reads (length words.now) test.now }
    ensures { result ≡ chosen_block test.now words.now first second }
{
    if holds(test, words, 0) {
        Some(first)
    } else {
        second
    }
}
