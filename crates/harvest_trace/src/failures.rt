ghost use Rattle.std.specs.Prelude.{◌≡◌, ◌≤◌, ◌<◌, length, IfSome, None};
ghost use Rattle.std.specs.List.Sorted.{IsNonDecreasingBy, IsPartitionPoint};
ghost use Rattle.harvest_trace.specs.Failures.{IsRising, first_in};

use cn_base::Fill;
use std::marker::Model;

/// A loss of power at a tick, and the bytes that a write leaves which is lost with it.
#[derive(Drop)]
pub struct Failure {
    pub tick: u32,
    pub fill: Fill,
}

impl Failure {
    pub fn copy(&self) -> Failure
        ensures { result ≡ self.now }
    {
        Failure {
            tick: self.tick,
            fill: self.fill.copy(),
        }
    }
}

/// Failures at ticks that rise.
#[derive(Drop)]
pub struct Fails {
    failures: Vec<Failure>,
}

impl Model for Fails {
    ghost use Rattle.std.specs.Prelude.{List};
    ghost use Rattle.harvest_trace.specs.declared.failures.Failure.{Failure};
    ghost use Rattle.harvest_trace.specs.Failures.{IsRising};

    ghost Value = { List Failure };

    ghost view = { λ a. a.failures.items };

    ghost invariant = { λ a. IsRising a.failures.items };
}

// How many failures come before a tick.
fn before(failures: &[Failure], tick: u32) -> usize
    requires { IsNonDecreasingBy (λ f. f.tick) failures.now }
    ensures most { result ≤ length failures.now }
    ensures point { IsPartitionPoint (λ f. f.tick < tick) (λ f. tick ≤ f.tick) failures.now result }
{
    failures.partition_point(|failure| failure.tick < tick)
}

impl Fails {
    pub(crate) fn of(failures: Vec<Failure>) -> Fails
        requires { IsRising failures.items }
        ensures { result ≡ failures.items }
    {
        Fails { failures }
    }

    /// The first failure from tick `from` on and before tick `upto`.
    pub fn first_in(&self, from: u32, upto: u32) -> Option<Failure>
        ensures value { result ≡ first_in from upto self.now }
        ensures first { IfSome result (λ f. first_in from f.tick self.now ≡ None) }
    {
        let failures = self.failures.as_slice();
        match failures.get(before(failures, from)) {
            Some(failure) if failure.tick < upto => Some(failure.copy()),
            _ => None,
        }
    }
}
