ghost use Rattle.std.specs.Prelude.{◌≡◌, ℕ, List, length, Ok};
ghost use Rattle.cat_program.specs.Checked.{Checked, IsChecked};
ghost use Rattle.harvest_trace.specs.declared.row.TraceRow.{TraceRow as Sampled};
ghost use Rattle.event_arrivals.specs.Arrivals.{arrivals_of, timings_of, Lists};
ghost use Rattle.event_arrivals.specs.Counts.{AreCounted};
ghost use Rattle.event_arrivals.specs.Next.{AreOne, IsNext};
ghost use Rattle.event_arrivals.specs.Spaced.{AreSound};
ghost use Rattle.event_arrivals.specs.declared.arrival.Arrival.{Arrival as Coming};

use cat_program::events_have_headers;

/// The arrivals that come before a tick are those of the lowest numbers, and few in each stretch of time: a law of the
/// definitions.
pub fn arrivals_are_counted()
    ensures { (lists : Lists) → AreSound lists → AreCounted lists }
{}

/// One arrival comes next, and it is its event's first that is not done: a law of the definitions.
pub fn one_next()
    ensures same { (lists : Lists) (deadlines : List ℕ) (now : ℕ) → AreOne lists deadlines now }
    ensures lowest { (lists : Lists) (deadlines : List ℕ) (done : ℕ → ℕ) (now event k : ℕ) (arrival : Coming) → AreSound lists → IsNext lists deadlines done now event k arrival → k ≡ done event }
{}

/// The arrivals that a table tells of a checked program are those of each of its events, by its periods and spacings, and sound.
pub fn told_arrivals_are_sound()
    ensures timings { (p : Checked) (trace : List Sampled) (bytes : List ℕ) (lists : Lists) → IsChecked p → arrivals_of p.headers trace bytes ≡ Ok lists → lists.timings ≡ timings_of p.headers }
    ensures events { (p : Checked) (trace : List Sampled) (bytes : List ℕ) (lists : Lists) → IsChecked p → arrivals_of p.headers trace bytes ≡ Ok lists → length lists.timings ≡ length p.events }
    ensures sound { (p : Checked) (trace : List Sampled) (bytes : List ℕ) (lists : Lists) → IsChecked p → arrivals_of p.headers trace bytes ≡ Ok lists → AreSound lists }
{
    events_have_headers();
}
