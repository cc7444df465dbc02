ghost use Rattle.std.specs.Prelude.{◌≡◌};
ghost use Rattle.event_arrivals.specs.Rows as spec;

use cat_program::{Event, Program, Timing, events_have_headers};

// Whether an event is reactive and has this name.
fn is_reactive_named(event: &Event, name: &[u8]) -> bool
    ensures { result ≡ spec.is_reactive_named name.now event.now }
{
    match event.timing {
        Timing::Every { .. } => false,
        Timing::Spacing { .. } => event.name.as_str().as_bytes() == name,
    }
}

/// The number of the reactive event with this name.
pub(crate) fn reactive_named(program: &Program, name: &[u8]) -> Option<u8>
    ensures { result ≡ spec.reactive_named name.now 0 program.now.headers }
{
    let _versions = program.versions();
    events_have_headers();
    'events: for number in 0..program.events() {
        if is_reactive_named(program.event(number), name) {
            return Some(number);
        }
    }
    None
}
