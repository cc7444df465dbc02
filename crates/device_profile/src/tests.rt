use crate::{DeviceFault, Key, device};
use std::alloc::Global;
use std::test::Fail;

const TEXT: &str = "cap = 100
start = 100
resume = 0
log = 100
p = 10
q = 3
fill = \"00\"
[basic]
ticks = 1
bound = 1
actual = 1
[memory]
ticks = 1
bound = 2
actual = 2
[out]
ticks = 1
bound = 4
actual = 4
[write]
ticks = 1
bound = 3
actual = 3
[wake]
ticks = 2
bound = 5
actual = 5
";

// The fault of the profile with each of these put for the one before it.
fn fault_with(alloc: Global, edits: &[(&str, &str)]) -> Result<Option<DeviceFault>, Fail> {
    let mut text = String::from_str(alloc, TEXT)?;
    for (old, new) in edits {
        text = text.replace(alloc, old, new)?;
    }
    Ok(device(alloc, text.as_bytes()).err())
}

#[test]
fn a_profile_tells_its_device(rt: HostRuntime) -> Result<(), Fail> {
    let read = device(rt.alloc(), TEXT.as_bytes()).expect(&rt, "it is a profile");
    assert_eq!(rt; (read.cap, read.start, read.resume), (100, 100, 0));
    assert_eq!(rt; (read.log, read.p, read.q), (100, 10, 3));
    assert_eq!(rt; read.fill.bytes(), [0].as_slice());
    let table = [
        (read.basic, 1, 1),
        (read.memory, 1, 2),
        (read.out, 1, 4),
        (read.write, 1, 3),
        (read.wake, 2, 5),
    ];
    for (cost, ticks, units) in table {
        assert_eq!(rt;
            (cost.ticks, cost.bound, cost.actual),
            (ticks, units, units)
        );
    }
    Ok(())
}

#[test]
fn a_profile_has_one_fault(rt: HostRuntime) -> Result<(), Fail> {
    let table: [(&[(&str, &str)], Option<DeviceFault>); 22] = [
        (&[("fill = \"00\"", "fill = \"fFa0\"")], None),
        (&[("cap = 100", "\"cap\" = 0x64")], None),
        (&[("cap = 100", "cap = ")], Some(DeviceFault::DeviceSyntax)),
        (
            &[("cap = 100", "cap = 0100")],
            Some(DeviceFault::DeviceSyntax),
        ),
        (
            &[("cap = 100", "cap = 9223372036854775808")],
            Some(DeviceFault::DeviceSyntax),
        ),
        (
            &[("\np = 10\n", "\np = 10\np = 10\n")],
            Some(DeviceFault::DeviceSyntax),
        ),
        (
            &[("cap = 100\n", "")],
            Some(DeviceFault::DeviceKey(Key::Cap)),
        ),
        (
            &[("log = 100\n", ""), ("q = 3\n", "")],
            Some(DeviceFault::DeviceKey(Key::Log)),
        ),
        (
            &[("[wake]\nticks = 2\n", "[wake]\n")],
            Some(DeviceFault::DeviceKey(Key::WakeTicks)),
        ),
        (
            &[("[out]", "[[out]]")],
            Some(DeviceFault::DeviceKey(Key::OutTicks)),
        ),
        (
            &[("[memory]", "[memories]")],
            Some(DeviceFault::DeviceKey(Key::MemoryTicks)),
        ),
        (
            &[("cap = 100", "more = 1"), ("q = 3", "q = -1")],
            Some(DeviceFault::DeviceKey(Key::Cap)),
        ),
        (
            &[("q = 3", "q = -1\nmore = 1")],
            Some(DeviceFault::DeviceExtra),
        ),
        (
            &[("bound = 5", "bound = 5\nmore = 1")],
            Some(DeviceFault::DeviceExtra),
        ),
        (
            &[("[wake]", "[more]\n[wake]")],
            Some(DeviceFault::DeviceExtra),
        ),
        (
            &[("cap = 100", "cap = 0")],
            Some(DeviceFault::DeviceRange(Key::Cap)),
        ),
        (
            &[("cap = 100", "cap = 99")],
            Some(DeviceFault::DeviceRange(Key::Start)),
        ),
        (
            &[("resume = 0", "resume = 101"), ("\np = 10\n", "\np = 0\n")],
            Some(DeviceFault::DeviceRange(Key::Resume)),
        ),
        (
            &[("\np = 10\n", "\np = 1.0\n")],
            Some(DeviceFault::DeviceRange(Key::P)),
        ),
        (
            &[("fill = \"00\"", "fill = \"000\"")],
            Some(DeviceFault::DeviceRange(Key::Fill)),
        ),
        (
            &[("fill = \"00\"", "fill = 0")],
            Some(DeviceFault::DeviceRange(Key::Fill)),
        ),
        (
            &[("ticks = 2", "ticks = 1001"), ("actual = 5", "actual = -1")],
            Some(DeviceFault::DeviceRange(Key::WakeTicks)),
        ),
    ];
    for (edits, want) in table {
        assert_eq!(rt; fault_with(rt.alloc(), edits)?, want);
    }
    assert_eq!(rt;
        device(rt.alloc(), b"").err(),
        Some(DeviceFault::DeviceKey(Key::Cap))
    );
    assert_eq!(rt;
        device(rt.alloc(), b"cap = 1 # \xFF").err(),
        Some(DeviceFault::DeviceSyntax)
    );
    let long = vec![in rt.alloc(); b' '; 16_777_217]?;
    assert_eq!(rt;
        device(rt.alloc(), &long).err(),
        Some(DeviceFault::DeviceLong)
    );
    Ok(())
}

#[test]
fn names_keys(rt: HostRuntime) {
    assert_eq!(rt; Key::Cap.text(), "cap");
    assert_eq!(rt; Key::MemoryActual.text(), "memory.actual");
}
