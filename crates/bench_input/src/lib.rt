//! The input of the benchmark: the texts that a user's files would hold, made from its size.
#![tactic(auto)]

ghost use Rattle.std.specs.Prelude.{◌≡◌, ◌<◌, ◌^◌, ◌++◌, decimal, IfOk, OnOk};
ghost use Rattle.bench_input.specs.Input.{source_text, profile_text, trace_round, trace_text, arrivals_round, arrivals_text, failures_round, failures_text};

use cn_base::NoMemory;
use itoa::Buffer;
use std::alloc::Global;

const SOURCE: &str = "int n = 0; int acc = 0; int k = 0; int a[4];\n\
    task blur { n = 0; acc = 0; while n < 4 { acc = acc + a[n]; n = n + 1; } out 2, acc / 4; }\n\
    event sample every 200 offset 0 deadline 100\n  \
      { a[k] = payload; k = k + 1; out 3, payload; post blur; }\n  \
      else { a[k] = payload; k = k + 1; post blur; }\n\
    event tap spacing 300 deadline 150 { out 1, payload; }\n\
    degrade sample;\n";

const PROFILE: &str =
    "cap = 200\nstart = 200\nresume = 80\nlog = 100000\np = 100\nq = 20\nfill = \"00\"\n\
    basic = { ticks = 1, bound = 1, actual = 1 }\n\
    memory = { ticks = 1, bound = 2, actual = 2 }\n\
    out = { ticks = 1, bound = 4, actual = 4 }\n\
    write = { ticks = 1, bound = 3, actual = 3 }\n\
    wake = { ticks = 2, bound = 5, actual = 5 }\n";

/// The ticks of a round.
const ROUND: u64 = 600;

/// The source.
#[tactic(auto, unfolding(crate::specs::Input::source_text))]
pub fn source() -> &'static str
    ensures { result.now ≡ source_text }
{
    SOURCE
}

/// The device's profile.
#[tactic(auto, unfolding(crate::specs::Input::profile_text))]
pub fn profile() -> &'static str
    ensures { result.now ≡ profile_text }
{
    PROFILE
}

fn add(text: &mut Vec<u8>, bytes: &[u8]) -> Result<(), NoMemory>
    ensures { OnOk result (text.new.items ≡ text.old.items ++ bytes.now) }
{
    text.extend_from_slice(bytes)?;
    Ok(())
}

fn add_number(text: &mut Vec<u8>, number: u64) -> Result<(), NoMemory>
    ensures { OnOk result (text.new.items ≡ text.old.items ++ decimal number) }
{
    let mut buffer = Buffer::new();
    add(text, buffer.format(number).as_bytes())
}

fn add_trace_round(text: &mut Vec<u8>, round: u64) -> Result<(), NoMemory>
    requires { round < 2 ^ 32 }
    ensures { OnOk result (text.new.items ≡ text.old.items ++ trace_round round) }
{
    add(text, b"300,1,0,")?;
    add_number(text, 40 + round % 10)?;
    add(
        text,
        b"\n80,0,0,12\n20,1,0,12\n80,0,0,12\n20,1,0,12\n80,0,0,12\n20,1,0,12\n",
    )
}

fn add_arrivals_round(text: &mut Vec<u8>, round: u64) -> Result<(), NoMemory>
    requires { round < 2 ^ 32 }
    ensures { OnOk result (text.new.items ≡ text.old.items ++ arrivals_round round) }
{
    let begin = ROUND * round;
    add_number(text, begin + 130)?;
    add(text, b",tap,9\n")?;
    add_number(text, begin + 450)?;
    add(text, b",tap,8\n")
}

fn add_failures_round(text: &mut Vec<u8>, round: u64) -> Result<(), NoMemory>
    requires { round < 2 ^ 32 }
    ensures { OnOk result (text.new.items ≡ text.old.items ++ failures_round round) }
{
    let begin = ROUND * round;
    add_number(text, begin + 50)?;
    add(text, b",00\n")?;
    add_number(text, begin + 137)?;
    add(text, b",FF\n")?;
    add_number(text, begin + 350)?;
    add(text, b",00\n")
}

/// The trace of rounds 0 to `size`.
#[tactic(auto, unfolding(crate::specs::Input::trace_text))]
pub fn trace(alloc: Global, size: u32) -> Result<Vec<u8>, NoMemory>
    ensures { IfOk result (λ text. text.items ≡ trace_text size) }
{
    let mut text = Vec::from_slice(alloc, b"ticks,harvest,extra,sample\n")?;
    for round in 0..u64::from(size) + 1 {
        add_trace_round(&mut text, round)?;
    }
    Ok(text)
}

/// The arrivals of rounds 0 to `size`.
#[tactic(auto, unfolding(crate::specs::Input::arrivals_text))]
pub fn arrivals(alloc: Global, size: u32) -> Result<Vec<u8>, NoMemory>
    ensures { IfOk result (λ text. text.items ≡ arrivals_text size) }
{
    let mut text = Vec::from_slice(alloc, b"tick,event,payload\n")?;
    for round in 0..u64::from(size) + 1 {
        add_arrivals_round(&mut text, round)?;
    }
    Ok(text)
}

/// The failures of rounds 0 to `size`.
#[tactic(auto, unfolding(crate::specs::Input::failures_text))]
pub fn failures(alloc: Global, size: u32) -> Result<Vec<u8>, NoMemory>
    ensures { IfOk result (λ text. text.items ≡ failures_text size) }
{
    let mut text = Vec::from_slice(alloc, b"tick,fill\n")?;
    for round in 0..u64::from(size) + 1 {
        add_failures_round(&mut text, round)?;
    }
    Ok(text)
}
