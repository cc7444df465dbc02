use catnap_top::{Status, catnap};
use cn_base::{File, MemInputs, MemSink, SilentInputs};
use std::alloc::Global;
use std::test::Fail;

const S1: &str = "int x = 0; task t { x = x + 1; out 1, x; } start t;";

fn words(alloc: Global, command: &str, file: &str, steps: &str) -> Result<Vec<String>, Fail> {
    Ok(vec![in alloc;
        String::from_str(alloc, command)?,
        String::from_str(alloc, file)?,
        String::from_str(alloc, steps)?,
    ]?)
}

fn files(alloc: Global, source: &[u8]) -> Result<Vec<File>, Fail> {
    let name = String::from_str(alloc, "s1")?;
    let bytes = source.to_vec(alloc)?;
    Ok(vec![in alloc; File { name, bytes }]?)
}

/// The status and the text of words over one file, in a sink of so much room.
#[derive(Drop)]
struct Got {
    status: Status,
    sink: MemSink,
}

fn get(alloc: Global, words: &[String], source: &[u8], room: u32) -> Result<Got, Fail> {
    let mut inputs = MemInputs::new(files(alloc, source)?, Vec::new(alloc));
    let mut sink = MemSink::new(alloc, room, 7)?;
    let status = catnap(alloc, words, &mut inputs, &mut sink);
    Ok(Got { status, sink })
}

#[test]
fn refuses_words_reads_and_writes(rt: HostRuntime) -> Result<(), Fail> {
    let frob = vec![in rt.alloc(); String::from_str(rt.alloc(), "frob")?]?;
    let got = get(rt.alloc(), frob.as_slice(), S1.as_bytes(), 100)?;
    assert_eq!(rt; got.status.number(), 2);
    assert_eq!(rt; got.sink.bytes(), b"fault usage\n".as_slice());
    let nofile = words(rt.alloc(), "run", "nofile", "1")?;
    let got = get(rt.alloc(), nofile.as_slice(), S1.as_bytes(), 100)?;
    assert_eq!(rt; got.status.number(), 3);
    assert_eq!(rt; got.sink.bytes(), b"fault read 1\n".as_slice());
    let run = words(rt.alloc(), "run", "s1", "10")?;
    let got = get(rt.alloc(), run.as_slice(), S1.as_bytes(), 10)?;
    assert_eq!(rt; got.status.number(), 4);
    assert_eq!(rt; got.sink.bytes(), b"out 1 1\nst".as_slice());
    Ok(())
}

#[test]
fn runs_in_silence(rt: HostRuntime) -> Result<(), Fail> {
    let words = words(rt.alloc(), "run", "s1", "0")?;
    let mut inputs = SilentInputs::new(files(rt.alloc(), S1.as_bytes())?);
    let mut sink = MemSink::new(rt.alloc(), 100, 100)?;
    let status = catnap(rt.alloc(), words.as_slice(), &mut inputs, &mut sink);
    assert_eq!(rt; status.number(), 0);
    assert_eq!(rt; sink.bytes(), b"steps 0\n".as_slice());
    Ok(())
}
