use crate::{
    File, Fill, Inputs, List, MemInputs, MemSink, Piece, SilentInputs, SilentSink, Sink, Text, put,
    put_line, put_num,
};
use std::alloc::Global;
use std::test::Fail;

fn files(alloc: Global) -> Result<Vec<File>, Fail> {
    Ok(vec![in alloc;
        File {
            name: String::from_str(alloc, "a")?,
            bytes: b"first".to_vec(alloc)?
        },
        File {
            name: String::from_str(alloc, "a")?,
            bytes: b"second".to_vec(alloc)?
        },
    ]?)
}

#[test]
fn reads_files_in_memory(rt: HostRuntime) -> Result<(), Fail> {
    let mut inputs = MemInputs::new(files(rt.alloc())?, vec![in rt.alloc(); 1]?);
    assert_eq!(rt;
        inputs.read(rt.alloc(), "a", 2)?.as_slice(),
        b"fir".as_slice()
    );
    assert!(rt; inputs.read(rt.alloc(), "a", 9).is_err());
    assert!(rt; inputs.read(rt.alloc(), "b", 9).is_err());
    assert_eq!(rt;
        inputs.read(rt.alloc(), "a", 9)?.as_slice(),
        b"first".as_slice()
    );
    assert_eq!(rt; inputs.faults(), 2);
    assert_eq!(rt; inputs.asked().len(), 4);
    assert!(rt; inputs.asked()[1].failed && !inputs.asked()[3].failed);
    assert_eq!(rt; inputs.asked()[2].name.as_str(), "b");
    Ok(())
}

#[test]
fn reads_in_silence(rt: HostRuntime) -> Result<(), Fail> {
    let mut inputs = SilentInputs::new(files(rt.alloc())?);
    assert_eq!(rt;
        inputs.read(rt.alloc(), "a", 9)?.as_slice(),
        b"first".as_slice()
    );
    assert_eq!(rt; inputs.read(rt.alloc(), "b", 9)?.len(), 0);
    assert_eq!(rt; inputs.faults(), 0);
    Ok(())
}

#[test]
fn writes_into_memory(rt: HostRuntime) -> Result<(), Fail> {
    let mut sink = MemSink::new(rt.alloc(), 9, 2)?;
    assert_eq!(rt; sink.write(b"abc")?, 2);
    put(&mut sink, b"cd")?;
    put_num(&mut sink, -12)?;
    assert_eq!(rt; sink.faults(), 0);
    assert!(rt; put_line(&mut sink, &[Piece::Number(3), Piece::Text(b"xyz")]).is_err());
    assert_eq!(rt; sink.bytes(), b"abcd-123x".as_slice());
    assert_eq!(rt; sink.faults(), 1);
    Ok(())
}

#[test]
fn writes_in_silence(rt: HostRuntime) -> Result<(), Fail> {
    let mut sink = SilentSink::new();
    assert_eq!(rt; sink.write(b"abc")?, 3);
    assert_eq!(rt; sink.faults(), 0);
    Ok(())
}

#[test]
fn holds_values(rt: HostRuntime) -> Result<(), Fail> {
    let mut list = List::of(vec![in rt.alloc(); 1u8, 2]?);
    assert_eq!(rt; list.len(), 2);
    list.set(1, 7);
    assert_eq!(rt; list.as_slice(), [1u8, 7].as_slice());
    assert_eq!(rt;
        Text::of(String::from_str(rt.alloc(), "ab")?).as_str(),
        "ab"
    );
    assert_eq!(rt;
        Fill::of(b"\x0a\x00").copy().bytes(),
        b"\x0a\x00".as_slice()
    );
    Ok(())
}
