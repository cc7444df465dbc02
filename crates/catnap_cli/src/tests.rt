use crate::files::FileInputs;
use crate::output::StdoutSink;
use cn_base::{Inputs, Sink};
use std::fs;
use std::test::Fail;

#[test]
fn reads_files(rt: HostRuntime) -> Result<(), Fail> {
    fs::write(&rt, "catnap_cli_test_file", "first")?;
    let mut inputs = FileInputs::new(&rt);
    assert_eq!(rt;
        inputs
            .read(rt.alloc(), "catnap_cli_test_file", 9)?
            .as_slice(),
        b"first".as_slice()
    );
    assert_eq!(rt;
        inputs
            .read(rt.alloc(), "catnap_cli_test_file", 2)?
            .as_slice(),
        b"fir".as_slice()
    );
    assert_eq!(rt; inputs.faults(), 0);
    fs::remove_file(&rt, "catnap_cli_test_file")?;
    assert!(rt; inputs.read(rt.alloc(), "catnap_cli_test_file", 9).is_err());
    assert_eq!(rt; inputs.faults(), 1);
    Ok(())
}

#[test]
fn writes_to_standard_output(rt: HostRuntime) -> Result<(), Fail> {
    let mut sink = StdoutSink::new(&rt);
    assert_eq!(rt; sink.write(b"a line of a test\n")?, 17);
    assert_eq!(rt; sink.write(b"")?, 0);
    assert_eq!(rt; sink.faults(), 0);
    Ok(())
}
