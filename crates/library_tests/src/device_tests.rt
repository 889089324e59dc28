//! Readers and writers that fail in mid-stream.
use arena::Mode;
use report::{ReportFault, read_record};
use script::{ScriptCause, ScriptFault, read_script};
use std::io::{Read, Write};
use std::test::Fail;
use texts::{FailAt, Metered};

/// A row is written before a failed read after it.
#[test]
fn a_bad_row_of_a_script_is_told_before_a_failed_read(rt: HostRuntime) {
    let text = b"limits,1,1,1,1\n9,llx,1,,\n0,llx,1,,\n".as_slice();
    let bad = ScriptFault::Bad {
        row: 2,
        cause: ScriptCause::Client,
    };
    for left in 0..=text.len() {
        let mut from = Metered::new(FailAt::new(text, left));
        let got = read_script(rt.alloc(), Mode::Records, &mut from).err();
        let fault = if left < 25 { ScriptFault::Read } else { bad };
        assert_eq!(rt; got, Some(fault), "after {left} bytes");
    }
}

#[test]
fn a_bad_row_of_a_report_is_told_before_a_failed_read(rt: HostRuntime) {
    let first = "report,3,records,,,,\n";
    let text = b"report,3,records,,,,\nlimits,2,10,10,1,,\nend,0,0,0,,,\n".as_slice();
    let row = ReportFault::NotLawful { row: 1 };
    for left in 0..=text.len() {
        let mut from = Metered::new(FailAt::new(text, left));
        let fault = if left < first.len() {
            ReportFault::Read
        } else {
            row
        };
        assert_eq!(rt;
            read_record(rt.alloc(), &mut from).err(),
            Some(fault),
            "after {left} bytes"
        );
    }
}

#[test]
fn writes_are_cut_and_counted(rt: HostRuntime) -> Result<(), Fail> {
    let mut to = Metered::new(FailAt::new(Vec::new(rt.alloc()), 3));
    assert_eq!(rt; to.write(b"ab").ok(), Some(2));
    assert_eq!(rt; to.write(b"cd").ok(), Some(1));
    assert!(rt; to.write(b"d").is_err() && to.write(b"").is_err());
    assert!(rt; to.flush().is_ok());
    assert_eq!(rt; to.failures, 2);
    assert_eq!(rt; to.inner.inner.as_slice(), b"abc".as_slice());
    let mut full = Metered::new([0u8; 0].as_slice());
    assert_eq!(rt; full.read(&mut [0; 4]).ok(), Some(0));
    assert_eq!(rt; full.failures, 0);
    Ok(())
}
