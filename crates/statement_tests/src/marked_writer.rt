//! Writers that fail. No contract states when a write fails.
use std::fmt;
use std::fmt::{Display, Formatter};
use std::io::Write;
use std::test::Fail;
use writers::marked_writer::MarkedWriter;

// A text that cannot be formatted.
#[derive(Drop)]
struct Unsayable;

impl Display for Unsayable {
    fn fmt<W: fmt::Write>(&self, _f: &mut Formatter<W>) -> fmt::Result {
        Err(fmt::Error)
    }
}

#[test]
fn writes_where_nothing_fails(rt: HostRuntime) -> Result<(), Fail> {
    let mut told = MarkedWriter::new(Vec::new(rt.alloc()));
    told.write_all(b"one,")?;
    told.write_fmt("two\n")?;
    assert!(rt; !told.failed());
    assert_eq!(rt; told.into_inner().as_slice(), b"one,two\n".as_slice());
    Ok(())
}

#[test]
fn remembers_a_failed_write(rt: HostRuntime) -> Result<(), Fail> {
    let mut room = [0; 5];
    let mut told = MarkedWriter::new(&mut room[..]);
    assert!(rt; told.write_all(b"1234").is_ok() && !told.failed());
    assert!(rt; told.write_all(b"56").is_err() && told.failed());
    // A write of no bytes succeeds, and does not clear the error flag.
    assert!(rt; told.write_all(b"").is_ok() && told.failed());
    assert!(rt; writeln!(told, "7").is_err() && told.failed());
    Ok(())
}

#[test]
fn remembers_a_failed_text(rt: HostRuntime) -> Result<(), Fail> {
    let mut room = [0; 2];
    let mut told = MarkedWriter::new(&mut room[..]);
    assert!(rt; write!(told, "{}", 12).is_ok() && !told.failed());
    assert!(rt; write!(told, "{}", 3).is_err() && told.failed());
    let mut room = [0; 2];
    let mut told = MarkedWriter::new(&mut room[..]);
    assert!(rt; write!(told, "{}", Unsayable).is_err() && told.failed());
    Ok(())
}
