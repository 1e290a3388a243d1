//! The lines that report why there is no statement (docs/FORMATS.md, Fault lines and statuses).
ghost use Rattle.statement_text.specs.FaultLines.{fault_line};
ghost use Rattle.writers.specs.Streams.{Says};
ghost use Rattle.std.specs.Io.KnownBytes.{Appends};
ghost use Rattle.std.specs.Prelude.{OnOk};

use crate::faults::SpanFault;
use std::fmt::Display;
use std::io::Write;
use std::{fmt, io};
use writers::marked_writer::MarkedWriter;

// The line of a fault.
#[derive(Clone, Copy)]
struct FaultLine<'a> {
    fault: &'a SpanFault,
}

impl<'a> Display for FaultLine<'a> {
    ghost use Rattle.statement_text.specs.FaultLines.{fault_line};
    ghost use Rattle.std.specs.Prelude.{Some};

    ghost output = { λ line. Some (fault_line line.fault.now) };

    fn fmt<W: fmt::Write>(&self, f: &mut fmt::Formatter<W>) -> fmt::Result {
        let fault = self.fault;
        if fault.is_memory() {
            writeln!(f, "memory")
        } else {
            writeln!(f, "{fault}")
        }
    }
}

/// Writes the line of a fault.
pub fn write_fault<W: Write>(fault: &SpanFault, out: &mut W) -> io::Result<()>
    ensures { OnOk result (Appends (W.contents out.old) (W.contents out.new) (fault_line fault.now)) }
{
    let line = FaultLine { fault };
    write!(out, "{line}")
}

/// Writes the line of a fault to a writer that remembers whether a write failed.
pub fn tell_fault<W: Write>(fault: &SpanFault, out: &mut MarkedWriter<W>)
    ensures { Says out.old out.new (fault_line fault.now) }
{
    let line = FaultLine { fault };
    let _ = write!(out, "{line}");
}
