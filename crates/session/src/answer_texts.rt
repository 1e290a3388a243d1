//! The line that ends the answer to a request, and the one line of a refusal.
ghost use Rattle.session.specs.Conversations.{done_line, refused_line};
ghost use Rattle.session.specs.Refusals.{refused_by};
ghost use Rattle.session.specs.Refusals as refused;
ghost use Rattle.span_money.specs.LineFields.{line};
ghost use Rattle.std.specs.Prelude.{◌≡◌, ◌++◌, OnOk};

use crate::refusals::Refusal;
use arrayvec::ArrayString;
use span_money::line_fields::push_line_of_numbers;
use span_money::texts::decimal;
use std::alloc::AllocError;
use std::fmt;
use std::fmt::Display;
use std::io::Write;

/// Appends the last line of the answer to the request with this number.
pub(crate) fn push_done(out: &mut Vec<u8>, number: u64) -> Result<(), AllocError>
    ensures { OnOk result (out.new.items ≡ out.old.items ++ line (done_line number)) }
{
    push_line_of_numbers(out, "done", &[], &[i128::from(number)])
}

// The one line of the answer to a rejected request.
#[derive(Clone, Copy)]
struct RefusedLine<'a> {
    number: u64,
    refusal: &'a Refusal<'a>,
}

impl Display for RefusedLine<'_> {
    ghost use Rattle.session.specs.Conversations.{refused_line};
    ghost use Rattle.session.specs.Refusals.{refused_by};
    ghost use Rattle.span_money.specs.LineFields.{line};
    ghost use Rattle.std.specs.Prelude.{Some};

    ghost output = { λ l. Some (line (refused_line l.number (refused_by l.refusal.now))) };

    fn fmt<W: fmt::Write>(&self, f: &mut fmt::Formatter<W>) -> fmt::Result {
        writeln!(f, "refused,{},{}", self.number, self.refusal)
    }
}

/// Appends the one line of the answer to a rejected request with this number.
pub(crate) fn push_refused(
    out: &mut Vec<u8>,
    number: u64,
    refusal: &Refusal<'_>,
) -> Result<(), AllocError>
    ensures { OnOk result (out.new.items ≡ out.old.items ++ line (refused_line number (refused_by refusal.now))) }
{
    let line = RefusedLine { number, refusal };
    write!(out, "{line}").map_err(|_| AllocError)
}

/// Returns the line of the answer to the request with this number, which is rejected because memory ran out. Allocates
/// nothing.
pub(crate) fn refused_memory(number: u64) -> ArrayString<64>
    ensures { result.bytes ≡ line (refused_line number refused.Memory) }
{
    let mut text = ArrayString::new();
    text.push_str("refused,");
    text.push_str(&decimal(i128::from(number)));
    text.push_str(",memory\n");
    text
}
