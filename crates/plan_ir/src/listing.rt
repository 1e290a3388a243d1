//! The text of a plan (docs/FORMATS.md, "Plan listing").
ghost use Rattle.std.specs.Prelude.{◌≡◌, ◌++◌, flat_map, decimal, IfOk, OnOk};
ghost use Rattle.plan_ir.specs.Listing.{input_text, numbered, op_text, plan_text, step_line};
ghost use Rattle.plan_ir.specs.declared.ops.Op.TheVariants.{Spread};

use crate::ops::Op;
use crate::plans::Plan;
use itoa::Buffer;
use std::alloc::{AllocError, Global};

// Appends a number in decimal.
fn push_number(out: &mut Vec<u8>, number: u64) -> Result<(), AllocError>
    ensures { OnOk result (out.new.items ≡ out.old.items ++ decimal number) }
{
    let mut buffer = Buffer::new();
    out.extend_from_slice(buffer.format(number).as_bytes())
}

// Appends a name with a number in parentheses.
fn push_numbered(out: &mut Vec<u8>, name: &[u8], number: u32) -> Result<(), AllocError>
    ensures { OnOk result (out.new.items ≡ out.old.items ++ numbered name.now number) }
{
    out.extend_from_slice(name)?;
    out.push(b'(')?;
    push_number(out, u64::from(number))?;
    out.push(b')')?;
    Ok(())
}

// Appends the spread operation of a commodity.
fn push_spread(out: &mut Vec<u8>, commodity: u32, place: u32) -> Result<(), AllocError>
    ensures { OnOk result (out.new.items ≡ out.old.items ++ op_text (Spread commodity place)) }
{
    out.extend_from_slice(b"Spread(")?;
    push_number(out, u64::from(commodity))?;
    out.push(b',')?;
    push_number(out, u64::from(place))?;
    out.push(b')')?;
    Ok(())
}

// Appends an operation with its numbers.
fn push_op(out: &mut Vec<u8>, op: &Op) -> Result<(), AllocError>
    ensures { OnOk result (out.new.items ≡ out.old.items ++ op_text op.now) }
{
    match *op {
        Op::Gather(c) => push_numbered(out, b"Gather", c),
        Op::Sums(c) => push_numbered(out, b"Sums", c),
        Op::ScanMax(c) => push_numbered(out, b"ScanMax", c),
        Op::Months(c) => push_numbered(out, b"Months", c),
        Op::TierStart(c) => push_numbered(out, b"TierStart", c),
        Op::Spread(c, j) => push_spread(out, c, j),
        Op::Delivery(c) => push_numbered(out, b"Delivery", c),
        Op::Minimum(c) => push_numbered(out, b"Minimum", c),
        Op::Final(c) => push_numbered(out, b"Final", c),
        Op::InterStart => out.extend_from_slice(b"InterStart()"),
        Op::InterLoad(c) => push_numbered(out, b"InterLoad", c),
        Op::InterSpread(j) => push_numbered(out, b"InterSpread", j),
        Op::TotalStart => out.extend_from_slice(b"TotalStart()"),
        Op::TotalAdd(c) => push_numbered(out, b"TotalAdd", c),
        Op::NetValue(c) => push_numbered(out, b"NetValue", c),
        Op::ValueStart => out.extend_from_slice(b"ValueStart()"),
        Op::ValueAdd(c) => push_numbered(out, b"ValueAdd", c),
    }
}

// Appends the inputs of a step, with a space before each.
fn push_inputs(out: &mut Vec<u8>, inputs: &[u32]) -> Result<(), AllocError>
    ensures { OnOk result (out.new.items ≡ out.old.items ++ flat_map input_text inputs.now) }
{
    for input in inputs {
        out.push(b' ')?;
        push_number(out, u64::from(*input))?;
    }
    Ok(())
}

// Appends the line of a step: its number, its operation and its inputs.
fn push_step(out: &mut Vec<u8>, number: usize, op: &Op, inputs: &[u32]) -> Result<(), AllocError>
    ensures { OnOk result (out.new.items ≡ out.old.items ++ step_line number (record { op = op.now; inputs = inputs.now })) }
{
    push_number(out, number as u64)?;
    out.push(b' ')?;
    push_op(out, op)?;
    push_inputs(out, inputs)?;
    out.push(b'\n')?;
    Ok(())
}

/// Returns the text of a plan, one line for each step: its number, its operation and the numbers of its inputs
/// (docs/FORMATS.md, "Plan listing"). `Err` is out of memory.
pub fn list(alloc: Global, plan: &Plan) -> Result<Vec<u8>, AllocError>
    ensures { IfOk result (λ text. text.items ≡ plan_text plan.now) }
{
    let mut out = Vec::new(alloc);
    for k in 0..plan.len() {
        push_step(&mut out, k, &plan.op(k), plan.inputs(k))?;
    }
    Ok(out)
}
