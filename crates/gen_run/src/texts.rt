//! The lines of the generator.

ghost use Rattle.std.specs.Prelude.{◌≡◌, ◌++◌, OnOk};
ghost use Rattle.gen_run.specs.Sums.{field, queue_line, record_lines, queue_lines, half_line, delay_line};
ghost use Rattle.gen_run.specs.Sums.{pulls_in as pulls_of, pull_line, other_lines, summary_text};

use crate::summary::Summary;
use mq_bytes::write_number;
use std::alloc::AllocError;

// Appends a word, a space and a number.
fn push_field(word: &[u8], number: u64, out: &mut Vec<u8>) -> Result<(), AllocError>
    ensures { OnOk result (out.new.items ≡ out.old.items ++ field word.now number) }
{
    out.extend_from_slice(word)?;
    out.push(b' ')?;
    write_number(number, out)?;
    Ok(())
}

// Appends the line of a queue.
fn push_queue(queue: u64, count: u64, out: &mut Vec<u8>) -> Result<(), AllocError>
    ensures { OnOk result (out.new.items ≡ out.old.items ++ queue_line queue count) }
{
    push_field(b"\nqueue gen", queue, out)?;
    out.push(b' ')?;
    write_number(count, out)?;
    Ok(())
}

// Appends the lines up to those of the queues.
fn push_records(summary: &Summary, out: &mut Vec<u8>) -> Result<(), AllocError>
    ensures { OnOk result (out.new.items ≡ out.old.items ++ record_lines summary.now) }
{
    push_field(b"gen", u64::from(summary.items), out)?;
    out.push(b' ')?;
    write_number(u64::from(summary.start), out)?;
    push_field(b"\nrecords", summary.records, out)?;
    Ok(())
}

// Appends those of the queues.
fn push_queues(summary: &Summary, out: &mut Vec<u8>) -> Result<(), AllocError>
    ensures { OnOk result (out.new.items ≡ out.old.items ++ queue_lines summary.now) }
{
    push_queue(0, summary.queues[0], out)?;
    push_queue(1, summary.queues[1], out)?;
    push_queue(2, summary.queues[2], out)?;
    push_queue(3, summary.queues[3], out)?;
    Ok(())
}

// Appends the line of the half messages.
fn push_halves(summary: &Summary, out: &mut Vec<u8>) -> Result<(), AllocError>
    ensures { OnOk result (out.new.items ≡ out.old.items ++ half_line summary.now) }
{
    push_field(b"\nhalves", summary.halves, out)?;
    push_field(b" committed", summary.committed, out)?;
    push_field(b" rolledback", summary.rolled_back, out)?;
    push_field(b" open", summary.left_open, out)?;
    Ok(())
}

// How many of so many items pull.
fn pulls_in(items: u32) -> u64
    ensures { result ≡ pulls_of items }
{
    (u64::from(items) + 1) / 10
}

// Appends the line of the delayed messages.
fn push_delays(summary: &Summary, out: &mut Vec<u8>) -> Result<(), AllocError>
    ensures { OnOk result (out.new.items ≡ out.old.items ++ delay_line summary.now) }
{
    push_field(b"\ndelayed", summary.delayed, out)?;
    push_field(b" delivered", summary.delivered, out)?;
    Ok(())
}

// Appends the line of the pulls.
fn push_pulls(summary: &Summary, out: &mut Vec<u8>) -> Result<(), AllocError>
    ensures { OnOk result (out.new.items ≡ out.old.items ++ pull_line summary.now) }
{
    push_field(b"\npulls", pulls_in(summary.items), out)?;
    push_field(b" found", u64::from(summary.found), out)?;
    Ok(())
}

// Appends the lines after that of the half messages.
fn push_others(summary: &Summary, out: &mut Vec<u8>) -> Result<(), AllocError>
    ensures { OnOk result (out.new.items ≡ out.old.items ++ other_lines summary.now) }
{
    push_delays(summary, out)?;
    push_pulls(summary, out)?;
    out.extend_from_slice(b"\nreplay equal\n")?;
    Ok(())
}

/// Appends the lines of the summary.
pub(crate) fn push_summary(summary: &Summary, out: &mut Vec<u8>) -> Result<(), AllocError>
    ensures { OnOk result (out.new.items ≡ out.old.items ++ summary_text summary.now) }
{
    push_records(summary, out)?;
    push_queues(summary, out)?;
    push_halves(summary, out)?;
    push_others(summary, out)?;
    Ok(())
}
