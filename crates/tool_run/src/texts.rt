//! The lines that the tools write.

ghost use Rattle.std.specs.Prelude.{◌≡◌, ◌++◌, ◌∷◌, [], OnOk};
ghost use Rattle.mq_bytes.specs.Decimal.{digits_of};
ghost use Rattle.tool_run.specs.Texts.{damaged_line, foreign_line, record_line, verify_text};

use mq_bytes::write_number;
use record_codec::View;
use std::alloc::AllocError;

// Appends a number and a space.
fn push_field(number: u64, out: &mut Vec<u8>) -> Result<(), AllocError>
    ensures { OnOk result (out.new.items ≡ out.old.items ++ (digits_of number ++ 32 ∷ [])) }
{
    write_number(number, out)?;
    out.push(b' ')?;
    Ok(())
}

/// Appends the line of a record.
pub(crate) fn push_record(view: &View<'_>, out: &mut Vec<u8>) -> Result<(), AllocError>
    ensures { OnOk result (out.new.items ≡ out.old.items ++ record_line view.now) }
{
    push_field(view.offset(), out)?;
    out.extend_from_slice(view.topic().as_bytes())?;
    out.push(b' ')?;
    push_field(u64::from(view.queue()), out)?;
    push_field(view.queue_offset(), out)?;
    write_number(u64::from(view.size()), out)?;
    out.push(b'\n')?;
    Ok(())
}

/// Appends the lines of a sound log: how many records it has, and the place where the last one ends; and that its tables equal it.
pub(crate) fn push_sound(records: u64, end: u64, out: &mut Vec<u8>) -> Result<(), AllocError>
    ensures { OnOk result (out.new.items ≡ out.old.items ++ verify_text records end) }
{
    out.extend_from_slice(b"records ")?;
    write_number(records, out)?;
    out.extend_from_slice(b" end ")?;
    write_number(end, out)?;
    out.push(b'\n')?;
    out.extend_from_slice(b"equal")?;
    out.push(b'\n')?;
    Ok(())
}

/// Appends the line of a damaged store.
pub(crate) fn push_damaged(place: u64, name: &str, out: &mut Vec<u8>) -> Result<(), AllocError>
    ensures { OnOk result (out.new.items ≡ out.old.items ++ damaged_line name.now place) }
{
    out.extend_from_slice(b"damaged ")?;
    out.extend_from_slice(name.as_bytes())?;
    out.push(b' ')?;
    write_number(place, out)?;
    out.push(b'\n')?;
    Ok(())
}

/// Appends the line of a store that is not this program's.
pub(crate) fn push_foreign(name: &str, out: &mut Vec<u8>) -> Result<(), AllocError>
    ensures { OnOk result (out.new.items ≡ out.old.items ++ foreign_line name.now) }
{
    out.extend_from_slice(b"foreign ")?;
    out.extend_from_slice(name.as_bytes())?;
    out.push(b'\n')?;
    Ok(())
}
