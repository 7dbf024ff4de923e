//! What was found of a header so far.
ghost use Rattle.std.specs.Prelude.{◌≡◌, ◌++◌, IfOk, OnOk};
ghost use Rattle.sip_headers.specs.Slot as slots;

use sip_header_values::Row;
use sip_text::Series;
use std::alloc::{AllocError, Global};

/// The value of a header that may occur once, by its lines so far.
#[derive(Drop)]
pub enum Slot<T> {
    /// No line yet.
    Absent,
    /// One line.
    Once(T),
    /// Two lines or more.
    Twice,
    /// A line whose value isn't in the header's form.
    Bad,
}

/// Reads one more line of a header that may occur once.
pub fn read_once<R: Row>(
    alloc: Global,
    slot: &mut Slot<R::Value>,
    text: &[u8],
) -> Result<(), AllocError>
    ensures { OnOk result (slot.new ≡ slots.met slot.old (R.reads text.now)) }
{
    let Some(value) = R::read(alloc, text)? else {
        *slot = Slot::Bad;
        return Ok(());
    };
    match slot {
        Slot::Absent => *slot = Slot::Once(value),
        Slot::Once(_) | Slot::Twice => *slot = Slot::Twice,
        Slot::Bad => {}
    }
    Ok(())
}

/// Reads one more line of a list. None if a line isn't in the form.
pub fn read_list<T: Drop, R: Row<Value = Series<T>>>(
    alloc: Global,
    values: &mut Option<Series<T>>,
    text: &[u8],
) -> Result<(), AllocError>
    ensures { OnOk result (values.new ≡ slots.listed values.old (R.reads text.now)) }
{
    let more = R::read(alloc, text)?;
    *values = listed(values.take(), more)?;
    Ok(())
}

/// Both lists joined, or None if one of them is None.
fn listed<T: Drop>(
    before: Option<Series<T>>,
    more: Option<Series<T>>,
) -> Result<Option<Series<T>>, AllocError>
    ensures { IfOk result (λ all. all ≡ slots.listed before more) }
{
    let Some(before) = before else {
        return Ok(None);
    };
    let Some(more) = more else {
        return Ok(None);
    };
    Ok(Some(joined(before, more)?))
}

// Most lists have one line: then nothing is copied.
fn joined<T: Drop>(mut before: Series<T>, more: Series<T>) -> Result<Series<T>, AllocError>
    ensures { IfOk result (λ all. all ≡ before ++ more) }
{
    if before.is_empty() {
        return Ok(more);
    }
    before.append(more)?;
    Ok(before)
}
