//! The layouts of types of sheets, against texts that are known.

use crate::sheet::sheet_of;
use eds_base::{Fail, Memory};
use eds_layout::{layout_of, layout_report, print_layout};
use std::alloc::Global;

// The most octets that a text may have before less of it is made.
const MOST: usize = 67_108_864;

/// Whether the layouts of a type of a sheet have the wanted text, where they are made and then printed, and where they are
/// told line by line.
pub(crate) fn are_told(
    alloc: Global,
    text: &str,
    name: &str,
    wanted: &str,
) -> Result<bool, Memory> {
    let sheet = match sheet_of(alloc, text, name) {
        Ok(sheet) => sheet,
        Err(Fail::Named(_)) => return Ok(false),
        Err(Fail::Memory) => return Err(Memory),
    };
    let Some(id) = sheet.asked_type else {
        return Ok(false);
    };
    let layout = layout_of(alloc, &sheet.table, id)?;
    let printed = print_layout(alloc, &sheet.table, &layout)?;
    let reported = layout_report(alloc, &sheet.table, id, MOST)?;
    let wanted = wanted.as_bytes();
    Ok(printed.as_slice() == wanted && reported.as_slice() == wanted)
}
