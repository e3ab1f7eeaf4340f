//! Values as JSON.

ghost use Rattle.std.specs.Prelude.{◌≡◌, ◌<◌, ◌++◌, IfOk, OnOk, [], Ok, length};
ghost use Rattle.std.specs.Str.{IsUtf8};
ghost use Rattle.eds_types.specs.Plain.{plain};
ghost use Rattle.eds_value.specs.Json.{value_in};
ghost use Rattle.eds_value.specs.Laws.{HasNoTypeEntry, IsOfType};
ghost use Rattle.eds_value.specs.JsonOfValue.{json_text};

use crate::layouts::Layouts;
use crate::line::Line;
use crate::put::put_value;
use crate::write::write_value;
use eds_base::{Memory, Octets, TypeId};
use eds_types::{TypeTable, Value};
use json::Writer;
use std::alloc::Global;

/// A writer of JSON that has written nothing yet.
pub(crate) fn writer(alloc: Global) -> Result<Writer, Memory>
    ensures before { IfOk result (λ w. w.before ≡ []) }
    ensures tokens { IfOk result (λ w. w.tokens ≡ []) }
{
    Ok(Writer::new(Vec::with_capacity(alloc, 128)?))
}

/// The JSON text of a value of a type, with its members in byte order and without spaces. Where no entry of the table is
/// named `$type`, as in every sheet, it is read as that value again.
pub fn to_json(
    alloc: Global,
    table: &TypeTable,
    id: TypeId,
    value: &Value,
) -> Result<Octets, Memory>
    requires known { id.0 < length table.now }
    requires one { IsOfType table.now id.0 (plain value.now) }
    ensures text { IfOk result (λ o. o ≡ json_text table.now (plain value.now)) }
    ensures utf8 { IfOk result IsUtf8 }
    ensures reads_back { HasNoTypeEntry table.now → IfOk result (λ o. value_in table.now id.0 o ≡ Ok (plain value.now)) }
{
    table.keeps_rules();
    let mut out = writer(alloc)?;
    write_value(alloc, value, table, &mut out)?;
    Ok(Octets::from_vec(out.into_inner()))
}

/// Puts the JSON text of a value of a type first onto a line, exactly as `to_json` gives it, by the layouts of its table. These
/// are made once, and pay where many values are written. At an error what stands first is part of the text.
pub fn put_json(
    alloc: Global,
    layouts: &Layouts<'_>,
    id: TypeId,
    value: &Value,
    line: &mut Line,
) -> Result<(), Memory>
    requires known { id.0 < length layouts.now }
    requires one { IsOfType layouts.now id.0 (plain value.now) }
    ensures { OnOk result (line.new ≡ json_text layouts.now (plain value.now) ++ line.old) }
{
    layouts.table().keeps_rules();
    put_value(alloc, layouts, value, line)
}
