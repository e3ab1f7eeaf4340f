//! Putting the JSON text of values first onto a line, by the layouts of their containers.

ghost use Rattle.std.specs.Prelude.{◌≡◌, ◌<◌, ◌++◌, All, OnOk, length, map};
ghost use Rattle.serde_json.specs.Data.{array};
ghost use Rattle.serde_json.specs.View.{items_of};
ghost use Rattle.serde_json.specs.Written.{compact_text};
ghost use Rattle.eds_types.specs.Plain.{plain, plains_of};
ghost use Rattle.eds_value.specs.Held.{AllHeld, AreHeld};
ghost use Rattle.eds_value.specs.JsonOfValue.{json_of_value as json_of, json_text};
ghost use Rattle.eds_value.specs.Layouts.{laid_text};

use crate::json_of_value::writer;
use crate::layout::Layout;
use crate::layouts::Layouts;
use crate::line::Line;
use crate::write::write_value;
use eds_base::Memory;
use eds_types::Value;
use std::alloc::Global;

// Puts the text of a value first that a writer writes, token by token.
fn put_written(
    alloc: Global,
    layouts: &Layouts<'_>,
    value: &Value,
    line: &mut Line,
) -> Result<(), Memory>
    requires { AreHeld (plain value.now) }
    ensures { OnOk result (line.new ≡ json_text layouts.now (plain value.now) ++ line.old) }
{
    let mut out = writer(alloc)?;
    write_value(alloc, value, layouts.table(), &mut out)?;
    match String::from_utf8(out.into_inner()) {
        Ok(text) => Ok(line.put_text(text.as_str())?),
        Err(_) => unreachable!(),
    }
}

#[cycle(put)]
fn put_items(
    alloc: Global,
    layouts: &Layouts<'_>,
    values: &[Value],
    line: &mut Line,
) -> Result<(), Memory>
    requires { AllHeld (plains_of (map plain values.now)) }
    ensures { OnOk result (line.new ≡ compact_text (array (items_of (map (json_of layouts.now) (map plain values.now)))) ++ line.old) }
{
    line.put_text("]")?;
    let mut at = values.len();
    while at > 0 {
        at -= 1;
        put_value(alloc, layouts, &values[at], line)?;
        line.put_comma(at > 0)?;
    }
    line.put_text("[")?;
    Ok(())
}

#[cycle(put)]
fn put_fields(
    alloc: Global,
    layouts: &Layouts<'_>,
    layout: &Layout,
    values: &[Value],
    line: &mut Line,
) -> Result<(), Memory>
    requires within { All (λ p. p.position < length values.now) layout.now.pieces.items }
    requires held { AllHeld (plains_of (map plain values.now)) }
    ensures { OnOk result (line.new ≡ laid_text (map (json_of layouts.now) (map plain values.now)) layout.now ++ line.old) }
{
    line.put_padded(&layout.end)?;
    let pieces = layout.pieces.as_slice();
    let mut at = pieces.len();
    while at > 0 {
        at -= 1;
        let piece = &pieces[at];
        put_value(alloc, layouts, &values[piece.position], line)?;
        line.put_padded(&piece.text)?;
    }
    Ok(())
}

/// Puts the JSON text of a value first.
#[cycle(put)]
pub(crate) fn put_value(
    alloc: Global,
    layouts: &Layouts<'_>,
    value: &Value,
    line: &mut Line,
) -> Result<(), Memory>
    requires { AreHeld (plain value.now) }
    ensures { OnOk result (line.new ≡ json_text layouts.now (plain value.now) ++ line.old) }
{
    match value {
        Value::Num(n) => Ok(line.put_number(*n)?),
        Value::Label(label) => line.put_quoted(alloc, label.as_str()),
        Value::Bool(truth) => Ok(line.put_truth(*truth)?),
        Value::Text(text) => line.put_quoted(alloc, text.as_str()),
        Value::Bits(_, octets) => {
            let hex = hex::encode(alloc, octets.as_slice())?;
            line.put_quoted(alloc, hex.as_str())
        }
        Value::Items(items) => put_items(alloc, layouts, items.as_slice(), line),
        Value::Fields(container, values) => match layouts.find(*container, values.len()) {
            Some(layout) => put_fields(alloc, layouts, layout, values.as_slice(), line),
            None => put_written(alloc, layouts, value, line),
        },
    }
}
