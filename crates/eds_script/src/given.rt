//! What is given behind a member's name: JSON, or hex.

ghost use Rattle.std.specs.Prelude.{◌≡◌, ◌<◌, ◌≤◌, ◌∷◌, [], IfOk, IfSome, length, map};
ghost use Rattle.eds_base.specs.Answering.{Answers, or_stop};
ghost use Rattle.eds_types.specs.PackedSizes.{packs as packs_as};
ghost use Rattle.eds_types.specs.Plain.{plain};
ghost use Rattle.eds_script.specs.Given.{all_pack as all_packed, frame_octets as octets_in, given_arguments as arguments_given, given_value as value_given};
ghost use Rattle.eds_script.specs.Known.{AreFieldsKnown};
ghost use Rattle.eds_script.specs.Seen.{why_in};
ghost use Rattle.eds_script.specs.declared.why.LineWhy.TheVariants.{Hex};

use crate::LineWhy;
use eds_base::{Fail, Memory, Octets, Text, TypeId};
use eds_pack::conforms;
use eds_plan::{FieldList, Values};
use eds_types::packs::packed_sizes;
use eds_types::{TypeTable, Value};
use eds_value::{ValueFail, args_from_json, from_json};
use std::alloc::Global;

/// A frame has no more octets.
const FRAME_OCTETS: usize = 65_536;

/// The octets of pairs of hex digits in either case. None exactly where the text is no such pairs, or has more than 65,536 octets.
#[tactic(auto, unfolding(crate::specs::Given::frame_octets))]
pub fn frame_octets(alloc: Global, hex: &[u8]) -> Result<Option<Octets>, Memory>
    ensures octets { IfOk result (λ o. o ≡ octets_in hex.now) }
    ensures few { IfOk result (λ o. IfSome o (λ os. length os ≤ 65536)) }
{
    match hex::decode(alloc, hex) {
        Ok(octets) => {
            if octets.len() <= FRAME_OCTETS {
                Ok(Some(Octets::from_vec(octets)))
            } else {
                Ok(None)
            }
        }
        Err(hex::FromHexError::OutOfMemory) => Err(Memory),
        Err(_) => Ok(None),
    }
}

/// The octets of a frame that a line gives in hex.
pub(crate) fn given_frame(alloc: Global, hex: &str) -> Result<Octets, Fail<LineWhy>>
    ensures { Answers (λ o. o) result (or_stop Hex (octets_in hex.now)) }
{
    match frame_octets(alloc, hex.as_bytes())? {
        Some(octets) => Ok(octets),
        None => Err(Fail::Named(LineWhy::Hex)),
    }
}

// What is wrong with JSON.
fn why_of(fail: Fail<ValueFail>) -> Fail<LineWhy>
    ensures { result ≡ why_in fail }
{
    match fail {
        Fail::Named(ValueFail::NotJson) => Fail::Named(LineWhy::Json),
        Fail::Named(ValueFail::WrongShape(_)) => Fail::Named(LineWhy::Shape),
        Fail::Memory => Fail::Memory,
    }
}

/// Whether a value packs as a type.
pub fn packs(table: &TypeTable, id: TypeId, value: &Value) -> bool
    requires known { id.0 < length table.now }
    ensures { result ≡ packs_as table.now id.0 (plain value.now) }
{
    table.keeps_rules();
    packed_sizes();
    conforms(table, id, value)
}

// Whether there is a value for each field, which packs as its type.
fn all_pack(table: &TypeTable, fields: &[(Text, TypeId)], values: &eds_types::Values) -> bool
    requires known { AreFieldsKnown table.now fields.now }
    ensures { result ≡ all_packed table.now fields.now values.now }
{
    let mut place: usize = 0;
    let mut rest = fields;
    while let [(_, id), after @ ..] = rest {
        let Some(value) = values.get(place) else {
            return false;
        };
        if !packs(table, *id, value) {
            return false;
        }
        place += 1;
        rest = after;
    }
    place == values.len()
}

// The same values, as those of a primitive.
fn copied(alloc: Global, values: &eds_types::Values) -> Result<Values, Memory>
    ensures { IfOk result (λ vs. map plain vs ≡ values.now) }
{
    let mut list = Values::new(alloc);
    for i in 0..values.len() {
        if let Some(value) = values.get(i) {
            let copy = value.copy(alloc)?;
            list.push(copy)?;
        }
    }
    Ok(list)
}

/// The values of a JSON object of arguments, which pack as their types.
#[tactic(auto, unfolding(crate::specs::Given::given_arguments))]
pub(crate) fn given_arguments(
    alloc: Global,
    table: &TypeTable,
    fields: &FieldList,
    json: &str,
) -> Result<Values, Fail<LineWhy>>
    requires known { AreFieldsKnown table.now fields.now }
    ensures { Answers (map plain) result (arguments_given table.now fields.now json.now) }
{
    let values = args_from_json(alloc, table, fields, json.as_bytes()).map_err(why_of)?;
    if all_pack(table, fields.as_slice(), &values) {
        Ok(copied(alloc, &values)?)
    } else {
        Err(Fail::Named(LineWhy::Value))
    }
}

// One value as a list.
fn only_value(alloc: Global, value: Value) -> Result<Values, Memory>
    ensures { IfOk result (λ vs. map plain vs ≡ plain value ∷ []) }
{
    let mut list = Values::new(alloc);
    list.push(value)?;
    Ok(list)
}

/// The one value of a JSON text, which packs as its type.
#[tactic(auto, unfolding(crate::specs::Given::given_value))]
pub(crate) fn given_value(
    alloc: Global,
    table: &TypeTable,
    id: TypeId,
    json: &str,
) -> Result<Values, Fail<LineWhy>>
    requires known { id.0 < length table.now }
    ensures { Answers (map plain) result (value_given table.now id.0 json.now) }
{
    let value = from_json(alloc, table, id, json.as_bytes()).map_err(why_of)?;
    if packs(table, id, &value) {
        Ok(only_value(alloc, value)?)
    } else {
        Err(Fail::Named(LineWhy::Value))
    }
}
