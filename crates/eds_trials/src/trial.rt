//! One trial of a type.

use crate::agreement::{Packing, agreement};
use crate::census::{Found, census};
use crate::sheet::sheet_of;
use crate::small::small_rows;
use eds_base::{Fail, Memory, TypeId};
use eds_types::TypeRow;
use std::alloc::Global;
use std::fmt;

/// A trial, as a line says it by five words: the file of a sheet, or `small` for the rows of `small`; a type's qualified
/// name; how many bits at most are tried; how many values have spellings of so few bits; and how many lists of bits spell
/// one. A sixth word may say how many numbers the constraints and lists of the sheet ask for.
#[derive(Clone, Copy)]
struct Trial<'a> {
    name: &'a str,
    bits: usize,
    values: u32,
    spellings: u32,
    slots: Option<u32>,
}

/// What a trial comes to.
#[derive(Clone, Copy)]
pub(crate) enum Outcome {
    Passes,
    /// The line isn't a trial.
    NoTrial,
    /// The sheet is refused, or has no such type.
    Refused,
    /// Other values or spellings were found, or the plain program contradicts itself.
    Found(Found),
    /// Reader or packer and the plain program disagree.
    Disagrees(Packing, Found),
}

impl Outcome {
    pub(crate) fn passes(&self) -> bool {
        matches!(self, Outcome::Passes)
    }
}

impl fmt::Display for Outcome {
    fn fmt<W: fmt::Write>(&self, f: &mut fmt::Formatter<W>) -> fmt::Result {
        match self {
            Outcome::Passes => f.write_str("passes"),
            Outcome::NoTrial => f.write_str("no trial"),
            Outcome::Refused => f.write_str("refused"),
            Outcome::Found(found) => {
                let Found {
                    values,
                    spellings,
                    faults,
                    ..
                } = found;
                write!(f, "{values} values, {spellings} spellings, {faults} faults")
            }
            Outcome::Disagrees(agreed, found) => {
                let Packing {
                    reads,
                    packed,
                    slots,
                    faults,
                } = agreed;
                let Found { values, fronts, .. } = found;
                write!(
                    f,
                    "{reads} of {fronts} are read, {packed} of {values} are packed, {slots} slots, {faults} faults"
                )
            }
        }
    }
}

fn number(word: &str) -> Option<u32> {
    word.parse::<u32>().ok()
}

fn trial_of<'a>(alloc: Global, line: &'a str) -> Result<Option<Trial<'a>>, Memory> {
    let words: Vec<&str> = line.split(' ').collect(alloc)?;
    let [_, name, bits, values, spellings, more @ ..] = words.as_slice() else {
        return Ok(None);
    };
    let slots = match more {
        [slots] => number(slots),
        _ => None,
    };
    match (number(bits), number(values), number(spellings)) {
        (Some(bits), Some(values), Some(spellings)) => Ok(Some(Trial {
            name,
            bits: bits as usize,
            values,
            spellings,
            slots,
        })),
        _ => Ok(None),
    }
}

impl<'a> Trial<'a> {
    // What the plain program finds, where that isn't what it should find.
    fn misses(&self, found: Found) -> Option<Outcome> {
        if found.values == self.values && found.spellings == self.spellings && found.faults == 0 {
            None
        } else {
            Some(Outcome::Found(found))
        }
    }

    // The trial of a type of the small rows: the plain program alone.
    fn of_small(&self, alloc: Global) -> Result<Outcome, Memory> {
        let rows = small_rows(alloc)?;
        match id_of(rows.as_slice(), self.name) {
            Some(id) => {
                let found = census(alloc, rows.as_slice(), id, self.bits)?;
                Ok(self.misses(found).unwrap_or(Outcome::Passes))
            }
            None => Ok(Outcome::Refused),
        }
    }

    // The trial of a type of a sheet.
    fn of_sheet(&self, alloc: Global, text: &str) -> Result<Outcome, Memory> {
        let sheet = match sheet_of(alloc, text, self.name) {
            Ok(sheet) => sheet,
            Err(Fail::Named(_)) => return Ok(Outcome::Refused),
            Err(Fail::Memory) => return Err(Memory),
        };
        let Some(id) = sheet.asked_type else {
            return Ok(Outcome::Refused);
        };
        let found = census(alloc, sheet.table.rows(), id, self.bits)?;
        let agreed = agreement(alloc, &sheet.table, id, self.bits)?;
        if let Some(missed) = self.misses(found) {
            Ok(missed)
        } else if agreed.reads == found.fronts
            && agreed.packed == found.values
            && agreed.slots == self.slots.unwrap_or(agreed.slots)
            && agreed.faults == 0
        {
            Ok(Outcome::Passes)
        } else {
            Ok(Outcome::Disagrees(agreed, found))
        }
    }
}

fn id_of(rows: &[TypeRow], name: &str) -> Option<TypeId> {
    let place = rows.iter().position(|row| row.name.as_str() == name)?;
    Some(TypeId(u32::try_from(place).ok()?))
}

/// What the trial of a line comes to, with the text of its sheet where it names one.
pub(crate) fn outcome_of(
    alloc: Global,
    sheet: Option<&str>,
    line: &str,
) -> Result<Outcome, Memory> {
    let Some(trial) = trial_of(alloc, line)? else {
        return Ok(Outcome::NoTrial);
    };
    match sheet {
        Some(text) => trial.of_sheet(alloc, text),
        None => trial.of_small(alloc),
    }
}
