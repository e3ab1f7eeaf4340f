//! Rows of small types of all kinds. Those that sheets can't have yet are tried here, by the plain program alone.

ghost use Rattle.std.specs.Prelude.{◌≤◌};

use eds_base::{Items, Memory, Spans, Text, TypeId};
use eds_bits::{BoolForm, ByteOrder, CheckKind, Encoding, IntForm, TextForm};
use eds_types::{
    Constraint, Constraints, Container, EntryPath, Kind, Listing, Part, Parts, TypeRow, TypeRows,
    Value,
};
use std::alloc::Global;

/// Rows that are pushed one after the other.
#[derive(Drop)]
struct Rows {
    alloc: Global,
    rows: TypeRows,
}

// The big-endian form of so many bits, which is asked for where there is one.
fn form_of(bits: u32, encoding: Encoding) -> Result<IntForm, Memory> {
    match IntForm::of(bits, encoding, ByteOrder::Big) {
        Some(form) => Ok(form),
        None => Err(Memory),
    }
}

impl Rows {
    fn push(&mut self, name: &str, base: Option<u32>, kind: Kind) -> Result<(), Memory> {
        self.rows.push(TypeRow {
            name: Text::of(self.alloc, name)?,
            base: base.map(|id| TypeId(id)),
            kind,
        })?;
        Ok(())
    }

    // An integer type with the numbers from one to another.
    fn push_integer(
        &mut self,
        name: &str,
        bits: u32,
        encoding: Encoding,
        low: i8,
        high: u8,
    ) -> Result<(), Memory> {
        let form = form_of(bits, encoding)?;
        let mut spans = Spans::new(self.alloc);
        let low = i128::from(low);
        let high = i128::from(high);
        if low <= high {
            spans.push(low, high)?;
        }
        self.push(name, None, Kind::Int(form, spans))
    }

    fn push_truth(&mut self, name: &str, bits: u32, zero_is_false: bool) -> Result<(), Memory>
        requires some { 1 ≤ bits }
        requires few { bits ≤ 64 }
    {
        let form = BoolForm {
            bits,
            zero_is_false,
        };
        self.push(name, None, Kind::Bool(form))
    }

    // Labels of two of the four numbers of two bits.
    fn push_labels(&mut self, name: &str) -> Result<(), Memory> {
        let form = form_of(2, Encoding::Unsigned)?;
        let mut listing = Listing::new(self.alloc);
        for (label, number) in [("LOW", 0), ("HIGH", 2)] {
            let label = Text::of(self.alloc, label)?;
            listing.push((label, number))?;
        }
        self.push(name, None, Kind::Enum(form, listing))
    }

    // A text of ASCII of at most one octet.
    fn push_text(&mut self, name: &str, fixed: bool, stop: u8) -> Result<(), Memory>
        requires { stop ≤ 127 }
    {
        let form = TextForm {
            length: 1,
            fixed,
            ascii: true,
            stop,
        };
        self.push(name, None, Kind::Str(form))
    }

    fn entries(&self, ids: &[u32]) -> Result<Parts, Memory> {
        let mut parts = Parts::new(self.alloc);
        for id in ids {
            parts.push(Part::Plain(Text::new(self.alloc), TypeId(*id)))?;
        }
        Ok(parts)
    }

    // A container without constraints.
    fn push_container(
        &mut self,
        name: &str,
        hidden: bool,
        entries: Parts,
        trailers: Parts,
    ) -> Result<(), Memory> {
        let constraints = Constraints::new(self.alloc);
        self.push(
            name,
            None,
            Kind::Con(Container {
                hidden,
                constraints,
                entries,
                trailers,
            }),
        )
    }

    // A container of some entries.
    fn push_holder(&mut self, name: &str, hidden: bool, ids: &[u32]) -> Result<(), Memory> {
        let entries = self.entries(ids)?;
        self.push_container(name, hidden, entries, Parts::new(self.alloc))
    }

    // A container that derives from another one, where the number on the path is one from low to high.
    fn push_derived(
        &mut self,
        name: &str,
        path: &[(u32, u16)],
        low: u8,
        high: u8,
        ids: &[u32],
    ) -> Result<(), Memory> {
        let base = path.first().map(|step| step.0);
        let mut steps = EntryPath::new(self.alloc);
        for (id, place) in path {
            steps.push((TypeId(*id), *place))?;
        }
        let mut set = Spans::new(self.alloc);
        if low <= high {
            set.push(i128::from(low), i128::from(high))?;
        }
        let mut constraints = Constraints::new(self.alloc);
        constraints.push(Constraint {
            path: steps,
            set,
            on_kind: false,
        })?;
        let entries = self.entries(ids)?;
        self.push(
            name,
            base,
            Kind::Con(Container {
                hidden: false,
                constraints,
                entries,
                trailers: Parts::new(self.alloc),
            }),
        )
    }

    // Integers of some encodings; two truth values, labels, texts, a binary and an array.
    fn push_scalars(&mut self) -> Result<(), Memory> {
        self.push_integer("Two", 2, Encoding::Unsigned, 0, 3)?;
        self.push_integer("Sign", 3, Encoding::SignMagnitude, -3, 3)?;
        self.push_integer("Ones", 3, Encoding::OnesComplement, -3, 3)?;
        self.push_integer("Digit", 4, Encoding::PackedBcd, 0, 9)?;
        self.push_integer("Twos", 3, Encoding::TwosComplement, -2, 1)?;
        self.push_truth("True", 2, true)?;
        self.push_truth("False", 2, false)?;
        self.push_labels("Label")
    }

    fn push_strings(&mut self) -> Result<(), Memory> {
        self.push_text("Fixed", true, 0)?;
        self.push_text("Ended", false, 13)?;
        self.push("Bits", None, Kind::Bin(3, false))?;
        self.push("Array", None, Kind::Arr(TypeId(0), 2))
    }

    // A number and, behind all that derives from it, a bit of padding.
    fn push_padded(&mut self) -> Result<(), Memory> {
        let mut trailers = Parts::new(self.alloc);
        trailers.push(Part::Pad(1))?;
        let entries = self.entries(&[0])?;
        self.push_container("Family", false, entries, trailers)
    }

    // A family of three, which an entry tells apart; a container with an entry of that family, from which one derives
    // that holds the second of the three; and an abstract one, from which one derives that holds one of the first two.
    fn push_families(&mut self) -> Result<(), Memory> {
        self.push_padded()?;
        self.push_derived("Second", &[(12, 0)], 1, 1, &[5])?;
        self.push_derived("Third", &[(12, 0)], 2, 3, &[1])?;
        self.push_holder("Holder", false, &[12])?;
        self.push_derived("OfSecond", &[(15, 0)], 13, 13, &[23])?;
        self.push_holder("Hidden", true, &[12])?;
        self.push_derived("OfFirst", &[(17, 0), (12, 0)], 0, 1, &[])
    }

    // A list and its count.
    fn push_list(&mut self) -> Result<(), Memory> {
        let mut entries = self.entries(&[0])?;
        entries.push(Part::List(Text::new(self.alloc), TypeId(23), TypeId(19), 0))?;
        self.push_container("List", false, entries, Parts::new(self.alloc))
    }

    // A fixed value with two spellings, a label, and a length entry.
    fn push_sized(&mut self) -> Result<(), Memory> {
        let mut entries = Parts::new(self.alloc);
        entries.push(Part::Fixed(None, TypeId(1), Value::Num(0)))?;
        entries.push(Part::Plain(Text::new(self.alloc), TypeId(7)))?;
        entries.push(Part::Length(Text::new(self.alloc), TypeId(0), -1, 1))?;
        self.push_container("Sized", false, entries, Parts::new(self.alloc))
    }

    // A number and its check.
    fn push_checked(&mut self) -> Result<(), Memory> {
        let mut trailers = Parts::new(self.alloc);
        let name = Text::new(self.alloc);
        trailers.push(Part::Check(name, TypeId(22), CheckKind::Checksum))?;
        let entries = self.entries(&[0])?;
        self.push_container("Checked", false, entries, trailers)
    }

    // A length entry, an open binary of at most one octet, and a truth value.
    fn push_tailed(&mut self) -> Result<(), Memory> {
        self.push("Open", None, Kind::Bin(8, true))?;
        let mut entries = Parts::new(self.alloc);
        entries.push(Part::Length(Text::new(self.alloc), TypeId(0), 1, 1))?;
        entries.push(Part::Plain(Text::new(self.alloc), TypeId(24)))?;
        let trailers = self.entries(&[23])?;
        self.push_container("Tailed", false, entries, trailers)
    }
}

/// Types of all kinds that have few values.
pub(crate) fn small_rows(alloc: Global) -> Result<TypeRows, Memory> {
    let mut rows = Rows {
        alloc,
        rows: Items::new(alloc),
    };
    rows.push_scalars()?;
    rows.push_strings()?;
    rows.push_families()?;
    rows.push_list()?;
    rows.push_sized()?;
    rows.push_checked()?;
    rows.push_integer("Octet", 8, Encoding::Unsigned, 0, 255)?;
    rows.push_truth("Bit", 1, true)?;
    rows.push_tailed()?;
    Ok(rows.rows)
}
