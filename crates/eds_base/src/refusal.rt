//! Where and why a sheet is refused.

ghost use Rattle.eds_base.specs.Refusals.{comes_before, first_of, is_type_limit, keeps, phase_by, phase_of};
ghost use Rattle.std.specs.Prelude.{◌≡◌, ◌↔◌, IsNone};

use crate::{Boxed, Items, Place, Rule, Text};

/// A number that an entry may have in both of two containers.
#[derive(Drop)]
pub struct CommonNumber {
    pub path: Text,
    pub number: i128,
}

/// Two containers that cannot be told apart, their nearest common ancestor, and a common number for
/// each entry that constraints of theirs name.
#[derive(Drop)]
pub struct OverlapNote {
    pub first: Text,
    pub second: Text,
    pub ancestor: Text,
    pub common: Items<CommonNumber>,
}

/// What a refusal keeps to show.
#[derive(Drop)]
pub enum Kept {
    Nothing,
    Word(Text),
    Overlap(Boxed<OverlapNote>),
}

impl Kept {
    fn keeps(&self, word: &str) -> bool
        ensures { result ≡ keeps word.now self.now }
    {
        match self {
            Kept::Nothing => false,
            Kept::Word(text) => text.as_str() == word,
            Kept::Overlap(_) => false,
        }
    }

    fn is_type_limit(&self) -> bool
        ensures { result ≡ is_type_limit self.now }
    {
        self.keeps("chain") || self.keeps("family") || self.keeps("nesting") || self.keeps("items")
    }
}

/// The rule that a sheet breaks, and the element at which it does.
#[derive(Drop)]
pub struct Refusal {
    pub rule: Rule,
    pub place: Place,
    pub kept: Kept,
}

#[tactic(auto, unfolding(crate::specs::Refusals::phase_by))]
fn phase_by(rule: Rule, kept: &Kept) -> u8
    ensures { result ≡ phase_by rule kept.now }
{
    match rule {
        Rule::NotJson => 1,
        Rule::NotElement => 1,
        Rule::UnknownElement => 2,
        Rule::Unsupported => 2,
        Rule::MissingAttribute => 2,
        Rule::BadAttribute => 2,
        Rule::BadName => 2,
        Rule::Limit => {
            if kept.is_type_limit() {
                4
            } else if kept.keeps("members") {
                8
            } else {
                2
            }
        }
        Rule::Duplicate => 3,
        Rule::Unresolved => 3,
        Rule::WrongKind => 3,
        Rule::BadEncoding => 5,
        Rule::EmptyRange => 5,
        Rule::BadEnumeration => 5,
        Rule::BaseCycle => 4,
        Rule::TypeCycle => 4,
        Rule::EmptyType => 6,
        Rule::DuplicateEntry => 6,
        Rule::ListField => 6,
        Rule::LengthField => 6,
        Rule::FixedValue => 6,
        Rule::ErrorControl => 6,
        Rule::ConstraintTarget => 6,
        Rule::ConstraintValue => 6,
        Rule::ConstraintEmpty => 6,
        Rule::Overlap => 7,
        Rule::InterfaceCycle => 8,
        Rule::DuplicateMember => 8,
        Rule::Unmapped => 8,
        Rule::UnknownGeneric => 8,
        Rule::GenericBase => 8,
        Rule::NoDefault => 9,
        Rule::BadReference => 9,
        Rule::TypeMismatch => 9,
        Rule::CallCycle => 9,
        Rule::BadMachine => 9,
        Rule::BadMap => 9,
        Rule::BadTimer => 9,
    }
}

impl Refusal {
    fn phase(&self) -> u8
        ensures { result ≡ phase_of self.now }
    {
        phase_by(self.rule, &self.kept)
    }

    #[tactic(auto, unfolding(crate::specs::Refusals::comes_before))]
    fn comes_before(&self, other: &Refusal) -> bool
        ensures { result ≡ comes_before self.now other.now }
    {
        if self.phase() != other.phase() {
            return self.phase() < other.phase();
        }
        if self.place.file != other.place.file {
            return self.place.file < other.place.file;
        }
        if self.place.node != other.place.node {
            return self.place.node < other.place.node;
        }
        self.rule.number() < other.rule.number()
    }

    /// The first of two refusals by phase, place and number: `one` where they are equal in these,
    /// and the only one where one is missing.
    pub fn first(one: Option<Refusal>, other: Option<Refusal>) -> Option<Refusal>
        ensures first { result ≡ first_of one other }
        ensures neither { IsNone result ↔ (IsNone one × IsNone other) }
    {
        match one {
            None => other,
            Some(a) => match other {
                None => Some(a),
                Some(b) => { if b.comes_before(&a) { Some(b) } else { Some(a) } }
            },
        }
    }
}
