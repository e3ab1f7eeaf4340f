//! The rules that a sheet keeps.

ghost use Rattle.eds_base.specs.Rules.{rule_name, rule_number};
ghost use Rattle.std.specs.Prelude.{◌≡◌};

/// A rule of the profile. Their numbers go from 1 in this order.
#[derive(Clone, Copy, PartialEq, Eq)]
pub enum Rule {
    /// The file is no JSON text.
    NotJson,
    /// The JSON is no element tree.
    NotElement,
    /// An element stands where it may not.
    UnknownElement,
    /// The profile leaves the element or attribute out.
    Unsupported,
    /// An attribute or a child element is missing.
    MissingAttribute,
    /// An attribute's text has another form.
    BadAttribute,
    /// A name is no name.
    BadName,
    /// A stated limit is passed.
    Limit,
    /// A name is declared twice.
    Duplicate,
    /// A reference finds nothing.
    Unresolved,
    /// A reference finds an item of another kind.
    WrongKind,
    /// An integer, boolean or string form is none of the profile.
    BadEncoding,
    /// An integer type has no numbers.
    EmptyRange,
    /// An enumeration lists no values, or one twice, or one that its form lacks.
    BadEnumeration,
    /// A type is its own base.
    BaseCycle,
    /// A type contains itself.
    TypeCycle,
    /// A value of a type takes no bits.
    EmptyType,
    /// Two parts of a chain of containers have one name.
    DuplicateEntry,
    /// A list's length field is no entry before it.
    ListField,
    /// A length entry cannot tell the size.
    LengthField,
    /// A fixed value is no value of its type.
    FixedValue,
    /// An error control's type does not hold its check.
    ErrorControl,
    /// A constraint names no entry of the base.
    ConstraintTarget,
    /// A constraint's value is none of its entry.
    ConstraintValue,
    /// No number meets the constraints of an entry.
    ConstraintEmpty,
    /// Two containers cannot be told apart.
    Overlap,
    /// An interface is its own base.
    InterfaceCycle,
    /// Two members of an interface have one name.
    DuplicateMember,
    /// A generic type is not mapped.
    Unmapped,
    /// A map names a generic type that is not there.
    UnknownGeneric,
    /// A mapped type is not admitted.
    GenericBase,
    /// A variable has no initial value.
    NoDefault,
    /// A reference in a component finds nothing.
    BadReference,
    /// An operand does not fit.
    TypeMismatch,
    /// An activity calls itself.
    CallCycle,
    /// A state machine is malformed.
    BadMachine,
    /// A parameter map is malformed.
    BadMap,
    /// A timer is outside its range.
    BadTimer,
}

impl Rule {
    /// Its number in a report.
    pub fn number(self) -> u8
        ensures { result ≡ rule_number self }
    {
        match self {
            Rule::NotJson => 1,
            Rule::NotElement => 2,
            Rule::UnknownElement => 3,
            Rule::Unsupported => 4,
            Rule::MissingAttribute => 5,
            Rule::BadAttribute => 6,
            Rule::BadName => 7,
            Rule::Limit => 8,
            Rule::Duplicate => 9,
            Rule::Unresolved => 10,
            Rule::WrongKind => 11,
            Rule::BadEncoding => 12,
            Rule::EmptyRange => 13,
            Rule::BadEnumeration => 14,
            Rule::BaseCycle => 15,
            Rule::TypeCycle => 16,
            Rule::EmptyType => 17,
            Rule::DuplicateEntry => 18,
            Rule::ListField => 19,
            Rule::LengthField => 20,
            Rule::FixedValue => 21,
            Rule::ErrorControl => 22,
            Rule::ConstraintTarget => 23,
            Rule::ConstraintValue => 24,
            Rule::ConstraintEmpty => 25,
            Rule::Overlap => 26,
            Rule::InterfaceCycle => 27,
            Rule::DuplicateMember => 28,
            Rule::Unmapped => 29,
            Rule::UnknownGeneric => 30,
            Rule::GenericBase => 31,
            Rule::NoDefault => 32,
            Rule::BadReference => 33,
            Rule::TypeMismatch => 34,
            Rule::CallCycle => 35,
            Rule::BadMachine => 36,
            Rule::BadMap => 37,
            Rule::BadTimer => 38,
        }
    }

    /// Its name in a report.
    pub fn name(self) -> &'static str
        ensures { result.now ≡ rule_name self }
    {
        match self {
            Rule::NotJson => "NotJson",
            Rule::NotElement => "NotElement",
            Rule::UnknownElement => "UnknownElement",
            Rule::Unsupported => "Unsupported",
            Rule::MissingAttribute => "MissingAttribute",
            Rule::BadAttribute => "BadAttribute",
            Rule::BadName => "BadName",
            Rule::Limit => "Limit",
            Rule::Duplicate => "Duplicate",
            Rule::Unresolved => "Unresolved",
            Rule::WrongKind => "WrongKind",
            Rule::BadEncoding => "BadEncoding",
            Rule::EmptyRange => "EmptyRange",
            Rule::BadEnumeration => "BadEnumeration",
            Rule::BaseCycle => "BaseCycle",
            Rule::TypeCycle => "TypeCycle",
            Rule::EmptyType => "EmptyType",
            Rule::DuplicateEntry => "DuplicateEntry",
            Rule::ListField => "ListField",
            Rule::LengthField => "LengthField",
            Rule::FixedValue => "FixedValue",
            Rule::ErrorControl => "ErrorControl",
            Rule::ConstraintTarget => "ConstraintTarget",
            Rule::ConstraintValue => "ConstraintValue",
            Rule::ConstraintEmpty => "ConstraintEmpty",
            Rule::Overlap => "Overlap",
            Rule::InterfaceCycle => "InterfaceCycle",
            Rule::DuplicateMember => "DuplicateMember",
            Rule::Unmapped => "Unmapped",
            Rule::UnknownGeneric => "UnknownGeneric",
            Rule::GenericBase => "GenericBase",
            Rule::NoDefault => "NoDefault",
            Rule::BadReference => "BadReference",
            Rule::TypeMismatch => "TypeMismatch",
            Rule::CallCycle => "CallCycle",
            Rule::BadMachine => "BadMachine",
            Rule::BadMap => "BadMap",
            Rule::BadTimer => "BadTimer",
        }
    }
}
