//! Why a value doesn't pack.

/// Why a value doesn't pack as its type.
#[derive(Clone, Copy, PartialEq, Eq)]
pub enum PackReason {
    /// The value is of another kind, or its fields are no container's or have another number.
    WrongKind,
    /// A number outside the type's domain.
    OutOfRange,
    /// A label that the type doesn't list.
    NoLabel,
    /// A text outside the type's encoding, or one that holds its termination octet.
    BadText,
    /// A text that is too long, or another number of items, bits or octets than the type has.
    WrongSize,
    /// A list with another number of items than its length field says.
    CountWrong,
    /// A constraint that doesn't hold.
    Constraint,
    /// A container that neither is the type nor derives from it.
    NotDerived,
    /// An abstract container.
    Abstract,
    /// A container of which a derived one fits the same fields.
    NotMostDerived,
    /// No number of the length entry fits the container's size.
    LengthField,
    /// More bits than a packed value may have.
    TooLong,
    /// The room is too small.
    Room,
}

impl PackReason {
    ghost use Rattle.std.specs.Prelude.{◌≡◌};
    ghost use Rattle.eds_types.specs.Reasons.{reason_name};

    /// Its name in a report.
    pub fn name(self) -> &'static str
        ensures { result.now ≡ reason_name self }
    {
        match self {
            PackReason::WrongKind => "WrongKind",
            PackReason::OutOfRange => "OutOfRange",
            PackReason::NoLabel => "NoLabel",
            PackReason::BadText => "BadText",
            PackReason::WrongSize => "WrongSize",
            PackReason::CountWrong => "CountWrong",
            PackReason::Constraint => "Constraint",
            PackReason::NotDerived => "NotDerived",
            PackReason::Abstract => "Abstract",
            PackReason::NotMostDerived => "NotMostDerived",
            PackReason::LengthField => "LengthField",
            PackReason::TooLong => "TooLong",
            PackReason::Room => "Room",
        }
    }
}
