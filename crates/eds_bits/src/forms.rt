//! The forms of scalars: how whole numbers, truth values and texts lie in bits, and the kinds of checks.

ghost use Rattle.std.specs.Prelude.{◌≡◌, ◌↔◌, ◌≤◌, IsSome, IfSome};
ghost use Rattle.eds_bits.specs.Encodings.{IsForm};

/// How a whole number lies in its bits.
#[derive(Clone, Copy, PartialEq, Eq)]
pub enum Encoding {
    Unsigned,
    TwosComplement,
    SignMagnitude,
    OnesComplement,
    /// Four bits for each decimal digit.
    PackedBcd,
    /// Eight bits for each decimal digit.
    Bcd,
}

/// Which octet of a number comes first: the one that counts most, or the one that counts least.
#[derive(Clone, Copy, PartialEq, Eq)]
pub enum ByteOrder {
    Big,
    Little,
}

/// The form of a whole number of 1 to 64 bits. Decimal digits fill all bits, and an order other than
/// big-endian has whole octets.
#[derive(Clone, Copy, PartialEq, Eq)]
pub struct IntForm {
    pub bits: u32,
    pub encoding: Encoding,
    pub order: ByteOrder,
    pub ghost valid: { IsForm bits encoding order },
}

/// The form of a text. A fixed text has `length` octets; another has at most `length` octets and then its
/// termination octet. Its octets are ASCII or UTF-8.
#[derive(Clone, Copy, PartialEq, Eq)]
pub struct TextForm {
    /// In octets, 1 to 65,536.
    pub length: u32,
    pub fixed: bool,
    pub ascii: bool,
    /// The termination octet, 0 to 127.
    pub stop: u8,
    pub ghost some: { 1 ≤ length },
    pub ghost few: { length ≤ 65536 },
    pub ghost plain: { stop ≤ 127 },
}

/// The form of a truth value of 1 to 64 bits. All bits zero are one of the values, and every other pattern
/// is the other.
#[derive(Clone, Copy, PartialEq, Eq)]
pub struct BoolForm {
    pub bits: u32,
    pub zero_is_false: bool,
    pub ghost some: { 1 ≤ bits },
    pub ghost few: { bits ≤ 64 },
}

/// A check over octets: their sum modulo 256, their exclusive or, or a cyclic redundancy check of 8 or of
/// 16 bits.
#[derive(Clone, Copy, PartialEq, Eq)]
pub enum CheckKind {
    Checksum,
    Longitudinal,
    Crc8,
    Crc16Ccitt,
}

impl IntForm {
    /// The form of these parts, None exactly where they do not go together.
    pub fn of(bits: u32, encoding: Encoding, order: ByteOrder) -> Option<IntForm>
        ensures valid { IsSome result ↔ IsForm bits encoding order }
        ensures bits { IfSome result (λ form. form.bits ≡ bits) }
        ensures encoding { IfSome result (λ form. form.encoding ≡ encoding) }
        ensures order { IfSome result (λ form. form.order ≡ order) }
    {
        let digit = match encoding {
            Encoding::PackedBcd => 4,
            Encoding::Bcd => 8,
            _ => 1,
        };
        let octet = match order {
            ByteOrder::Big => 1,
            ByteOrder::Little => 8,
        };
        if 1 <= bits && bits <= 64 && bits % digit == 0 && bits % octet == 0 {
            Some(IntForm {
                bits,
                encoding,
                order,
            })
        } else {
            None
        }
    }
}
