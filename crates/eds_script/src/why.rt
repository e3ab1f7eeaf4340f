//! Why a line of a script isn't one.

/// What is wrong with a line, in the order in which it is judged.
#[derive(Clone, Copy, PartialEq, Eq)]
pub enum LineWhy {
    /// The line isn't UTF-8.
    Text,
    /// The first word is unknown, or there is another number of words.
    Words,
    /// A wire line stands after another kind of line.
    Late,
    /// The number of a tick isn't 1 to 19 digits.
    Number,
    /// A tick or the whole time passes its limit.
    Time,
    /// There is no such end.
    End,
    /// The end stands in a wire line.
    Wired,
    /// The first word doesn't fit the end.
    Way,
    /// There is no such command or parameter.
    Member,
    /// A read-only parameter is set.
    ReadOnly,
    /// A frame is given for a command that doesn't carry exactly one argument.
    Args,
    /// The octets aren't pairs of hex digits, or they are more than 65,536.
    Hex,
    /// The JSON has no reading.
    Json,
    /// The JSON has the wrong shape.
    Shape,
    /// A value doesn't pack as its type.
    Value,
}

/// The first bad line of a script.
#[derive(Clone, Copy, PartialEq, Eq)]
pub struct BadLine {
    /// Its number, from 1.
    pub line: u32,
    pub why: LineWhy,
}
