//! What the profile says of one element.

/// The form of an attribute's text.
#[derive(Clone, Copy)]
pub enum Form {
    /// A letter or `_`, and then letters, digits, `_` and `-`.
    Name,
    /// Names joined by `/`, as a package is called.
    PackageName,
    /// Names joined by `/`.
    Reference,
    /// Names joined by `.`.
    Path,
    /// A whole number.
    Whole,
    /// A whole number not below this one.
    AtLeast(u32),
    /// A whole number from the first of these to the second.
    Between(u32, u32),
    /// `true`, `false`, `1` or `0`.
    Flag,
    /// One of these words.
    Word(&'static [&'static str]),
    /// Any text.
    Text,
}

/// An attribute and the form of its text.
#[derive(Clone, Copy)]
pub struct Attribute {
    pub name: &'static str,
    pub form: Form,
}

/// How many children of a name or group there may be.
#[derive(Clone, Copy, PartialEq, Eq)]
pub enum Mark {
    /// Any number, also none.
    Any,
    /// One or none.
    AtMostOne,
    /// Exactly one.
    One,
    /// One or more.
    AtLeastOne,
    /// Exactly two.
    Two,
}

/// A child by its name, or the members of a group by the group's name.
#[derive(Clone, Copy)]
pub struct Child {
    pub name: &'static str,
    pub mark: Mark,
}

/// What an element has under the parents named, or under any where none is named.
#[derive(Clone, Copy)]
pub struct Shape {
    pub parents: &'static [&'static str],
    pub required: &'static [Attribute],
    pub optional: &'static [Attribute],
    pub children: &'static [Child],
}

/// An element's name and its shapes.
#[derive(Clone, Copy)]
pub struct Row {
    pub name: &'static str,
    pub shapes: &'static [Shape],
}
