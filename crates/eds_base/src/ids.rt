//! Positions in a sheet.

/// A type, by its position among all declared types, in the order of files and elements.
#[derive(Clone, Copy, PartialEq, Eq, PartialOrd, Ord)]
pub struct TypeId(pub u32);

/// An interface, by its position among all declared interfaces.
#[derive(Clone, Copy, PartialEq, Eq, PartialOrd, Ord)]
pub struct FaceId(pub u32);

/// A component, by its position among all components.
#[derive(Clone, Copy, PartialEq, Eq, PartialOrd, Ord)]
pub struct CompId(pub u32);

/// An element: its file's position among the words of the command, and its number in document order,
/// both from 0.
#[derive(Clone, Copy, PartialEq, Eq)]
pub struct Place {
    pub file: u16,
    pub node: u32,
}
