//! The encodings of whole numbers, a module each: the least and greatest number of so many bits, the pattern
//! that is written for a number, and the number of a pattern. Octets are in big-endian order here.

pub mod decimal;
pub mod ones_complement;
pub mod sign_magnitude;
pub mod twos_complement;
pub mod unsigned;
