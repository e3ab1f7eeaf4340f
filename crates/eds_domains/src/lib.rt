//! The ranges of numbers, and the domains that these leave of forms and bases (CCSDS 876.0-B, ranges of integer types and
//! sub-ranges).
#![tactic(auto)]

mod domain;
mod range;

pub use domain::{BOTTOM, TOP, domain_of, interval, is_empty_domain, narrowed, rises};
pub use range::{End, NO_RANGE, Range};
