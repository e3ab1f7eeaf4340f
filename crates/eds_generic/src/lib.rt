//! Interfaces and generic types (CCSDS 876.0-B, declared interfaces): the members that an interface has under a map of its generic
//! names, and the rules that they keep.
#![tactic(auto)]

mod cycle;
mod elements;
mod every;
mod face;
mod found;
mod gather;
pub mod law;
mod members;
mod name_rule;
mod pair;
mod read;
mod resolving;
mod rules;
mod sheet;
mod used;

pub use elements::{
    face_found, held_among, held_by, held_in_sets, own_name, place, read_only, text_of, type_found,
};
pub use face::{Base, Face, Faces, Generic, Mapped, OwnArgument, OwnMember, Source};
pub use read::read_faces;
pub use resolving::resolve_face;
pub use sheet::{bases_of, resolve};
pub use used::{FaceUse, instance, judge_uses};
