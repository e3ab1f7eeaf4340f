//! Components.

ghost use Rattle.std.specs.Prelude.{◌≡◌, ◌<◌, length, Some, slice_get};

use crate::{Activity, Instance, Machine};
use eds_base::{Items, Text, TypeId};
use eds_types::Value;

/// The level of an interface (CCSDS 876.0-B, interface levels): how far it is from the bus.
#[derive(Clone, Copy, PartialEq, Eq)]
pub enum Level {
    Application,
    Functional,
    Access,
    Subnetwork,
}

/// An end of a component.
#[derive(Drop)]
pub struct EndPlan {
    pub name: Text,
    pub required: bool,
    pub level: Level,
    pub instance: Instance,
}

/// A variable of a component.
#[derive(Drop)]
pub struct VarPlan {
    pub name: Text,
    pub id: TypeId,
    pub read_only: bool,
    pub initial: Value,
}

/// A parameter that a variable answers for.
#[derive(Drop)]
pub struct MapPlan {
    pub face: u16,
    pub member: u16,
    pub variable: u16,
}

/// A component.
#[derive(Drop)]
pub struct ComponentPlan {
    pub name: Text,
    pub ends: Items<EndPlan>,
    pub variables: Items<VarPlan>,
    pub maps: Items<MapPlan>,
    pub activities: Items<Activity>,
    pub machines: Items<Machine>,
    /// The names of its transactions, each once; a transaction's number is its position.
    pub transactions: Items<Text>,
}

impl ComponentPlan {
    /// The name of the transaction with the number.
    pub fn transaction(&self, number: u32) -> &Text
        requires { number < length self.now.transactions }
        ensures { slice_get self.now.transactions number ≡ Some result.now }
    {
        &self.transactions.as_slice()[number as usize]
    }
}
