//! The next moment of each component, with the least at hand.

ghost use Rattle.std.specs.Prelude.{◌≡◌, ◌<◌, ◌^◌, ◌++◌, ◌∷◌, ℕ, [], None, Some, length, slice_get, slice_set, OnOk, IfSome, IsTrue};
ghost use Rattle.eds_host.specs.Mirrors.{first_in};
ghost use Rattle.eds_host.specs.Mirrors.{when_cmp, machine_of, Mirrors};

use crate::due::{Due, When};
use eds_base::Memory;
use std::alloc::Global;
use std::collections::BTreeMap;
use std::marker::Model;

/// The next moment of each component, where it has one, with its first machine.
#[derive(Drop)]
pub(crate) struct Dues {
    of: Vec<Option<(u64, u16)>>,
    order: BTreeMap<When, u16>,
}

impl Model for Dues {
    ghost use Rattle.std.specs.Prelude.{ℕ, List, Option};
    ghost use Rattle.eds_host.specs.Mirrors.{Mirrors};

    ghost Value = { List (Option (ℕ × ℕ)) };

    ghost view = { λ d. d.of.items };

    ghost invariant = { λ d. Mirrors d.order d.of.items };
}

// The component has no moment any more.
fn take_out(
    of: &mut Vec<Option<(u64, u16)>>,
    order: &mut BTreeMap<When, u16>,
    comp: u32,
    moment: u64,
)
    requires here { (n : ℕ) × (slice_get of.old.items comp ≡ Some (Some (moment, n))) }
    requires mirrors { Mirrors order.old of.old.items }
    ensures mirrors { Mirrors order.new of.new.items }
    ensures ok { of.new.items ≡ slice_set of.old.items comp None }
{
    order.remove(&When { moment, comp });
    of[comp as usize] = None;
}

// The component has this moment.
fn put_in(
    of: &mut Vec<Option<(u64, u16)>>,
    order: &mut BTreeMap<When, u16>,
    comp: u32,
    moment: u64,
    machine: u16,
) -> Result<(), Memory>
    requires here { slice_get of.old.items comp ≡ Some None }
    requires mirrors { Mirrors order.old of.old.items }
    ensures mirrors { Mirrors order.new of.new.items }
    ensures ok { OnOk result (of.new.items ≡ slice_set of.old.items comp (Some (moment, machine))) }
{
    order.insert(When { moment, comp }, machine)?;
    of[comp as usize] = Some((moment, machine));
    Ok(())
}

// The component has none.
#[tactic(auto, using(crate::proofs::Mirrored::mirrors_set))]
fn clear(of: &mut Vec<Option<(u64, u16)>>, order: &mut BTreeMap<When, u16>, comp: u32)
    requires here { comp < length of.old.items }
    requires mirrors { Mirrors order.old of.old.items }
    ensures mirrors { Mirrors order.new of.new.items }
    ensures ok { of.new.items ≡ slice_set of.old.items comp None }
{
    if let Some((moment, _)) = of[comp as usize] {
        take_out(of, order, comp, moment);
    }
}

// Whether the component has this moment, or none where it is none.
fn is_due(of: &Vec<Option<(u64, u16)>>, comp: u32, due: Option<(u64, u16)>) -> bool
    requires { comp < length of.now.items }
    ensures { IsTrue result → slice_get of.now.items comp ≡ Some due }
{
    match (of[comp as usize], due) {
        (None, None) => true,
        (Some(old), Some(new)) => old.0 == new.0 && old.1 == new.1,
        _ => false,
    }
}

// The moment of the component is set; where it is what it was, nothing is to be done.
#[tactic(auto, using(crate::proofs::Mirrored::set_twice, crate::proofs::Mirrored::set_same))]
fn set_due(
    of: &mut Vec<Option<(u64, u16)>>,
    order: &mut BTreeMap<When, u16>,
    comp: u32,
    due: Option<(u64, u16)>,
) -> Result<(), Memory>
    requires here { comp < length of.old.items }
    requires mirrors { Mirrors order.old of.old.items }
    ensures mirrors { Mirrors order.new of.new.items }
    ensures ok { OnOk result (of.new.items ≡ slice_set of.old.items comp due) }
{
    if is_due(&*of, comp, due) {
        return Ok(());
    }
    clear(of, order, comp);
    match due {
        None => Ok(()),
        Some((moment, machine)) => put_in(of, order, comp, moment, machine),
    }
}

// One more component, which has no moment yet.
#[tactic(auto, using(crate::proofs::Mirrored::mirrors_none))]
fn push_none(of: &mut Vec<Option<(u64, u16)>>, order: &BTreeMap<When, u16>) -> Result<(), Memory>
    requires { Mirrors order.now of.old.items }
    ensures mirrors { Mirrors order.now of.new.items }
    ensures ok { OnOk result (of.new.items ≡ of.old.items ++ None ∷ []) }
{
    of.push(None)?;
    Ok(())
}

fn first_due(of: &Vec<Option<(u64, u16)>>, order: &BTreeMap<When, u16>) -> Option<Due>
    requires { Mirrors order.now of.now.items }
    ensures { result ≡ first_in 0 of.now.items }
{
    let (when, machine) = order.first_key_value()?;
    Some(Due {
        moment: when.moment,
        comp: when.comp,
        machine: *machine,
    })
}

impl Dues {
    /// No components.
    pub(crate) fn new(alloc: Global) -> Dues
        ensures { result ≡ [] }
    {
        Dues {
            of: Vec::new(alloc),
            order: BTreeMap::new(alloc),
        }
    }

    /// One more component, which has no moment yet.
    pub(crate) fn push(&mut self) -> Result<(), Memory>
        ensures { OnOk result (self.new ≡ self.old ++ None ∷ []) }
    {
        push_none(&mut self.of, &self.order)
    }

    /// Sets the next moment of a component.
    pub(crate) fn set(&mut self, comp: u32, due: Option<(u64, u16)>) -> Result<(), Memory>
        requires { comp < length self.old }
        ensures { OnOk result (self.new ≡ slice_set self.old comp due) }
    {
        set_due(&mut self.of, &mut self.order, comp, due)
    }

    /// The least moment, of the first component that has it.
    pub(crate) fn first(&self) -> Option<Due>
        ensures { result ≡ first_in 0 self.now }
    {
        first_due(&self.of, &self.order)
    }
}
