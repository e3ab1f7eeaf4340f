//! What a component has that elements name.

ghost use Rattle.std.specs.Prelude.{◌≡◌, ℕ, List, IfOk, map, option_map, slice_get};
ghost use Rattle.std.specs.Option.{option_copied};
ghost use Rattle.eds_plan.specs.declared.component.EndPlan.{EndPlan as end_type};
ghost use Rattle.eds_read_act.specs.declared.variable.VariableHead.{VariableHead as variable_type};
ghost use Rattle.eds_read_act.specs.declared.component.Head.{Head as head_type};
ghost use Rattle.eds_plan.specs.Carried.{leaving, arriving};
ghost use Rattle.eds_read_act.specs.Carrying.{end_fields, fields_at};
ghost use Rattle.eds_read_act.specs.Numbered.{item_named};

use crate::carrying::carried_at_ends;
use crate::fields::Fields;
use crate::variable::VariableHead;
use eds_base::{Items, Memory, Text};
use eds_names::NameList;
use eds_plan::{EndPlan, SharedItems};
use std::alloc::Global;

/// The name and the arguments of an activity.
#[derive(Drop)]
pub struct Head {
    pub name: Text,
    pub arguments: Fields,
}

/// What a component has that elements name: its ends, variables and activities, found by hash of their names, the names of its
/// transactions, and what the members of its ends carry.
#[derive(Drop)]
pub struct Component<'a> {
    pub ends: &'a [EndPlan],
    pub variables: &'a [VariableHead],
    pub activities: &'a [Head],
    pub transactions: NameList,
    end_names: NameList,
    variable_names: NameList,
    activity_names: NameList,
    sent: Items<SharedItems<Fields>>,
    received: Items<SharedItems<Fields>>,
    ghost ends_named: { end_names ≡ map (λ (e : end_type). e.name) ends.now },
    ghost variables_named: { variable_names ≡ map (λ (v : variable_type). v.name) variables.now },
    ghost activities_named: { activity_names ≡ map (λ (h : head_type). h.name) activities.now },
    ghost sent_at: { sent ≡ map (end_fields leaving) ends.now },
    ghost received_at: { received ≡ map (end_fields arriving) ends.now },
}

fn end_names(alloc: Global, ends: &[EndPlan]) -> Result<NameList, Memory>
    ensures { IfOk result (λ n. n ≡ map (λ (e : end_type). e.name) ends.now) }
{
    let mut names = Vec::new(alloc);
    for end in ends {
        names.push(Text::of(alloc, end.name.as_str())?)?;
    }
    NameList::of(alloc, names)
}

fn variable_names(alloc: Global, variables: &[VariableHead]) -> Result<NameList, Memory>
    ensures { IfOk result (λ n. n ≡ map (λ (v : variable_type). v.name) variables.now) }
{
    let mut names = Vec::new(alloc);
    for variable in variables {
        names.push(Text::of(alloc, variable.name.as_str())?)?;
    }
    NameList::of(alloc, names)
}

fn activity_names(alloc: Global, activities: &[Head]) -> Result<NameList, Memory>
    ensures { IfOk result (λ n. n ≡ map (λ (h : head_type). h.name) activities.now) }
{
    let mut names = Vec::new(alloc);
    for activity in activities {
        names.push(Text::of(alloc, activity.name.as_str())?)?;
    }
    NameList::of(alloc, names)
}

fn transaction_names(alloc: Global, texts: &[Text]) -> Result<NameList, Memory>
    ensures { IfOk result (λ n. n ≡ texts.now) }
{
    let mut names = Vec::new(alloc);
    for text in texts {
        names.push(Text::of(alloc, text.as_str())?)?;
    }
    NameList::of(alloc, names)
}

// The names of what a component has beside its ends.
#[derive(Drop)]
struct OwnNames {
    variables: NameList,
    activities: NameList,
    transactions: NameList,
}

fn own_names(
    alloc: Global,
    variables: &[VariableHead],
    activities: &[Head],
    transactions: &[Text],
) -> Result<OwnNames, Memory>
    ensures variables { IfOk result (λ n. n.variables ≡ map (λ (v : variable_type). v.name) variables.now) }
    ensures activities { IfOk result (λ n. n.activities ≡ map (λ (h : head_type). h.name) activities.now) }
    ensures transactions { IfOk result (λ n. n.transactions ≡ transactions.now) }
{
    let variables = variable_names(alloc, variables)?;
    let activities = activity_names(alloc, activities)?;
    let transactions = transaction_names(alloc, transactions)?;
    Ok(OwnNames {
        variables,
        activities,
        transactions,
    })
}

// The arguments that a member carries, out of those of all members of its end.
fn fields_of(fields: &SharedItems<Fields>, member: usize) -> Option<&Fields>
    ensures { option_copied result ≡ slice_get fields.now member }
{
    fields.get(member)
}

impl<'a> Component<'a> {
    /// These ends, variables and activities, and transactions of these names.
    pub fn of(
        alloc: Global,
        ends: &'a [EndPlan],
        variables: &'a [VariableHead],
        activities: &'a [Head],
        transactions: &[Text],
    ) -> Result<Component<'a>, Memory>
        ensures ends { IfOk result (λ c. c.ends.now ≡ ends.now) }
        ensures variables { IfOk result (λ c. c.variables.now ≡ variables.now) }
        ensures activities { IfOk result (λ c. c.activities.now ≡ activities.now) }
        ensures transactions { IfOk result (λ c. c.transactions ≡ transactions.now) }
    {
        let carried = carried_at_ends(alloc, ends)?;
        let end_names = end_names(alloc, ends)?;
        let own = own_names(alloc, variables, activities, transactions)?;
        Ok(Component {
            ends,
            variables,
            activities,
            transactions: own.transactions,
            end_names,
            variable_names: own.variables,
            activity_names: own.activities,
            sent: carried.sent,
            received: carried.received,
        })
    }

    /// The end of a name, with its number.
    pub(crate) fn end(&self, name: &str) -> Option<(usize, &'a EndPlan)>
        ensures { option_map (λ p. (p.0, p.1.now)) result ≡ item_named (λ (e : end_type). e.name) self.now.ends.now name.now }
    {
        let at = self.end_names.position(name)?;
        let end = self.ends.get(at)?;
        Some((at, end))
    }

    /// The variable of a name, with its number.
    pub(crate) fn variable(&self, name: &str) -> Option<(usize, &'a VariableHead)>
        ensures { option_map (λ p. (p.0, p.1.now)) result ≡ item_named (λ (v : variable_type). v.name) self.now.variables.now name.now }
    {
        let at = self.variable_names.position(name)?;
        let variable = self.variables.get(at)?;
        Some((at, variable))
    }

    /// The activity of a name, with its number.
    pub(crate) fn activity(&self, name: &str) -> Option<(usize, &'a Head)>
        ensures { option_map (λ p. (p.0, p.1.now)) result ≡ item_named (λ (h : head_type). h.name) self.now.activities.now name.now }
    {
        let at = self.activity_names.position(name)?;
        let activity = self.activities.get(at)?;
        Some((at, activity))
    }

    /// The arguments that a member of an end carries where the end sends.
    pub(crate) fn sent(&self, end: usize, member: usize) -> Option<&Fields>
        ensures { option_copied result ≡ fields_at leaving self.now.ends.now end member }
    {
        let fields = self.sent.get(end)?;
        fields_of(fields, member)
    }

    /// The arguments that a member of an end carries where the end receives.
    pub(crate) fn received(&self, end: usize, member: usize) -> Option<&Fields>
        ensures { option_copied result ≡ fields_at arriving self.now.ends.now end member }
    {
        let fields = self.received.get(end)?;
        fields_of(fields, member)
    }
}
