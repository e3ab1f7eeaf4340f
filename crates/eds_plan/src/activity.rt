//! Activities and their statements.

use eds_base::{Items, Text, TypeId};
use eds_types::{EntryPath, Value};

/// What a primitive or a statement does at a member.
#[derive(Clone, Copy, PartialEq, Eq)]
pub enum Op {
    Command,
    Get,
    Set,
    Val,
}

/// Where a value comes from. A path is empty where the whole is meant.
#[derive(Drop)]
pub enum Operand {
    /// A value that is written out.
    Value(Value),
    /// A variable of the component, or an entry of it.
    Variable(u16, EntryPath),
    /// An argument of the activity or event, or an entry of it.
    Argument(u16, EntryPath),
}

/// Where a value goes: a variable, or an entry of it.
#[derive(Drop)]
pub struct Target {
    pub variable: u16,
    pub path: EntryPath,
}

/// A call of an activity, with one operand for each argument.
#[derive(Drop)]
pub struct Action {
    pub activity: u16,
    pub operands: Items<Operand>,
}

/// A calculation of two numbers.
#[derive(Clone, Copy, PartialEq, Eq)]
pub enum MathOp {
    Add,
    Subtract,
    Multiply,
}

/// An item of a calculation in postfix order.
#[derive(Drop)]
pub enum MathItem {
    Operand(Operand),
    Operator(MathOp),
}

/// How two values are compared.
#[derive(Clone, Copy, PartialEq, Eq)]
pub enum Relation {
    Equal,
    NotEqual,
    Less,
    LessOrEqual,
    Greater,
    GreaterOrEqual,
}

/// A condition. Clauses see one by its plain tree.
#[derive(Drop)]
pub enum Guard {
    Compare(Relation, Operand, Operand),
    All(Vec<Guard>),
    Any(Vec<Guard>),
}

/// A statement. Clauses see one by its plain tree.
#[derive(Drop)]
pub enum Statement {
    /// Stores a value.
    Assign(Target, Operand),
    /// Stores the result of a calculation.
    Math(Target, Items<MathItem>),
    /// The statements for true and for false.
    If(Guard, Vec<Statement>, Vec<Statement>),
    /// The variable, start, end and step, and the statements of a turn.
    Iterate(u16, Operand, Operand, i128, Vec<Statement>),
    Call(Action),
    /// The end and member, and one operand for each argument.
    SendCommand(u16, u16, Items<Operand>, Option<u32>),
    /// The end and member, what is sent, and the value of a `set` or `val`.
    SendParameter(u16, u16, Op, Option<Operand>, Option<u32>),
}

/// An activity: its arguments and statements.
#[derive(Drop)]
pub struct Activity {
    pub name: Text,
    pub arguments: Items<(Text, TypeId)>,
    pub body: Items<Statement>,
}
