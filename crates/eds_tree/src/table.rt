//! The table of elements.

ghost use Rattle.std.specs.Prelude.{◌≡◌, map};
ghost use Rattle.eds_tree.specs.Rows.{row_of};
ghost use Rattle.eds_tree.specs.ElementTable.{element_table, table_one, table_two, table_three, table_four, table_five};

use crate::{Attribute, Child, Form, Mark, Row, Rows, Shape};

/// How many elements the profile describes.
pub const ELEMENTS: usize = 94;

// An attribute with the form of its text. Where one name has several forms, the second has a name of its own here.
macro_rules! attribute {
    (abstract) => {
        Attribute { name: "abstract", form: Form::Flag }
    };
    (activity) => {
        Attribute { name: "activity", form: Form::Name }
    };
    (argumentRef) => {
        Attribute { name: "argumentRef", form: Form::Path }
    };
    (argument_mode) => {
        Attribute { name: "mode", form: Form::Word(&["in", "out", "inout", "notify"]) }
    };
    (baseType) => {
        Attribute { name: "baseType", form: Form::Reference }
    };
    (byteOrder) => {
        Attribute { name: "byteOrder", form: Form::Word(&["bigEndian", "littleEndian"]) }
    };
    (coefficient) => {
        Attribute { name: "coefficient", form: Form::Whole }
    };
    (command) => {
        Attribute { name: "command", form: Form::Name }
    };
    (dataTypeRef) => {
        Attribute { name: "dataTypeRef", form: Form::Reference }
    };
    (entry) => {
        Attribute { name: "entry", form: Form::Path }
    };
    (errorControlType) => {
        Attribute { name: "errorControlType", form: Form::Word(&["CHECKSUM", "CHECKSUM_LONGITUDINAL", "CRC8", "CRC16_CCITT"]) }
    };
    (exponent) => {
        Attribute { name: "exponent", form: Form::Whole }
    };
    (falseValue) => {
        Attribute { name: "falseValue", form: Form::Word(&["zeroIsFalse", "nonZeroIsFalse"]) }
    };
    (fixedLength) => {
        Attribute { name: "fixedLength", form: Form::Flag }
    };
    (fixedSize) => {
        Attribute { name: "fixedSize", form: Form::Flag }
    };
    (fixedValue) => {
        Attribute { name: "fixedValue", form: Form::Text }
    };
    (fromState) => {
        Attribute { name: "fromState", form: Form::Name }
    };
    (indexTypeRef) => {
        Attribute { name: "indexTypeRef", form: Form::Reference }
    };
    (initialValue) => {
        Attribute { name: "initialValue", form: Form::Text }
    };
    (integer_encoding) => {
        Attribute { name: "encoding", form: Form::Word(&["unsigned", "twosComplement", "signMagnitude", "onesComplement", "packedBCD", "BCD"]) }
    };
    (interface) => {
        Attribute { name: "interface", form: Form::Name }
    };
    (iteratorVariableRef) => {
        Attribute { name: "iteratorVariableRef", form: Form::Name }
    };
    (label) => {
        Attribute { name: "label", form: Form::Text }
    };
    (length) => {
        Attribute { name: "length", form: Form::Between(1, 65_536) }
    };
    (level) => {
        Attribute { name: "level", form: Form::Word(&["application", "functional", "access", "subnetwork"]) }
    };
    (listLengthField) => {
        Attribute { name: "listLengthField", form: Form::Name }
    };
    (max) => {
        Attribute { name: "max", form: Form::Whole }
    };
    (min) => {
        Attribute { name: "min", form: Form::Whole }
    };
    (mode) => {
        Attribute { name: "mode", form: Form::Word(&["sync", "async"]) }
    };
    (name) => {
        Attribute { name: "name", form: Form::Name }
    };
    (nanosecondsAfterEntry) => {
        Attribute { name: "nanosecondsAfterEntry", form: Form::Whole }
    };
    (operation) => {
        Attribute { name: "operation", form: Form::Word(&["get", "set"]) }
    };
    (operator) => {
        Attribute { name: "operator", form: Form::Word(&["add", "subtract", "multiply"]) }
    };
    (outputVariableRef) => {
        Attribute { name: "outputVariableRef", form: Form::Path }
    };
    (package_name) => {
        Attribute { name: "name", form: Form::PackageName }
    };
    (parameter) => {
        Attribute { name: "parameter", form: Form::Name }
    };
    (rangeType) => {
        Attribute { name: "rangeType", form: Form::Word(&["inclusiveMinInclusiveMax", "inclusiveMinExclusiveMax", "exclusiveMinInclusiveMax", "exclusiveMinExclusiveMax", "atLeast", "greaterThan", "atMost", "lessThan"]) }
    };
    (readOnly) => {
        Attribute { name: "readOnly", form: Form::Flag }
    };
    (relation) => {
        Attribute { name: "operator", form: Form::Word(&["==", "!=", "<", "<=", ">", ">="]) }
    };
    (size) => {
        Attribute { name: "size", form: Form::AtLeast(1) }
    };
    (sizeInBits) => {
        Attribute { name: "sizeInBits", form: Form::Whole }
    };
    (terminationCharacter) => {
        Attribute { name: "terminationCharacter", form: Form::Between(0, 127) }
    };
    (text_encoding) => {
        Attribute { name: "encoding", form: Form::Word(&["ASCII", "UTF-8"]) }
    };
    (toState) => {
        Attribute { name: "toState", form: Form::Name }
    };
    (transaction) => {
        Attribute { name: "transaction", form: Form::Name }
    };
    (type) => {
        Attribute { name: "type", form: Form::Reference }
    };
    (value) => {
        Attribute { name: "value", form: Form::Text }
    };
    (variableRef) => {
        Attribute { name: "variableRef", form: Form::Path }
    };
    (variable_name) => {
        Attribute { name: "variableRef", form: Form::Name }
    };
    (bounded_bits) => {
        Attribute { name: "sizeInBits", form: Form::Between(1, 524_288) }
    };
    (whole_value) => {
        Attribute { name: "value", form: Form::Whole }
    };
}

macro_rules! mark {
    (any) => { Mark::Any };
    (at_most_one) => { Mark::AtMostOne };
    (one) => { Mark::One };
    (at_least_one) => { Mark::AtLeastOne };
    (two) => { Mark::Two };
}

macro_rules! rows {
    ($($name:ident { $($(under ($($parent:ident)+))? needs ($($required:ident)*) may ($($optional:ident)*) holds ($($mark:ident $child:ident),*)),+ })*) => {
        [$(Row {
            name: stringify!($name),
            shapes: &[$(Shape {
                parents: &[$($(stringify!($parent)),+)?],
                required: &[$(attribute!($required)),*],
                optional: &[$(attribute!($optional)),*],
                children: &[$(Child { name: stringify!($child), mark: mark!($mark) }),*],
            }),+],
        }),*]
    };
}

static ONE: [Row; 19] = rows! {
    ANDedConditions { needs () may () holds (at_least_one CONDITION) }
    Activity { needs (name) may () holds (any Argument, one Body) }
    ActivitySet { needs () may () holds (any Activity) }
    Argument { needs (name type) may (argument_mode) holds () }
    ArgumentRef { needs (argumentRef) may () holds () }
    ArgumentValue { needs (name) may () holds (one OPERAND) }
    ArrayDataType { needs (name dataTypeRef) may () holds (one DimensionList) }
    Assignment { needs (outputVariableRef) may () holds (one OPERAND) }
    Base { needs (type) may () holds (at_most_one GenericTypeMapSet) }
    BaseInterfaceSet { needs () may () holds (any Base) }
    BinaryDataType { needs (name bounded_bits) may (fixedSize) holds () }
    Body { needs () may () holds (any STATEMENT) }
    BooleanDataEncoding { needs (sizeInBits) may (falseValue) holds () }
    BooleanDataType { needs (name) may () holds (at_most_one BooleanDataEncoding) }
    Call { needs (activity) may () holds (any ArgumentValue) }
    Command { needs (name) may (mode) holds (any Argument) }
    CommandSet { needs () may () holds (any Command) }
    Comparison { needs (relation) may () holds (two OPERAND) }
    Component { needs (name) may () holds (any DataTypeSet, any DeclaredInterfaceSet, at_most_one ProvidedInterfaceSet, at_most_one RequiredInterfaceSet, at_most_one Implementation) }
};

#[tactic(auto, unfolding(crate::specs::ElementTable::table_one))]
fn rows_one() -> &'static [Row]
    ensures { map row_of result.now ≡ table_one }
{
    &ONE
}

static TWO: [Row; 19] = rows! {
    ComponentSet { needs () may () holds (any Component) }
    Condition { needs () may () holds (one CONDITION) }
    Conditional { needs () may () holds (one Condition, at_most_one OnConditionTrue, at_most_one OnConditionFalse) }
    ConstraintSet { needs () may () holds (any ValueConstraint, any RangeConstraint, any TypeConstraint) }
    ContainerDataType { needs (name) may (baseType abstract) holds (at_most_one ConstraintSet, at_most_one EntryList, at_most_one TrailerEntryList) }
    DataSheet { needs () may () holds (any Package) }
    DataTypeSet { needs () may () holds (any DATATYPE) }
    DeclaredInterfaceSet { needs () may () holds (any Interface) }
    Dimension { needs () may (size indexTypeRef) holds () }
    DimensionList { needs () may () holds (at_least_one Dimension) }
    Do {
        under (Iteration) needs () may () holds (any STATEMENT),
        under (Transition) needs (activity) may () holds (any ArgumentValue)
    }
    EndAt { needs () may () holds (one OPERAND) }
    Entry { needs (name type) may () holds () }
    EntryList { needs () may () holds (any ENTRY) }
    EntryState { needs (name) may () holds () }
    EnumeratedDataType { needs (name) may () holds (at_most_one IntegerDataEncoding, one EnumerationList) }
    Enumeration { needs (label whole_value) may () holds () }
    EnumerationList { needs () may () holds (any Enumeration) }
    ErrorControlEntry { needs (name type errorControlType) may () holds () }
};

#[tactic(auto, unfolding(crate::specs::ElementTable::table_two))]
fn rows_two() -> &'static [Row]
    ensures { map row_of result.now ≡ table_two }
{
    &TWO
}

static THREE: [Row; 19] = rows! {
    ExitState { needs (name) may () holds () }
    FixedValueEntry { needs (type fixedValue) may (name) holds () }
    GenericType { needs (name) may (baseType) holds () }
    GenericTypeMap { needs (name type) may () holds () }
    GenericTypeMapSet { needs () may () holds (any GenericTypeMap) }
    GenericTypeSet { needs () may () holds (any GenericType) }
    Guard { needs () may () holds (one CONDITION) }
    Implementation { needs () may () holds (at_most_one VariableSet, at_most_one ParameterMapSet, at_most_one ActivitySet, at_most_one StateMachineSet) }
    IntegerDataEncoding { needs (sizeInBits integer_encoding) may (byteOrder) holds () }
    IntegerDataType { needs (name) may () holds (at_most_one IntegerDataEncoding, at_most_one Range) }
    Interface {
        under (DeclaredInterfaceSet) needs (name) may (level abstract) holds (at_most_one BaseInterfaceSet, at_most_one GenericTypeSet, at_most_one ParameterSet, at_most_one CommandSet),
        under (ProvidedInterfaceSet RequiredInterfaceSet) needs (name type) may () holds (at_most_one GenericTypeMapSet)
    }
    Iteration { needs (iteratorVariableRef) may () holds (one StartAt, one EndAt, at_most_one Step, one Do) }
    LengthEntry { needs (name type) may () holds (at_most_one PolynomialCalibrator) }
    ListEntry { needs (name type listLengthField) may () holds () }
    MathOperation { needs (outputVariableRef) may () holds (any OPERAND, any Operator) }
    MinMaxRange { needs (rangeType) may (min max) holds () }
    ORedConditions { needs () may () holds (at_least_one CONDITION) }
    OnCommandPrimitive { needs (interface command) may (transaction) holds () }
    OnConditionFalse { needs () may () holds (any STATEMENT) }
};

#[tactic(auto, unfolding(crate::specs::ElementTable::table_three))]
fn rows_three() -> &'static [Row]
    ensures { map row_of result.now ≡ table_three }
{
    &THREE
}

static FOUR: [Row; 19] = rows! {
    OnConditionTrue { needs () may () holds (any STATEMENT) }
    OnEntry { needs (activity) may () holds (any ArgumentValue) }
    OnExit { needs (activity) may () holds (any ArgumentValue) }
    OnParameterPrimitive { needs (interface parameter) may (operation transaction) holds () }
    OnTimer { needs (nanosecondsAfterEntry) may () holds () }
    Operator { needs (operator) may () holds () }
    Package { needs (package_name) may () holds (any DataTypeSet, any DeclaredInterfaceSet, any ComponentSet) }
    PackageFile { needs () may () holds (any Package) }
    PaddingEntry { needs (bounded_bits) may () holds () }
    Parameter { needs (name type) may (mode readOnly) holds () }
    ParameterMap { needs (interface parameter variable_name) may () holds () }
    ParameterMapSet { needs () may () holds (any ParameterMap) }
    ParameterSet { needs () may () holds (any Parameter) }
    PolynomialCalibrator { needs () may () holds (any Term) }
    ProvidedInterfaceSet { needs () may () holds (any Interface) }
    Range { needs () may () holds (one MinMaxRange) }
    RangeConstraint { needs (entry) may () holds (one MinMaxRange) }
    RequiredInterfaceSet { needs () may () holds (any Interface) }
    SendCommandPrimitive { needs (interface command) may (transaction) holds (any ArgumentValue) }
};

#[tactic(auto, unfolding(crate::specs::ElementTable::table_four))]
fn rows_four() -> &'static [Row]
    ensures { map row_of result.now ≡ table_four }
{
    &FOUR
}

static FIVE: [Row; 18] = rows! {
    SendParameterPrimitive { needs (interface parameter) may (operation transaction) holds (at_most_one OPERAND) }
    StartAt { needs () may () holds (one OPERAND) }
    State { needs (name) may () holds (at_most_one OnEntry, at_most_one OnExit) }
    StateMachine { needs (name) may () holds (any EntryState, any State, any ExitState, any Transition) }
    StateMachineSet { needs () may () holds (any StateMachine) }
    Step { needs () may () holds (one Value) }
    StringDataEncoding { needs () may (text_encoding terminationCharacter) holds () }
    StringDataType { needs (name length) may (fixedLength) holds (at_most_one StringDataEncoding) }
    SubRangeDataType { needs (name baseType) may () holds (one Range) }
    Term { needs (coefficient exponent) may () holds () }
    TrailerEntryList { needs () may () holds (any ENTRY) }
    Transition { needs (fromState toState) may (name) holds (at_most_one EVENT, at_most_one Guard, at_most_one Do) }
    TypeConstraint { needs (entry type) may () holds () }
    Value { needs (value) may () holds () }
    ValueConstraint { needs (entry value) may () holds () }
    Variable { needs (name type) may (readOnly initialValue) holds () }
    VariableRef { needs (variableRef) may () holds () }
    VariableSet { needs () may () holds (any Variable) }
};

#[tactic(auto, unfolding(crate::specs::ElementTable::table_five))]
fn rows_five() -> &'static [Row]
    ensures { map row_of result.now ≡ table_five }
{
    &FIVE
}

/// The elements of the profile.
pub fn element_rows() -> Rows<ELEMENTS>
    ensures { result ≡ element_table }
{
    let one = rows_one();
    let two = rows_two();
    let three = rows_three();
    let four = rows_four();
    let five = rows_five();
    Rows::of([one, two, three, four, five])
}
