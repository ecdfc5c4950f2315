//! Kinds of faults, and the parts of a component in which they come.

/// Why an expression or a structure has no value.
#[derive(Clone, Copy)]
pub enum FaultKind {
    Overflow,
    DivideByZero,
    IndexOutOfRange,
    EmptyOption,
    RangeTooLong,
    NegativeAdvance,
    TimeTooFar,
    DuplicateComponent,
    BadIndex,
    DanglingLink,
    TooManyLinks,
    TooDeep,
    Crowded,
}

/// The part of a component in which a fault comes.
#[derive(Clone, Copy)]
pub enum Site {
    Top,
    Start,
    Init,
    Advance,
    Output,
    Internal,
    External,
    Confluent,
    Structure,
}
