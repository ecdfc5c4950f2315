//! Moments of a run.

/// The last moment of a run.
pub const LAST_MOMENT: u64 = 9_223_372_036_854_775_807;

/// A moment of a run, in the model's whole time units from 0 to 2^63 - 1, or never.
#[derive(Clone, Copy, Debug, PartialEq, Eq)]
pub enum When {
    At(u64),
    Never,
}
