//! What a step of an engine did.

/// The most parts of a tree that are alive at once: atomic components, networks and executives.
pub const MOST_PARTS: u64 = 131_072;

/// What an engine's `advance` did.
#[derive(Clone, Copy)]
pub enum Step {
    /// One turn. `took_input` says whether the head of the input was taken.
    Turned { took_input: bool },
    /// Nothing: there is no input, and nothing will ever be due.
    Quiet,
}
