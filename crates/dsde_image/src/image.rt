//! What a checkpoint says of a run.

use dsde_values::{Seq, Text, When};

/// A run between two of its turns.
#[derive(Drop)]
pub struct Image {
    /// How its rows say where their parts stand.
    pub version: Version,
    /// How many turns are done, at most 2^62.
    pub turn: u64,
    /// The time of the last of them in the model's whole time units, or 0.
    pub time: u64,
    /// How many records of the input are taken, at most one a turn.
    pub records: u64,
    /// A row for each part of the tree in pre-order: a network, its executive, and its components
    /// in the order of their names.
    pub parts: Seq<Row>,
}

/// The version of an image. Version 1 has whole paths, and is read alone; version 2 has the last
/// name of each path and the number of its names, so that deep trees make no long images.
#[derive(Clone, Copy)]
pub enum Version {
    One,
    Two,
}

/// A part of a tree.
#[derive(Drop)]
pub struct Row {
    pub location: Location,
    /// The name of its model; of an executive, of its network's.
    pub model: Text,
    pub body: Body,
}

/// Where a part stands in its tree, as it is written.
#[derive(Drop)]
pub enum Location {
    /// Its path, in version 1.
    Path(Text),
    /// The last name of its path, and how many names the path has, in version 2.
    Last { name: Text, depth: u32 },
}

/// What an image says of a part by its kind. Arguments are values as they are written.
#[derive(Drop)]
pub enum Body {
    Atomic { args: Seq<Text>, standing: Standing },
    Net { args: Seq<Text> },
    Executive { standing: Standing },
}

/// The state of a component or an executive, as its values are written, and its times.
#[derive(Drop)]
pub struct Standing {
    pub state: Seq<Text>,
    /// The time of its last event.
    pub last: u64,
    /// The time of its next internal event.
    pub next: When,
}
