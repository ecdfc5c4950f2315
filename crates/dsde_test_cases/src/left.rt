//! What runs over memory leave, by two engines.
//!
//! What is made of a model is not dropped: the program ends soon.

use dsde_io::{SureSink, SureSource};
use dsde_plain::given::run::{Running, run_leaving, run_started};
use dsde_plain::{Plain, Sim};
use dsde_trace::Pick;
use dsde_values::{Memory, Seq, Text};
use std::alloc::Global;
use std::{mem, str};

/// The most bytes that one read of an input gives.
const LARGEST: usize = 16;

/// What a run leaves from its start on an input, after at most so many turns, by the engine whose tree lies in
/// a grove: the lines that it wrote and the tree, none where it faulted.
pub(crate) fn by_grove(
    alloc: Global,
    own: &Running<'_>,
    input: &[u8],
    turns: u16,
) -> Result<String, Memory> {
    let mut source = SureSource::new(Text::from_slice(alloc, input)?, LARGEST);
    let mut sink = SureSink::new(Text::new(alloc));
    let mut left = None;
    let how = run_leaving(
        alloc,
        own,
        Pick::All,
        u64::from(turns),
        &mut source,
        &mut sink,
        &mut left,
    );
    let tree = match &left {
        Some(core) if !core.spent() => Some(core.tree_of()),
        _ => None,
    };
    let told = match &tree {
        Some(Ok(tree)) => told(alloc, &sink, Some(tree)),
        Some(Err(Memory)) => Err(Memory),
        None => told(alloc, &sink, None),
    };
    mem::forget((how, left, tree));
    told
}

/// The same by the engine that walks the whole tree.
pub(crate) fn by_walking(
    alloc: Global,
    own: &Running<'_>,
    input: &[u8],
    turns: u16,
) -> Result<String, Memory> {
    let mut source = SureSource::new(Text::from_slice(alloc, input)?, LARGEST);
    let mut sink = SureSink::new(Text::new(alloc));
    let mut events = Seq::new(alloc);
    let started = Plain::start(alloc, own.program(), &mut events);
    let mut left = None;
    let how = run_started(
        alloc,
        started,
        events.as_slice(),
        own,
        Pick::All,
        u64::from(turns),
        &mut source,
        &mut sink,
        &mut left,
    );
    let told = match &left {
        Some(plain) if !plain.spent() => told(alloc, &sink, Some(plain.tree())),
        _ => told(alloc, &sink, None),
    };
    mem::forget((how, left, events));
    told
}

/// The lines that were written, and the text of a tree, which tells all of it.
fn told(alloc: Global, sink: &SureSink, tree: Option<&Sim>) -> Result<String, Memory> {
    let lines = str::from_utf8(sink.contents()).unwrap_or("lines that are no text");
    match tree {
        Some(tree) => Ok(format!(in alloc; "{lines:?} {tree:?}")?),
        None => Ok(format!(in alloc; "{lines:?}")?),
    }
}
