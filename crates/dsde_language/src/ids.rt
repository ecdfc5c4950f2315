//! Numbers of what stands in a model, counted from 0 in text order.

/// The number of an atomic model or a network.
#[derive(Clone, Copy, Debug)]
pub struct ModelId(pub u32);

/// The number of a translation.
#[derive(Clone, Copy, Debug)]
pub struct ViaId(pub u32);
