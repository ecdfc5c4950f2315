//! Plans: the structures that an executive's state defines.

ghost use Rattle.std.specs.Prelude.{◌≡◌, IfOk};

use dsde_language::{ModelId, ViaId};
use dsde_values::given::lists::Memory;
use dsde_values::{Name, Seq, Value, Values, copy_values};
use std::alloc::Global;

/// A component of a network: its name, its model, and the model's arguments in the order of its
/// parameters.
#[derive(Drop)]
pub struct Entry {
    pub name: Name,
    pub model: ModelId,
    pub args: Values,
    /// Whether a component of this name and model survives as this entry whatever its arguments are.
    pub soft: bool,
}

impl Entry {
    /// An entry equal to this one.
    pub fn copy(&self, alloc: Global) -> Result<Entry, Memory>
        ensures { IfOk result (λ entry. entry ≡ self.now) }
    {
        Ok(Entry {
            name: self.name.copy(alloc)?,
            model: self.model,
            args: copy_values(alloc, self.args.as_slice())?,
            soft: self.soft,
        })
    }
}

/// Whose port an end of a link is: the network's own, its executive's, or a component's.
#[derive(Debug, Drop)]
pub enum Part {
    Net,
    Boss,
    Kid(Name),
}

/// An end of a link.
#[derive(Debug, Drop)]
pub struct End {
    pub part: Part,
    /// The number of the port among those of its direction, from 0 in declaration order.
    pub port: u32,
}

/// The translation of the values that a link carries, and its key, if it has one.
#[derive(Debug, Drop)]
pub struct Via {
    pub id: ViaId,
    pub key: Option<Value>,
}

/// What stands where a short list of translations has room.
impl Default for Via {
    fn default() -> Via {
        Via {
            id: ViaId(0),
            key: None,
        }
    }
}

/// A link: it carries the values of a source to a target.
#[derive(Debug, Drop)]
pub struct Link {
    pub from: End,
    pub to: End,
    pub via: Option<Via>,
}

/// A structure of a network: its components in the order of their names, which are distinct, and its
/// links in the order in which the structure gives them.
#[derive(Drop)]
pub struct Plan {
    pub entries: Seq<Entry>,
    pub links: Seq<Link>,
}

/// What a change from one structure to another does, each in the order of names.
#[derive(Drop)]
pub struct Change {
    /// Which components it drops.
    pub gone: Seq<Name>,
    /// Which survive it.
    pub kept: Seq<Name>,
    /// Which start.
    pub fresh: Seq<Entry>,
}
