//! What one link carries.

ghost use Rattle.std.specs.Prelude.{◌≡◌, [], ◌++◌, IfOk, OnOk, slice_index_or};
ghost use Rattle.dsde_sim_tree.specs.given.structure.Gather.{carried, from_part, through};
ghost use Rattle.dsde_sound_structures.specs.given.system.Program.{system};
ghost use Rattle.dsde_sim_gathering.specs.Boxes.{added};
ghost use Rattle.dsde_sim_gathering.specs.Passing.{AllPass, AreSorted, IsTaken, Passes};

use crate::names::sent_by;
use dsde_atomic::given::eval::{Program, translate};
use dsde_sim_tree::given::structure::{End, Link, Part, Sources, Via};
use dsde_sound_structures::{may_translate, translates_exactly};
use dsde_values::{Memory, Seq, Value, Values, copy_value};
use std::alloc::Global;

/// What a part gives, port by port.
fn from_part<'s>(sources: &'s Sources, part: &Part) -> &'s [Values]
    requires { AreSorted sources.now }
    ensures { result.now ≡ from_part sources.now part.now }
{
    match part {
        Part::Net => sources.net.as_slice(),
        Part::Boss => sources.boss.as_slice(),
        Part::Kid(name) => sent_by(sources.kids.as_slice(), name),
    }
}

/// The values at an end that a link carries from.
fn values_from<'s>(sources: &'s Sources, end: &End) -> &'s [Value]
    requires { AreSorted sources.now }
    ensures { result.now ≡ slice_index_or (from_part sources.now end.now.part) end.now.port [] }
{
    match from_part(sources, &end.part).get(end.port as usize) {
        Some(values) => values.as_slice(),
        None => &[],
    }
}

/// What a translation makes of a value.
fn translated(
    alloc: Global,
    program: &Program,
    via: &Via,
    value: &Value,
) -> Result<Option<Value>, Memory>
    requires { IsTaken program.now via.now value.now }
    ensures { IfOk result (λ made. made ≡ (system program.now).translate via.now value.now) }
{
    may_translate();
    translates_exactly();
    translate(alloc, program, via.id, via.key.as_ref(), value)
}

/// What a link makes of a value.
fn passed(
    alloc: Global,
    program: &Program,
    link: &Link,
    value: &Value,
) -> Result<Option<Value>, Memory>
    requires { Passes program.now link.now.via value.now }
    ensures { IfOk result (λ made. made ≡ through (system program.now).translate link.now value.now) }
{
    match &link.via {
        None => Ok(Some(copy_value(alloc, value)?)),
        Some(via) => translated(alloc, program, via, value),
    }
}

/// What a link carries comes behind values.
fn carry(
    alloc: Global,
    program: &Program,
    link: &Link,
    sources: &Sources,
    values: &mut Values,
) -> Result<(), Memory>
    requires sorted { AreSorted sources.now }
    requires pass { AllPass program.now sources.now link.now }
    ensures { OnOk result (values.new ≡ values.old ++ carried (system program.now).translate sources.now link.now) }
{
    for value in values_from(sources, &link.from) {
        if let Some(made) = passed(alloc, program, link, value)? {
            values.push(made)?;
        }
    }
    Ok(())
}

/// What a link carries comes to the port of its target among these, if it is one of them.
pub(crate) fn carry_to(
    alloc: Global,
    program: &Program,
    link: &Link,
    sources: &Sources,
    ports: &mut Seq<Values>,
) -> Result<(), Memory>
    requires sorted { AreSorted sources.now }
    requires pass { AllPass program.now sources.now link.now }
    ensures { OnOk result (ports.new ≡ added link.now.to.port (carried (system program.now).translate sources.now link.now) ports.old) }
{
    match ports.get_mut(link.to.port as usize) {
        Some(values) => carry(alloc, program, link, sources, values),
        None => Ok(()),
    }
}
