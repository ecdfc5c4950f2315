//! Values along a row.

ghost use Rattle.std.specs.Prelude.{◌≡◌, IfOk};
ghost use Rattle.std.specs.List.{filter_map};
ghost use Rattle.dsde_routes_pushing.specs.Carried.{along};
ghost use Rattle.dsde_core_moves.specs.given.system.Program.{system};
ghost use Rattle.dsde_core_moves.specs.given.sim_gathering.Passing.{IsTaken};
ghost use Rattle.dsde_core_parcels.specs.Along.{GoAlong, GoesAlong};
ghost use Rattle.dsde_core_parcels.specs.Parcels.{KeepsTypes};

use dsde_core_moves::given::eval::translate;
use dsde_core_moves::given::program::Program;
use dsde_core_moves::given::sound_structures::{may_translate, translates_exactly};
use dsde_lists::Memory;
use dsde_routes_wiring::given::structure::Via;
use dsde_values::{Seq, Value, Values, copy_value};
use std::alloc::Global;

/// What a translation makes of a value.
fn translated(
    alloc: Global,
    program: &Program,
    via: &Via,
    value: &Value,
) -> Result<Option<Value>, Memory>
    requires { IsTaken program.now via.now value.now }
    ensures made { IfOk result (λ made. made ≡ (system program.now).translate via.now value.now) }
    ensures typed { IfOk result (KeepsTypes program.now via.now value.now) }
{
    may_translate();
    translates_exactly();
    translate(alloc, program, via.id, via.key.as_ref(), value)
}

/// What translations make of a value one after another.
fn along(
    alloc: Global,
    program: &Program,
    chain: &[Via],
    value: &Value,
) -> Result<Option<Value>, Memory>
    requires { GoesAlong program.now chain.now value.now }
    ensures { IfOk result (λ made. made ≡ along (system program.now).translate chain.now value.now) }
{
    let mut own = copy_value(alloc, value)?;
    let mut rest = chain;
    while let Some((via, later)) = rest.split_first() {
        match translated(alloc, program, via, &own)? {
            Some(made) => own = made,
            None => return Ok(None),
        }
        rest = later;
    }
    Ok(Some(own))
}

/// What translations make of values one after another; a value of which nothing is made is left out.
pub(crate) fn all_along(
    alloc: Global,
    program: &Program,
    chain: &[Via],
    values: &[Value],
) -> Result<Values, Memory>
    requires { GoAlong program.now chain.now values.now }
    ensures { IfOk result (λ made. made ≡ filter_map (along (system program.now).translate chain.now) values.now) }
{
    let mut all = Seq::new(alloc);
    let mut rest = values;
    while let Some((value, later)) = rest.split_first() {
        if let Some(made) = along(alloc, program, chain, value)? {
            all.push(made)?;
        }
        rest = later;
    }
    Ok(all)
}
