//! Room for blocks, each of which is counted before what stands in it.

ghost use Rattle.std.specs.Prelude.{◌≡◌, ◌<◌, length, IfOk, OnOk};
ghost use Rattle.dsde_program_expressions.specs.given.program_layout.LayPieces.{put, roomy};

use dsde_language::{Act, BlockId, Tables};
use dsde_program_expressions::given::check_tables::narrow;
use dsde_syntax::given::lists::Memory;
use dsde_values::Seq;
use std::alloc::Global;

/// Keeps room for a block, and gives its number.
pub(crate) fn open(alloc: Global, tables: &mut Tables) -> Result<BlockId, Memory>
    ensures tables { OnOk result (tables.new ≡ roomy tables.old) }
    ensures number { IfOk result (λ number. number ≡ record { 0 = length tables.old.blocks }) }
    ensures within { IfOk result (λ number. number.0 < length tables.new.blocks) }
{
    let number = narrow(tables.blocks.len())?;
    tables.blocks.push(Seq::new(alloc))?;
    Ok(BlockId(number))
}

/// Puts a block where room was kept for it.
pub(crate) fn close(tables: &mut Tables, number: BlockId, acts: Seq<Act>)
    requires { number.0 < length tables.old.blocks }
    ensures { tables.new ≡ put tables.old number.0 acts }
{
    if let Some(place) = tables.blocks.get_mut(number.0 as usize) {
        *place = acts;
    }
}
