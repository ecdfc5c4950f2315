//! A model that is right, with all that it is resolved to.

ghost use Rattle.std.specs.Prelude.{◌≡◌, ◌<◌, Some, length, slice_get, IfOk};
ghost use Rattle.dsde_language.specs.DeclaredModels.{top_number, types_of};
ghost use Rattle.dsde_language.specs.NodeModels.{infos_of, resolved};
ghost use Rattle.dsde_language.specs.Right.{IsRight};

use crate::whole::{Declared, Laid, Whole, whole_in};
use dsde_language::{
    Act, BlockId, Code, ExprId, FnCode, Info, Make, ModelId, Node, Tables, ViaCode, ViaId,
};
use dsde_program_bodies::given::program_layout::{model_laid, top_is_named};
use dsde_syntax::Model;
use dsde_syntax::given::lists::Memory;
use dsde_values::{Seq, Types};
use std::alloc::Global;

/// A model in which nothing is wrong, borrowed, with all that it is resolved to: its types, what each
/// of its models declares, its functions, bodies and structures, and the tables of the expressions,
/// blocks and translations that stand in them, with numbers for names. Contracts see it as the model.
#[derive(Drop)]
pub struct Program<'m> {
    model: &'m Model,
    declared: Declared,
    laid: Laid,
}

impl<'m> std::marker::Model for Program<'m> {
    ghost use Rattle.std.specs.Prelude.{◌≡◌, length};
    ghost use Rattle.dsde_syntax.specs.declared.decl.Model.{Model};
    ghost use Rattle.dsde_syntax.specs.contracts.decl.Model as whole;
    ghost use Rattle.dsde_language.specs.DeclaredModels.{types_of};
    ghost use Rattle.dsde_language.specs.NodeModels.{infos_of, resolved};
    ghost use Rattle.dsde_language.specs.Right.{IsRight};

    ghost Value = { Model };

    ghost coded = { whole.the_row.coded };

    ghost view = { λ program. program.model.now };

    ghost invariant = { λ program. IsRight program.model.now × (program.declared.types ≡ types_of program.model.now) × (program.declared.infos ≡ infos_of program.model.now) × (program.declared.models ≡ length (infos_of program.model.now)) × (program.laid.tables.nodes ≡ (resolved program.model.now).nodes) × (program.laid.tables.blocks ≡ (resolved program.model.now).blocks) × (program.laid.tables.vias ≡ (resolved program.model.now).vias) × (program.laid.functions ≡ (resolved program.model.now).own.functions) × (program.laid.codes ≡ (resolved program.model.now).own.codes) × (program.laid.makes ≡ (resolved program.model.now).own.makes) × (program.laid.top_model ≡ (resolved program.model.now).own.top_model) × (program.laid.top_args ≡ (resolved program.model.now).own.top_args) × (length program.laid.codes ≡ length (infos_of program.model.now)) × (length program.laid.makes ≡ length (infos_of program.model.now)) };
}

/// The program of a shaped model in which nothing is wrong, or `Memory` where memory runs out.
pub fn resolve(alloc: Global, model: &Model) -> Result<Program, Memory>
    requires { IsRight model.now }
    ensures { IfOk result (λ program. program ≡ model.now) }
{
    model_laid();
    let Whole { declared, laid } = whole_in(alloc, model)?;
    Ok(Program {
        model,
        declared,
        laid,
    })
}

impl Program<'_> {
    /// A law: the model of a program is shaped, and nothing is wrong in it.
    pub fn right(&self)
        ensures { IsRight self.now }
    {
        let _ = &self.model;
    }

    /// The types that the model declares.
    pub fn types(&self) -> &Types
        ensures { result.now ≡ types_of self.now }
    {
        &self.declared.types
    }

    /// How many atomic models and networks there are.
    pub fn models(&self) -> u32
        ensures { result ≡ length (infos_of self.now) }
    {
        self.declared.models
    }

    /// What the atomic model or network with a number declares.
    pub fn info(&self, number: ModelId) -> &Info
        requires { number.0 < length (infos_of self.now) }
        ensures { Some result.now ≡ slice_get (infos_of self.now) number.0 }
    {
        &self.declared.infos.as_slice()[number.0 as usize]
    }

    /// The model that runs.
    pub fn top_model(&self) -> ModelId
        ensures { result ≡ top_number self.now }
    {
        // A law: it is the one that `top` names.
        top_is_named();
        self.laid.top_model
    }

    /// The arguments of the model that runs.
    pub fn top_args(&self) -> &Seq<ExprId>
        ensures { result.now ≡ (resolved self.now).own.top_args }
    {
        &self.laid.top_args
    }

    /// The expression with a number.
    pub fn node(&self, number: ExprId) -> &Node
        requires { number.0 < length (resolved self.now).nodes }
        ensures { Some result.now ≡ slice_get (resolved self.now).nodes number.0 }
    {
        &self.laid.tables.nodes.as_slice()[number.0 as usize]
    }

    /// The block with a number.
    pub fn block(&self, number: BlockId) -> &Seq<Act>
        requires { number.0 < length (resolved self.now).blocks }
        ensures { Some result.now ≡ slice_get (resolved self.now).blocks number.0 }
    {
        &self.laid.tables.blocks.as_slice()[number.0 as usize]
    }

    /// The translation with a number.
    pub fn via(&self, number: ViaId) -> &ViaCode
        requires { number.0 < length (resolved self.now).vias }
        ensures { Some result.now ≡ slice_get (resolved self.now).vias number.0 }
    {
        &self.laid.tables.vias.as_slice()[number.0 as usize]
    }

    /// All expressions, blocks and translations, each at its number.
    pub fn tables(&self) -> &Tables
        ensures nodes { result.now.nodes ≡ (resolved self.now).nodes }
        ensures blocks { result.now.blocks ≡ (resolved self.now).blocks }
        ensures vias { result.now.vias ≡ (resolved self.now).vias }
    {
        &self.laid.tables
    }

    /// All functions, each at its number.
    pub fn functions(&self) -> &Seq<FnCode>
        ensures { result.now ≡ (resolved self.now).own.functions }
    {
        &self.laid.functions
    }

    /// The function with a number.
    pub fn function(&self, number: u32) -> &FnCode
        requires { number < length (resolved self.now).own.functions }
        ensures { Some result.now ≡ slice_get (resolved self.now).own.functions number }
    {
        &self.laid.functions.as_slice()[number as usize]
    }

    /// The body of the atomic model with a number, or of the network's executive.
    pub fn code(&self, number: ModelId) -> &Code
        requires { number.0 < length (infos_of self.now) }
        ensures { Some result.now ≡ slice_get (resolved self.now).own.codes number.0 }
    {
        &self.laid.codes.as_slice()[number.0 as usize]
    }

    /// The items of the network with a number; an atomic model has none.
    pub fn makes(&self, number: ModelId) -> &Seq<Make>
        requires { number.0 < length (infos_of self.now) }
        ensures { Some result.now ≡ slice_get (resolved self.now).own.makes number.0 }
    {
        &self.laid.makes.as_slice()[number.0 as usize]
    }
}
