//! What a program reads: what a model declares, and what is laid of its declarations.

ghost use Rattle.std.specs.Prelude.{◌≡◌, [], length, unwrap_or, IfOk};
ghost use Rattle.dsde_language.specs.DeclaredModels.{defs_from, whole_of};
ghost use Rattle.dsde_language.specs.NodeModels.{infos_from};
ghost use Rattle.dsde_program_bodies.specs.given.program_layout.LayModels.{lay_decls, no_tables};
ghost use Rattle.dsde_program.specs.Behind.{no_top};
ghost use Rattle.dsde_program.specs.Whole.{IsWhole};

use crate::made::{Made, TopCode, made_of};
use dsde_language::{Code, ExprId, FnCode, Info, Make, ModelId, Tables};
use dsde_program_infos::given::check_tables::{Known, narrow};
use dsde_program_infos::{infos_of, types_of, whole_of};
use dsde_syntax::given::lists::Memory;
use dsde_syntax::{Decl, Model};
use dsde_values::{Seq, Types};
use std::alloc::Global;

/// What a model declares: its types, and its atomic models and networks, with how many these are.
#[derive(Drop)]
pub(crate) struct Declared {
    pub types: Types,
    pub infos: Seq<Info>,
    pub models: u32,
}

/// What is laid of declarations.
#[derive(Drop)]
pub(crate) struct Laid {
    pub tables: Tables,
    pub functions: Seq<FnCode>,
    pub codes: Seq<Code>,
    pub makes: Seq<Seq<Make>>,
    pub top_model: ModelId,
    pub top_args: Seq<ExprId>,
}

/// What a program reads of a whole model.
#[derive(Drop)]
pub(crate) struct Whole {
    pub declared: Declared,
    pub laid: Laid,
}

/// What a model declares, and what is laid of its declarations.
pub(crate) fn whole_in(alloc: Global, model: &Model) -> Result<Whole, Memory>
    ensures { IfOk result (λ own. IsWhole own (whole_of model.now) model.now.decls) }
{
    let known = whole_of(alloc, model)?;
    whole_by(alloc, &known, model.decls.as_slice())
}

/// What declarations declare, and what is laid of them, over all that is known of their file by its
/// text.
fn whole_by(alloc: Global, known: &Known<'_>, decls: &[Decl]) -> Result<Whole, Memory>
    ensures { IfOk result (λ own. IsWhole own known.now decls.now) }
{
    let declared = declared_by(alloc, known, decls)?;
    let laid = laid_by(alloc, known, decls)?;
    Ok(Whole { declared, laid })
}

/// What declarations declare.
fn declared_by(alloc: Global, known: &Known<'_>, decls: &[Decl]) -> Result<Declared, Memory>
    ensures types { IfOk result (λ own. own.types ≡ record { defs = defs_from known.now.words known.now.types }) }
    ensures infos { IfOk result (λ own. own.infos ≡ infos_from known.now [] decls.now) }
    ensures models { IfOk result (λ own. own.models ≡ length (infos_from known.now [] decls.now)) }
{
    let types = types_of(alloc, known)?;
    let infos = infos_of(alloc, known, decls)?;
    counted(types, infos)
}

/// Types, and models with how many these are.
fn counted(types: Types, infos: Seq<Info>) -> Result<Declared, Memory>
    ensures types { IfOk result (λ own. own.types ≡ types) }
    ensures infos { IfOk result (λ own. own.infos ≡ infos) }
    ensures models { IfOk result (λ own. own.models ≡ length infos) }
{
    let models = narrow(infos.len())?;
    Ok(Declared {
        types,
        infos,
        models,
    })
}

/// What is laid of declarations.
fn laid_by(alloc: Global, known: &Known<'_>, decls: &[Decl]) -> Result<Laid, Memory>
    ensures tables { IfOk result (λ own. own.tables ≡ (lay_decls known.now decls.now [] no_tables).tables) }
    ensures functions { IfOk result (λ own. own.functions ≡ (lay_decls known.now decls.now [] no_tables).own.functions) }
    ensures codes { IfOk result (λ own. own.codes ≡ (lay_decls known.now decls.now [] no_tables).own.codes) }
    ensures makes { IfOk result (λ own. own.makes ≡ (lay_decls known.now decls.now [] no_tables).own.makes) }
    ensures top_model { IfOk result (λ own. own.top_model ≡ (lay_decls known.now decls.now [] no_tables).own.top_model) }
    ensures top_args { IfOk result (λ own. own.top_args ≡ (lay_decls known.now decls.now [] no_tables).own.top_args) }
    ensures many_codes { IfOk result (λ own. length own.codes ≡ length (infos_from known.now [] decls.now)) }
    ensures many_makes { IfOk result (λ own. length own.makes ≡ length (infos_from known.now [] decls.now)) }
{
    let Made {
        functions,
        codes,
        makes,
        top,
        tables,
    } = made_of(alloc, known, decls)?;
    let TopCode { model, args } = top_of(alloc, top);
    Ok(Laid {
        tables,
        functions,
        codes,
        makes,
        top_model: model,
        top_args: args,
    })
}

/// The model that runs, and its arguments.
fn top_of(alloc: Global, top: Option<TopCode>) -> TopCode
    ensures { result ≡ unwrap_or top no_top }
{
    match top {
        Some(own) => own,
        None => TopCode {
            model: ModelId(0),
            args: Seq::new(alloc),
        },
    }
}
