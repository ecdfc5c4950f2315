//! Declarations laid one behind another.

ghost use Rattle.std.specs.Prelude.{◌≡◌, IfOk, OnOk};
ghost use Rattle.dsde_program.specs.Behind.{behind_body, behind_decl, behind_decls, behind_func, behind_items, behind_top, first_top, no_items, none_made};

use dsde_language::given::names::Names;
use dsde_language::{Code, ExprId, FnCode, Make, ModelId, Tables};
use dsde_program_bodies::{body, func};
use dsde_program_infos::given::check_tables::Known;
use dsde_program_structures::{Resolver, Structures, exprs, model_id};
use dsde_syntax::given::lists::Memory;
use dsde_syntax::{Body, Decl, Expr, Id, Item, Items, PortDecl, Stmt, Typed};
use dsde_values::Seq;
use std::alloc::Global;

/// The model that runs, and its arguments.
#[derive(Drop)]
pub(crate) struct TopCode {
    pub model: ModelId,
    pub args: Seq<ExprId>,
}

/// What is laid so far.
#[derive(Drop)]
pub(crate) struct Made {
    pub functions: Seq<FnCode>,
    pub codes: Seq<Code>,
    pub makes: Seq<Seq<Make>>,
    pub top: Option<TopCode>,
    pub tables: Tables,
}

/// What is laid of declarations, over all that is known of their file by its text.
pub(crate) fn made_of(alloc: Global, known: &Known<'_>, decls: &[Decl]) -> Result<Made, Memory>
    ensures { IfOk result (λ made. made ≡ behind_decls known.now decls.now none_made) }
{
    let structures = Structures::new(Resolver::new(alloc, known))?;
    made_by(&structures, decls)
}

/// What is laid of declarations, by what lays their structures.
fn made_by<'m>(structures: &Structures<'m>, decls: &'m [Decl]) -> Result<Made, Memory>
    ensures { IfOk result (λ made. made ≡ behind_decls structures.now decls.now none_made) }
{
    let mut made = none_made(structures.resolver().alloc());
    behind_decls(structures, decls, &mut made)?;
    Ok(made)
}

/// Nothing yet.
fn none_made(alloc: Global) -> Made
    ensures { result ≡ none_made }
{
    Made {
        functions: Seq::new(alloc),
        codes: Seq::new(alloc),
        makes: Seq::new(alloc),
        top: None,
        tables: Tables {
            nodes: Seq::new(alloc),
            blocks: Seq::new(alloc),
            vias: Seq::new(alloc),
        },
    }
}

/// Lays declarations in text order.
fn behind_decls<'m>(
    structures: &Structures<'m>,
    decls: &'m [Decl],
    made: &mut Made,
) -> Result<(), Memory>
    ensures { OnOk result (made.new ≡ behind_decls structures.now decls.now made.old) }
{
    for decl in decls {
        behind_decl(structures, decl, made)?;
    }
    Ok(())
}

/// Lays a declaration.
fn behind_decl<'m>(
    structures: &Structures<'m>,
    decl: &'m Decl,
    made: &mut Made,
) -> Result<(), Memory>
    ensures { OnOk result (made.new ≡ behind_decl structures.now decl.now made.old) }
{
    match decl {
        Decl::Enum { .. } | Decl::Rec { .. } => Ok(()),
        Decl::Func {
            params,
            stmts,
            value,
            ..
        } => behind_func(structures, params, stmts, value, made),
        Decl::Atomic {
            at,
            params,
            body,
            ..
        } => behind_atomic(structures, params, *at, body, made),
        Decl::Network {
            params,
            ports,
            exec_at,
            body,
            items,
            ..
        } => behind_network(structures, params, ports, *exec_at, body, items, made),
        Decl::Top { name, args, .. } => behind_top(structures, name, args, made),
    }
}

/// Lays a function.
fn behind_func<'m>(
    structures: &Structures<'m>,
    params: &'m Items<Typed>,
    stmts: &'m Items<Stmt>,
    value: &'m Expr,
    made: &mut Made,
) -> Result<(), Memory>
    ensures { OnOk result (made.new ≡ behind_func structures.now params.now stmts.now value.now made.old) }
{
    let own = func(
        structures.resolver(),
        params.as_slice(),
        stmts.as_slice(),
        value,
        &mut made.tables,
    )?;
    made.functions.push(own)
}

/// Lays an atomic model.
fn behind_atomic<'m>(
    structures: &Structures<'m>,
    params: &'m Items<Typed>,
    at: u32,
    body: &'m Body,
    made: &mut Made,
) -> Result<(), Memory>
    ensures { OnOk result (made.new ≡ no_items (behind_body structures.now params.now at body.now made.old)) }
{
    behind_body(structures, params.as_slice(), at, body, made)?;
    no_items(structures.resolver().alloc(), made)
}

/// Lays a network: its executive, and behind it its structure.
fn behind_network<'m>(
    structures: &Structures<'m>,
    params: &'m Items<Typed>,
    ports: &'m Items<PortDecl>,
    at: u32,
    body: &'m Body,
    items: &'m Items<Item>,
    made: &mut Made,
) -> Result<(), Memory>
    ensures { OnOk result (made.new ≡ behind_items structures.now params.now ports.now body.now items.now (behind_body structures.now params.now at body.now made.old)) }
{
    behind_body(structures, params.as_slice(), at, body, made)?;
    behind_items(
        structures,
        params.as_slice(),
        ports.as_slice(),
        body,
        items.as_slice(),
        made,
    )
}

/// Lays the body of a model.
fn behind_body<'m>(
    structures: &Structures<'m>,
    params: &'m [Typed],
    at: u32,
    own: &'m Body,
    made: &mut Made,
) -> Result<(), Memory>
    ensures { OnOk result (made.new ≡ behind_body structures.now params.now at own.now made.old) }
{
    let code = body(structures.resolver(), params, at, own, &mut made.tables)?;
    made.codes.push(code)
}

/// Lays the items of a network.
fn behind_items<'m>(
    structures: &Structures<'m>,
    params: &'m [Typed],
    ports: &'m [PortDecl],
    body: &'m Body,
    items: &'m [Item],
    made: &mut Made,
) -> Result<(), Memory>
    ensures { OnOk result (made.new ≡ behind_items structures.now params.now ports.now body.now items.now made.old) }
{
    let own = structures.structure(params, ports, body, items, &mut made.tables)?;
    made.makes.push(own)
}

/// Adds the items of an atomic model, which has none.
fn no_items(alloc: Global, made: &mut Made) -> Result<(), Memory>
    ensures { OnOk result (made.new ≡ no_items made.old) }
{
    made.makes.push(Seq::new(alloc))
}

/// Lays the arguments of the model that runs.
fn behind_top<'m>(
    structures: &Structures<'m>,
    name: &Id,
    args: &'m Items<Expr>,
    made: &mut Made,
) -> Result<(), Memory>
    ensures { OnOk result (made.new ≡ behind_top structures.now name.now.name args.now made.old) }
{
    let resolver = structures.resolver();
    let model = model_id(resolver.known(), name.name.as_slice())?;
    let mut scope = Names::new(resolver.alloc());
    let args = exprs(resolver, args.as_slice(), &mut scope, &mut made.tables)?;
    first_top(&mut made.top, TopCode { model, args });
    Ok(())
}

/// Keeps the first `top`.
fn first_top(top: &mut Option<TopCode>, own: TopCode)
    ensures { top.new ≡ first_top top.old own }
{
    if top.is_none() {
        *top = Some(own);
    }
}
