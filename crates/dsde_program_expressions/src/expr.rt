//! Expressions, and lists of them.

ghost use Rattle.std.specs.Prelude.{◌≡◌, ◌+◌, ◌-◌, ◌<◌, ◌≤◌, length, map, slice_set, take, IfOk, OnOk};
ghost use Rattle.std.specs.Option.{option_map};
ghost use Rattle.dsde_values.specs.declared.types.Ty.TheVariants as own;
ghost use Rattle.dsde_language.specs.declared.node.Node.TheVariants as made;
ghost use Rattle.dsde_language.specs.Expressions.{expr_id};
ghost use Rattle.dsde_language.specs.Names.{type_number, with_slot};
ghost use Rattle.dsde_language.specs.Typing.{func_number, func_type, item_in};
ghost use Rattle.dsde_program_layout.specs.Lay.{lay, lay_all, numbers, head_type, lay_links, lay_parts, lay_builtin, lay_cond, cond_number, lay_arms, arm_numbers, lay_arm, lay_set, lay_suffix, lay_sign_tail, lay_tail, words_of, roomy, rooms};

use crate::leaves::{elapsed, number};
use crate::resolver::{Laid, Resolver};
use crate::signs::{builtin_node, sign_binary};
use crate::table::{kept, leaf, put, room};
use dsde_language::given::names::Names;
use dsde_language::{Binary, ExprId, Node, NodeArm};
use dsde_program_layout::laid_is;
use dsde_program_slots::given::check_tables::{Member, list_type};
use dsde_program_slots::{
    bind, builtin_type, func_number, func_type, held_in, item_in, type_number,
};
use dsde_syntax::given::lists::Memory;
use dsde_syntax::{Boxed, Expr, ExprArm, FieldSet, Id, Key, SignTail, Suffix, Tail};
use dsde_values::{Seq, Ty};

/// The number of a node that room is kept for, and that of its first part, behind it.
#[derive(Clone, Copy)]
struct Begun {
    own: u32,
    part: ExprId,
}

/// The number of a node that room is kept for, the numbers of its parts, behind it, and the type of the
/// first one.
#[derive(Drop)]
struct Parts {
    own: u32,
    numbers: Seq<ExprId>,
    first: Ty,
}

impl<'m> Resolver<'m> {
    /// Lays an expression behind a table, over the names that are seen.
    #[cycle(resolving)]
    pub fn expr(
        &self,
        expr: &'m Expr,
        scope: &mut Names<Member<'m>>,
        nodes: &mut Seq<Node>,
    ) -> Result<Laid, Memory>
        ensures number { IfOk result (λ laid. laid.number ≡ expr_id (length nodes.old)) }
        ensures ty { IfOk result (λ laid. laid.ty ≡ (lay self.now expr.now scope.old nodes.old).ty) }
        ensures nodes { OnOk result (nodes.new ≡ (lay self.now expr.now scope.old nodes.old).table) }
        ensures scope { OnOk result (scope.new ≡ scope.old) }
        ensures grows { OnOk result (length nodes.old ≤ length nodes.new) }
    {
        laid_is();
        self.form(expr, scope, nodes)
    }

    /// Lays an expression by its form.
    #[cycle(resolving)]
    fn form(
        &self,
        expr: &'m Expr,
        scope: &mut Names<Member<'m>>,
        nodes: &mut Seq<Node>,
    ) -> Result<Laid, Memory>
        ensures number { IfOk result (λ laid. laid.number ≡ expr_id (length nodes.old)) }
        ensures ty { IfOk result (λ laid. laid.ty ≡ (lay self.now expr.now scope.old nodes.old).ty) }
        ensures nodes { OnOk result (nodes.new ≡ (lay self.now expr.now scope.old nodes.old).table) }
        ensures scope { OnOk result (scope.new ≡ scope.old) }
    {
        match expr {
            Expr::OrElse { left, right, .. } => {
                let begun = self.begin(left.get(), scope, nodes)?;
                let other = self.expr(right.get(), scope, nodes)?;
                Ok(put(
                    nodes,
                    other.ty,
                    begun.own,
                    Node::OrElse(begun.part, other.number),
                ))
            }
            Expr::Or { first, rest } => {
                let left = self.before_words(
                    first.get(),
                    Binary::Or,
                    rest.as_slice(),
                    scope,
                    nodes,
                )?;
                self.tails(Binary::Or, rest.as_slice(), left, scope, nodes)
            }
            Expr::And { first, rest } => {
                let left = self.before_words(
                    first.get(),
                    Binary::And,
                    rest.as_slice(),
                    scope,
                    nodes,
                )?;
                self.tails(Binary::And, rest.as_slice(), left, scope, nodes)
            }
            Expr::Not { of, .. } => {
                let begun = self.begin(of.get(), scope, nodes)?;
                Ok(put(nodes, Ty::Bool, begun.own, Node::Not(begun.part)))
            }
            Expr::Compare {
                sign,
                at,
                left,
                right,
            } => {
                let begun = self.begin(left.get(), scope, nodes)?;
                let other = self.expr(right.get(), scope, nodes)?;
                Ok(put(
                    nodes,
                    Ty::Bool,
                    begun.own,
                    Node::Binary(sign_binary(*sign), *at, begun.part, other.number),
                ))
            }
            Expr::Sum { first, rest } => {
                let left = self.before_signs(first.get(), rest.as_slice(), scope, nodes)?;
                self.sign_tails(rest.as_slice(), left, scope, nodes)
            }
            Expr::Mul { first, rest } => {
                let left = self.before_signs(first.get(), rest.as_slice(), scope, nodes)?;
                self.sign_tails(rest.as_slice(), left, scope, nodes)
            }
            Expr::Neg { at, of } => {
                let begun = self.begin(of.get(), scope, nodes)?;
                Ok(put(nodes, Ty::Int, begun.own, Node::Neg(*at, begun.part)))
            }
            Expr::Post { first, suffixes } => {
                let left = self.before_suffixes(first.get(), suffixes.as_slice(), scope, nodes)?;
                self.suffixes(suffixes.as_slice(), left, scope, nodes)
            }
            Expr::Number { value, .. } => number(*value, nodes),
            Expr::Truth { value, .. } => leaf(nodes, Ty::Bool, Node::Bool(*value)),
            Expr::Elapsed(_) => elapsed(scope, nodes),
            Expr::Name(id) => self.name(id, scope, nodes),
            Expr::Call { name, args } => self.call(name, args.as_slice(), scope, nodes),
            Expr::Variant { of, variant } => self.variant(of, variant, nodes),
            Expr::New { of, fields, .. } => self.record(of, fields.as_slice(), scope, nodes),
            Expr::NoneOf { ty, .. } => self.none(ty, nodes),
            Expr::EmptyOf { ty, .. } => self.empty(ty, nodes),
            Expr::Builtin { which, at, args } => {
                self.builtin(*which, *at, args.as_slice(), scope, nodes)
            }
            Expr::Paren { inner, .. } => self.expr(inner.get(), scope, nodes),
            Expr::List { at, items } => self.list(*at, items.as_slice(), scope, nodes),
            Expr::Each {
                name,
                list,
                cond,
                value,
                ..
            } => {
                let depth = scope.len();
                let begun = self.over(list.get(), name, scope, nodes)?;
                let test = self.cond(cond, scope, nodes)?;
                let part = self.expr(value.get(), scope, nodes)?;
                scope.truncate(depth);
                let ty = list_type(self.alloc(), part.ty)?;
                Ok(put(
                    nodes,
                    ty,
                    begun.own,
                    Node::Each {
                        list: begun.part,
                        cond: test,
                        value: part.number,
                    },
                ))
            }
            Expr::If { arms, other, .. } => {
                let own = room(nodes)?;
                let found = self.arms(arms.as_slice(), scope, nodes)?;
                self.last(other.get(), own, found, scope, nodes)
            }
        }
    }

    /// Keeps room for a node, and lays its first part behind it.
    #[cycle(resolving)]
    fn begin(
        &self,
        expr: &'m Expr,
        scope: &mut Names<Member<'m>>,
        nodes: &mut Seq<Node>,
    ) -> Result<Begun, Memory>
        ensures own { IfOk result (λ begun. begun.own ≡ length nodes.old) }
        ensures part { IfOk result (λ begun. begun.part ≡ expr_id (length (roomy nodes.old))) }
        ensures nodes { OnOk result (nodes.new ≡ (lay self.now expr.now scope.old (roomy nodes.old)).table) }
        ensures scope { OnOk result (scope.new ≡ scope.old) }
    {
        let own = room(nodes)?;
        let laid = self.expr(expr, scope, nodes)?;
        Ok(Begun {
            own,
            part: laid.number,
        })
    }

    /// Keeps room for a comprehension, lays its list behind it, and adds the name of the items.
    #[cycle(resolving)]
    fn over(
        &self,
        list: &'m Expr,
        name: &'m Id,
        scope: &mut Names<Member<'m>>,
        nodes: &mut Seq<Node>,
    ) -> Result<Begun, Memory>
        ensures own { IfOk result (λ begun. begun.own ≡ length nodes.old) }
        ensures part { IfOk result (λ begun. begun.part ≡ expr_id (length (roomy nodes.old))) }
        ensures nodes { OnOk result (nodes.new ≡ (lay self.now list.now scope.old (roomy nodes.old)).table) }
        ensures scope { OnOk result (scope.new ≡ with_slot scope.old name.now.name (item_in (lay self.now list.now scope.old (roomy nodes.old)).ty)) }
        ensures front { OnOk result (take (length scope.old) scope.new ≡ scope.old) }
    {
        let own = room(nodes)?;
        let items = self.expr(list, scope, nodes)?;
        bind(scope, name.name.as_slice(), item_in(items.ty))?;
        Ok(Begun {
            own,
            part: items.number,
        })
    }

    /// Lays what stands before the first `or` or `and` of a chain, behind room for their nodes.
    #[cycle(resolving)]
    fn before_words(
        &self,
        first: &'m Expr,
        which: Binary,
        rest: &[Tail],
        scope: &mut Names<Member<'m>>,
        nodes: &mut Seq<Node>,
    ) -> Result<Laid, Memory>
        ensures number { IfOk result (λ laid. laid.number ≡ expr_id (length (rooms (length (words_of which (map (lay_tail self.now) rest.now))) nodes.old))) }
        ensures ty { IfOk result (λ laid. laid.ty ≡ (lay self.now first.now scope.old (rooms (length (words_of which (map (lay_tail self.now) rest.now))) nodes.old)).ty) }
        ensures nodes { OnOk result (nodes.new ≡ (lay self.now first.now scope.old (rooms (length (words_of which (map (lay_tail self.now) rest.now))) nodes.old)).table) }
        ensures room { OnOk result (length (rooms (length (words_of which (map (lay_tail self.now) rest.now))) nodes.old) ≡ length nodes.old + length rest.now) }
        ensures scope { OnOk result (scope.new ≡ scope.old) }
    {
        self.word_rooms(which, rest, nodes)?;
        self.expr(first, scope, nodes)
    }

    /// Lays what stands before the first sign of a chain, behind room for their nodes.
    #[cycle(resolving)]
    fn before_signs(
        &self,
        first: &'m Expr,
        rest: &[SignTail],
        scope: &mut Names<Member<'m>>,
        nodes: &mut Seq<Node>,
    ) -> Result<Laid, Memory>
        ensures number { IfOk result (λ laid. laid.number ≡ expr_id (length (rooms (length (map (lay_sign_tail self.now) rest.now)) nodes.old))) }
        ensures ty { IfOk result (λ laid. laid.ty ≡ (lay self.now first.now scope.old (rooms (length (map (lay_sign_tail self.now) rest.now)) nodes.old)).ty) }
        ensures nodes { OnOk result (nodes.new ≡ (lay self.now first.now scope.old (rooms (length (map (lay_sign_tail self.now) rest.now)) nodes.old)).table) }
        ensures room { OnOk result (length (rooms (length (map (lay_sign_tail self.now) rest.now)) nodes.old) ≡ length nodes.old + length rest.now) }
        ensures scope { OnOk result (scope.new ≡ scope.old) }
    {
        self.sign_rooms(rest, nodes)?;
        self.expr(first, scope, nodes)
    }

    /// Lays what stands before the first suffix of a chain, behind room for their nodes.
    #[cycle(resolving)]
    fn before_suffixes(
        &self,
        first: &'m Expr,
        rest: &[Suffix],
        scope: &mut Names<Member<'m>>,
        nodes: &mut Seq<Node>,
    ) -> Result<Laid, Memory>
        ensures number { IfOk result (λ laid. laid.number ≡ expr_id (length (rooms (length (map (lay_suffix self.now) rest.now)) nodes.old))) }
        ensures ty { IfOk result (λ laid. laid.ty ≡ (lay self.now first.now scope.old (rooms (length (map (lay_suffix self.now) rest.now)) nodes.old)).ty) }
        ensures nodes { OnOk result (nodes.new ≡ (lay self.now first.now scope.old (rooms (length (map (lay_suffix self.now) rest.now)) nodes.old)).table) }
        ensures room { OnOk result (length (rooms (length (map (lay_suffix self.now) rest.now)) nodes.old) ≡ length nodes.old + length rest.now) }
        ensures scope { OnOk result (scope.new ≡ scope.old) }
    {
        self.suffix_rooms(rest, nodes)?;
        self.expr(first, scope, nodes)
    }

    /// Lays the parts of a node behind room for it.
    #[cycle(resolving)]
    fn parts(
        &self,
        exprs: &'m [Expr],
        scope: &mut Names<Member<'m>>,
        nodes: &mut Seq<Node>,
    ) -> Result<Parts, Memory>
        ensures own { IfOk result (λ parts. parts.own ≡ length nodes.old) }
        ensures numbers { IfOk result (λ parts. parts.numbers ≡ numbers (map (lay self.now) exprs.now) scope.old (roomy nodes.old)) }
        ensures first { IfOk result (λ parts. parts.first ≡ head_type (map (lay self.now) exprs.now) scope.old (roomy nodes.old)) }
        ensures nodes { OnOk result (nodes.new ≡ lay_all (map (lay self.now) exprs.now) scope.old (roomy nodes.old)) }
        ensures scope { OnOk result (scope.new ≡ scope.old) }
    {
        let own = room(nodes)?;
        let mut numbers = Seq::new(self.alloc());
        let mut first = None;
        for expr in exprs {
            let laid = self.expr(expr, scope, nodes)?;
            numbers.push(laid.number)?;
            first = kept(first, laid.ty);
        }
        Ok(Parts {
            own,
            numbers,
            first: first.unwrap_or(Ty::Int),
        })
    }

    /// Lays a call.
    #[cycle(resolving)]
    fn call(
        &self,
        name: &Id,
        args: &'m [Expr],
        scope: &mut Names<Member<'m>>,
        nodes: &mut Seq<Node>,
    ) -> Result<Laid, Memory>
        ensures number { IfOk result (λ laid. laid.number ≡ expr_id (length nodes.old)) }
        ensures ty { IfOk result (λ laid. laid.ty ≡ func_type self.now name.now.name) }
        ensures nodes { OnOk result (nodes.new ≡ (lay_parts (func_type self.now name.now.name) (made.Call (func_number self.now name.now.name)) (map (lay self.now) args.now) scope.old nodes.old).table) }
        ensures scope { OnOk result (scope.new ≡ scope.old) }
    {
        let function = func_number(self.known(), name.name.as_slice())?;
        let parts = self.parts(args, scope, nodes)?;
        let ty = func_type(self.alloc(), self.known(), name.name.as_slice())?;
        Ok(put(nodes, ty, parts.own, Node::Call(function, parts.numbers)))
    }

    /// Lays a builtin and its arguments.
    #[cycle(resolving)]
    fn builtin(
        &self,
        which: Key,
        at: u32,
        args: &'m [Expr],
        scope: &mut Names<Member<'m>>,
        nodes: &mut Seq<Node>,
    ) -> Result<Laid, Memory>
        ensures number { IfOk result (λ laid. laid.number ≡ expr_id (length nodes.old)) }
        ensures ty { IfOk result (λ laid. laid.ty ≡ (lay_builtin which at (map (lay self.now) args.now) scope.old nodes.old).ty) }
        ensures nodes { OnOk result (nodes.new ≡ (lay_builtin which at (map (lay self.now) args.now) scope.old nodes.old).table) }
        ensures scope { OnOk result (scope.new ≡ scope.old) }
    {
        let parts = self.parts(args, scope, nodes)?;
        let ty = builtin_type(self.alloc(), which, parts.first)?;
        Ok(put(nodes, ty, parts.own, builtin_node(which, at, parts.numbers)))
    }

    /// Lays a list of its items.
    #[cycle(resolving)]
    fn list(
        &self,
        at: u32,
        items: &'m [Expr],
        scope: &mut Names<Member<'m>>,
        nodes: &mut Seq<Node>,
    ) -> Result<Laid, Memory>
        ensures number { IfOk result (λ laid. laid.number ≡ expr_id (length nodes.old)) }
        ensures ty { IfOk result (λ laid. laid.ty ≡ own.List (head_type (map (lay self.now) items.now) scope.old (roomy nodes.old))) }
        ensures nodes { OnOk result (nodes.new ≡ (lay_parts (own.List (head_type (map (lay self.now) items.now) scope.old (roomy nodes.old))) (made.List at) (map (lay self.now) items.now) scope.old nodes.old).table) }
        ensures scope { OnOk result (scope.new ≡ scope.old) }
    {
        let parts = self.parts(items, scope, nodes)?;
        let ty = list_type(self.alloc(), parts.first)?;
        Ok(put(nodes, ty, parts.own, Node::List(at, parts.numbers)))
    }

    /// Lays a new record.
    #[cycle(resolving)]
    fn record(
        &self,
        owner: &Id,
        sets: &'m [FieldSet],
        scope: &mut Names<Member<'m>>,
        nodes: &mut Seq<Node>,
    ) -> Result<Laid, Memory>
        ensures number { IfOk result (λ laid. laid.number ≡ expr_id (length nodes.old)) }
        ensures ty { IfOk result (λ laid. laid.ty ≡ own.Rec (type_number self.now owner.now.name)) }
        ensures nodes { OnOk result (nodes.new ≡ (lay_parts (own.Rec (type_number self.now owner.now.name)) (made.New (type_number self.now owner.now.name)) (map (lay_set self.now) sets.now) scope.old nodes.old).table) }
        ensures scope { OnOk result (scope.new ≡ scope.old) }
    {
        let of = type_number(self.known(), owner.name.as_slice())?;
        let own = room(nodes)?;
        let found = self.sets(sets, scope, nodes)?;
        Ok(put(nodes, Ty::Rec(of), own, Node::New(of, found)))
    }

    /// Lays the values of a new record.
    #[cycle(resolving)]
    fn sets(
        &self,
        sets: &'m [FieldSet],
        scope: &mut Names<Member<'m>>,
        nodes: &mut Seq<Node>,
    ) -> Result<Seq<ExprId>, Memory>
        ensures numbers { IfOk result (λ found. found ≡ numbers (map (lay_set self.now) sets.now) scope.old nodes.old) }
        ensures nodes { OnOk result (nodes.new ≡ lay_all (map (lay_set self.now) sets.now) scope.old nodes.old) }
        ensures scope { OnOk result (scope.new ≡ scope.old) }
    {
        let mut found = Seq::new(self.alloc());
        for set in sets {
            let laid = self.expr(&set.value, scope, nodes)?;
            found.push(laid.number)?;
        }
        Ok(found)
    }

    /// Lays a condition, if there is one.
    #[cycle(resolving)]
    fn cond(
        &self,
        cond: &'m Option<Boxed<Expr>>,
        scope: &mut Names<Member<'m>>,
        nodes: &mut Seq<Node>,
    ) -> Result<Option<ExprId>, Memory>
        ensures number { IfOk result (λ found. found ≡ cond_number (option_map (lay self.now) cond.now) nodes.old) }
        ensures nodes { OnOk result (nodes.new ≡ lay_cond (option_map (lay self.now) cond.now) scope.old nodes.old) }
        ensures scope { OnOk result (scope.new ≡ scope.old) }
    {
        match cond {
            None => Ok(None),
            Some(cond) => {
                let laid = self.expr(cond.get(), scope, nodes)?;
                Ok(Some(laid.number))
            }
        }
    }

    /// Lays the arms of an `if`.
    #[cycle(resolving)]
    fn arms(
        &self,
        arms: &'m [ExprArm],
        scope: &mut Names<Member<'m>>,
        nodes: &mut Seq<Node>,
    ) -> Result<Seq<NodeArm>, Memory>
        ensures numbers { IfOk result (λ found. found ≡ arm_numbers (map (lay_arm self.now) arms.now) scope.old nodes.old) }
        ensures nodes { OnOk result (nodes.new ≡ lay_arms (map (lay_arm self.now) arms.now) scope.old nodes.old) }
        ensures scope { OnOk result (scope.new ≡ scope.old) }
    {
        let mut found = Seq::new(self.alloc());
        for arm in arms {
            found.push(self.arm(arm, scope, nodes)?)?;
        }
        Ok(found)
    }

    /// Lays what an `if` gives where no arm is taken, and puts its node before its arms.
    #[cycle(resolving)]
    fn last(
        &self,
        other: &'m Expr,
        own: u32,
        found: Seq<NodeArm>,
        scope: &mut Names<Member<'m>>,
        nodes: &mut Seq<Node>,
    ) -> Result<Laid, Memory>
        ensures number { IfOk result (λ laid. laid.number ≡ expr_id own) }
        ensures ty { IfOk result (λ laid. laid.ty ≡ (lay self.now other.now scope.old nodes.old).ty) }
        ensures nodes { OnOk result (nodes.new ≡ slice_set (lay self.now other.now scope.old nodes.old).table own (made.If found (expr_id (length nodes.old)))) }
        ensures scope { OnOk result (scope.new ≡ scope.old) }
    {
        let last = self.expr(other, scope, nodes)?;
        Ok(put(nodes, last.ty, own, Node::If(found, last.number)))
    }

    /// Lays an arm of an `if`: its condition, and behind it its value.
    #[cycle(resolving)]
    fn arm(
        &self,
        arm: &'m ExprArm,
        scope: &mut Names<Member<'m>>,
        nodes: &mut Seq<Node>,
    ) -> Result<NodeArm, Memory>
        ensures numbers { IfOk result (λ found. found ≡ record { cond = expr_id (length nodes.old); value = expr_id (length ((lay_arm self.now arm.now).cond scope.old nodes.old).table) }) }
        ensures nodes { OnOk result (nodes.new ≡ ((lay_arm self.now arm.now).value scope.old ((lay_arm self.now arm.now).cond scope.old nodes.old).table).table) }
        ensures scope { OnOk result (scope.new ≡ scope.old) }
    {
        let test = self.expr(&arm.cond, scope, nodes)?;
        let own = self.expr(&arm.value, scope, nodes)?;
        Ok(NodeArm {
            cond: test.number,
            value: own.number,
        })
    }

    /// Lays what `or` and `and` join, each with its node in front of what stands to its left.
    #[cycle(resolving)]
    fn tails(
        &self,
        which: Binary,
        links: &'m [Tail],
        first: Laid,
        scope: &mut Names<Member<'m>>,
        nodes: &mut Seq<Node>,
    ) -> Result<Laid, Memory>
        requires room { length links.now ≤ first.number.0 }
        ensures number { IfOk result (λ laid. laid.number ≡ expr_id (first.number.0 - length links.now)) }
        ensures ty { IfOk result (λ laid. laid.ty ≡ (lay_links (words_of which (map (lay_tail self.now) links.now)) first.ty scope.old first.number.0 nodes.old).ty) }
        ensures nodes { OnOk result (nodes.new ≡ (lay_links (words_of which (map (lay_tail self.now) links.now)) first.ty scope.old first.number.0 nodes.old).table) }
        ensures scope { OnOk result (scope.new ≡ scope.old) }
    {
        let mut left = first;
        for link in links {
            left = self.tail(which, link, left, scope, nodes)?;
        }
        Ok(left)
    }

    /// Lays what `or` or `and` joins.
    #[cycle(resolving)]
    fn tail(
        &self,
        which: Binary,
        tail: &'m Tail,
        left: Laid,
        scope: &mut Names<Member<'m>>,
        nodes: &mut Seq<Node>,
    ) -> Result<Laid, Memory>
        requires above { 0 < left.number.0 }
        ensures number { IfOk result (λ laid. laid.number ≡ expr_id (left.number.0 - 1)) }
        ensures ty { IfOk result (λ laid. laid.ty ≡ (lay_tail self.now tail.now which left.ty scope.old left.number.0 nodes.old).ty) }
        ensures nodes { OnOk result (nodes.new ≡ (lay_tail self.now tail.now which left.ty scope.old left.number.0 nodes.old).table) }
        ensures scope { OnOk result (scope.new ≡ scope.old) }
    {
        let own = left.number.0;
        let part = self.expr(&tail.value, scope, nodes)?;
        Ok(put(
            nodes,
            Ty::Bool,
            own - 1,
            Node::Binary(which, tail.at, ExprId(own), part.number),
        ))
    }

    /// Lays what signs join, each with its node in front of what stands to its left.
    #[cycle(resolving)]
    fn sign_tails(
        &self,
        links: &'m [SignTail],
        first: Laid,
        scope: &mut Names<Member<'m>>,
        nodes: &mut Seq<Node>,
    ) -> Result<Laid, Memory>
        requires room { length links.now ≤ first.number.0 }
        ensures number { IfOk result (λ laid. laid.number ≡ expr_id (first.number.0 - length links.now)) }
        ensures ty { IfOk result (λ laid. laid.ty ≡ (lay_links (map (lay_sign_tail self.now) links.now) first.ty scope.old first.number.0 nodes.old).ty) }
        ensures nodes { OnOk result (nodes.new ≡ (lay_links (map (lay_sign_tail self.now) links.now) first.ty scope.old first.number.0 nodes.old).table) }
        ensures scope { OnOk result (scope.new ≡ scope.old) }
    {
        let mut left = first;
        for link in links {
            left = self.sign_tail(link, left, scope, nodes)?;
        }
        Ok(left)
    }

    /// Lays what a sign joins.
    #[cycle(resolving)]
    fn sign_tail(
        &self,
        tail: &'m SignTail,
        left: Laid,
        scope: &mut Names<Member<'m>>,
        nodes: &mut Seq<Node>,
    ) -> Result<Laid, Memory>
        requires above { 0 < left.number.0 }
        ensures number { IfOk result (λ laid. laid.number ≡ expr_id (left.number.0 - 1)) }
        ensures ty { IfOk result (λ laid. laid.ty ≡ (lay_sign_tail self.now tail.now left.ty scope.old left.number.0 nodes.old).ty) }
        ensures nodes { OnOk result (nodes.new ≡ (lay_sign_tail self.now tail.now left.ty scope.old left.number.0 nodes.old).table) }
        ensures scope { OnOk result (scope.new ≡ scope.old) }
    {
        let own = left.number.0;
        let part = self.expr(&tail.value, scope, nodes)?;
        Ok(put(
            nodes,
            left.ty,
            own - 1,
            Node::Binary(sign_binary(tail.sign), tail.at, ExprId(own), part.number),
        ))
    }

    /// Lays suffixes, each with its node in front of what stands to its left.
    #[cycle(resolving)]
    fn suffixes(
        &self,
        links: &'m [Suffix],
        first: Laid,
        scope: &mut Names<Member<'m>>,
        nodes: &mut Seq<Node>,
    ) -> Result<Laid, Memory>
        requires room { length links.now ≤ first.number.0 }
        ensures number { IfOk result (λ laid. laid.number ≡ expr_id (first.number.0 - length links.now)) }
        ensures ty { IfOk result (λ laid. laid.ty ≡ (lay_links (map (lay_suffix self.now) links.now) first.ty scope.old first.number.0 nodes.old).ty) }
        ensures nodes { OnOk result (nodes.new ≡ (lay_links (map (lay_suffix self.now) links.now) first.ty scope.old first.number.0 nodes.old).table) }
        ensures scope { OnOk result (scope.new ≡ scope.old) }
    {
        let mut left = first;
        for link in links {
            left = self.suffix(link, left, scope, nodes)?;
        }
        Ok(left)
    }

    /// Lays a suffix.
    #[cycle(resolving)]
    fn suffix(
        &self,
        suffix: &'m Suffix,
        left: Laid,
        scope: &mut Names<Member<'m>>,
        nodes: &mut Seq<Node>,
    ) -> Result<Laid, Memory>
        requires above { 0 < left.number.0 }
        ensures number { IfOk result (λ laid. laid.number ≡ expr_id (left.number.0 - 1)) }
        ensures ty { IfOk result (λ laid. laid.ty ≡ (lay_suffix self.now suffix.now left.ty scope.old left.number.0 nodes.old).ty) }
        ensures nodes { OnOk result (nodes.new ≡ (lay_suffix self.now suffix.now left.ty scope.old left.number.0 nodes.old).table) }
        ensures scope { OnOk result (scope.new ≡ scope.old) }
    {
        let own = left.number.0;
        match suffix {
            Suffix::Field { name, .. } => self.field(name, left, nodes),
            Suffix::Index { at, value } => {
                let part = self.expr(value, scope, nodes)?;
                Ok(put(
                    nodes,
                    item_in(left.ty),
                    own - 1,
                    Node::Index(*at, ExprId(own), part.number),
                ))
            }
            Suffix::Unwrap { at } => Ok(put(
                nodes,
                held_in(left.ty),
                own - 1,
                Node::Unwrap(*at, ExprId(own)),
            )),
        }
    }
}
