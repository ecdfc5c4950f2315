//! The tokens of expressions.

ghost use Rattle.std.specs.Prelude.{◌++◌, map, flat_map};
ghost use Rattle.dsde_syntax.specs.Writing.{Adds};
ghost use Rattle.dsde_syntax.specs.Grammar.{word, mark, id_tokens, joined, commas, elses, in_parens, in_brackets, in_braces, truth_tokens, expr_tokens, suffix_tokens, expr_arm_tokens, field_set_tokens, sign_tail_tokens, tail_tokens, args_tokens, if_tokens, optional, for_tokens};
ghost use Rattle.dsde_words.specs.declared.key.Key.TheVariants as key;
ghost use Rattle.dsde_syntax.specs.declared.token.Sign.TheVariants as sign;

use super::Writer;
use crate::{Boxed, Expr, ExprArm, FieldSet, Id, Key, Sign, SignTail, Suffix, Tail, Tok};

impl Writer {
    #[cycle(write_expr)]
    pub(super) fn expr(&mut self, expr: &Expr)
        ensures { Adds self.old (expr_tokens expr.now) self.new }
    {
        match expr {
            Expr::OrElse { left, right, .. } => {
                self.expr(left.get());
                self.sign(Sign::QuestionQuestion);
                self.expr(right.get());
            }
            Expr::Or { first, rest } => {
                self.expr(first.get());
                self.tails(Key::Or, rest.as_slice());
            }
            Expr::And { first, rest } => {
                self.expr(first.get());
                self.tails(Key::And, rest.as_slice());
            }
            Expr::Not { of, .. } => {
                self.word(Key::Not);
                self.expr(of.get());
            }
            Expr::Compare {
                sign,
                left,
                right,
                ..
            } => {
                self.expr(left.get());
                self.sign(*sign);
                self.expr(right.get());
            }
            Expr::Sum { first, rest } => {
                self.expr(first.get());
                self.sign_tails(rest.as_slice());
            }
            Expr::Mul { first, rest } => {
                self.expr(first.get());
                self.sign_tails(rest.as_slice());
            }
            Expr::Neg { of, .. } => {
                self.sign(Sign::Minus);
                self.expr(of.get());
            }
            Expr::Post { first, suffixes } => {
                self.expr(first.get());
                self.suffixes(suffixes.as_slice());
            }
            Expr::Number { value, .. } => self.push(Tok::Int(*value)),
            Expr::Truth { value, .. } => self.truth(*value),
            Expr::Elapsed(_) => self.word(Key::Elapsed),
            Expr::Name(id) => self.id(id),
            Expr::Call { name, args } => self.call(name, args.as_slice()),
            Expr::Variant { of, variant } => self.variant(of, variant),
            Expr::New { of, fields, .. } => self.new_record(of, fields.as_slice()),
            Expr::NoneOf { ty, .. } => self.word_of_type(Key::NoneOf, ty),
            Expr::EmptyOf { ty, .. } => self.word_of_type(Key::EmptyOf, ty),
            Expr::Builtin { which, args, .. } => self.builtin(*which, args.as_slice()),
            Expr::Paren { inner, .. } => self.expr_in_parens(inner.get()),
            Expr::List { items, .. } => self.list(items.as_slice()),
            Expr::Each {
                name,
                list,
                cond,
                value,
                ..
            } => {
                self.sign(Sign::OpenBracket);
                self.for_in(name, list.get());
                self.each_cond(cond);
                self.sign(Sign::Colon);
                self.expr(value.get());
                self.sign(Sign::CloseBracket);
            }
            Expr::If { arms, other, .. } => {
                self.expr_arms(arms.as_slice());
                self.word(Key::Else);
                self.expr_in_braces(other.get());
            }
        }
    }
}

impl Writer {
    pub(super) fn truth(&mut self, value: bool)
        ensures { Adds self.old (truth_tokens value) self.new }
    {
        self.word(if value { Key::True } else { Key::False });
    }

    pub(super) fn variant(&mut self, owner: &Id, variant: &Id)
        ensures { Adds self.old (id_tokens owner.now ++ mark sign.ColonColon ++ id_tokens variant.now) self.new }
    {
        self.id(owner);
        self.sign(Sign::ColonColon);
        self.id(variant);
    }

    /// `if cond`, if it is written.
    #[cycle(write_expr)]
    pub(super) fn each_cond(&mut self, cond: &Option<Boxed<Expr>>)
        ensures { Adds self.old (optional if_tokens cond.now) self.new }
    {
        let Some(cond) = cond else {
            return;
        };
        self.word(Key::If);
        self.expr(cond.get());
    }

    /// `for name in list`
    #[cycle(write_expr)]
    pub(super) fn for_in(&mut self, name: &Id, list: &Expr)
        ensures { Adds self.old (for_tokens name.now list.now) self.new }
    {
        self.word(Key::For);
        self.id(name);
        self.word(Key::In);
        self.expr(list);
    }

    #[cycle(write_expr)]
    pub(super) fn call(&mut self, name: &Id, args: &[Expr])
        ensures { Adds self.old (id_tokens name.now ++ args_tokens args.now) self.new }
    {
        self.id(name);
        self.args(args);
    }

    #[cycle(write_expr)]
    pub(super) fn builtin(&mut self, which: Key, args: &[Expr])
        ensures { Adds self.old (word which ++ args_tokens args.now) self.new }
    {
        self.word(which);
        self.args(args);
    }

    /// `(args)`
    #[cycle(write_expr)]
    pub(super) fn args(&mut self, args: &[Expr])
        ensures { Adds self.old (args_tokens args.now) self.new }
    {
        self.sign(Sign::OpenParen);
        self.exprs(args);
        self.sign(Sign::CloseParen);
    }

    /// `[items]`
    #[cycle(write_expr)]
    pub(super) fn list(&mut self, items: &[Expr])
        ensures { Adds self.old (in_brackets (commas (map expr_tokens items.now))) self.new }
    {
        self.sign(Sign::OpenBracket);
        self.exprs(items);
        self.sign(Sign::CloseBracket);
    }

    /// Expressions with commas between them.
    #[cycle(write_expr)]
    pub(super) fn exprs(&mut self, exprs: &[Expr])
        ensures { Adds self.old (commas (map expr_tokens exprs.now)) self.new }
    {
        let Some((first, rest)) = exprs.split_first() else {
            return;
        };
        self.expr(first);
        for expr in rest {
            self.sign(Sign::Comma);
            self.expr(expr);
        }
    }

    /// `new owner { fields }`
    #[cycle(write_expr)]
    pub(super) fn new_record(&mut self, owner: &Id, fields: &[FieldSet])
        ensures { Adds self.old (word key.New ++ id_tokens owner.now ++ in_braces (commas (map field_set_tokens fields.now))) self.new }
    {
        self.word(Key::New);
        self.id(owner);
        self.sign(Sign::OpenBrace);
        self.field_sets(fields);
        self.sign(Sign::CloseBrace);
    }

    /// The fields of a new record with commas between them.
    #[cycle(write_expr)]
    pub(super) fn field_sets(&mut self, fields: &[FieldSet])
        ensures { Adds self.old (commas (map field_set_tokens fields.now)) self.new }
    {
        let Some((first, rest)) = fields.split_first() else {
            return;
        };
        self.field_set(first);
        for field in rest {
            self.sign(Sign::Comma);
            self.field_set(field);
        }
    }

    #[cycle(write_expr)]
    pub(super) fn field_set(&mut self, field: &FieldSet)
        ensures { Adds self.old (field_set_tokens field.now) self.new }
    {
        self.id(&field.name);
        self.sign(Sign::Colon);
        self.expr(&field.value);
    }

    /// `(inner)`
    #[cycle(write_expr)]
    pub(super) fn expr_in_parens(&mut self, inner: &Expr)
        ensures { Adds self.old (in_parens (expr_tokens inner.now)) self.new }
    {
        self.sign(Sign::OpenParen);
        self.expr(inner);
        self.sign(Sign::CloseParen);
    }

    /// `{ inner }`
    #[cycle(write_expr)]
    pub(super) fn expr_in_braces(&mut self, inner: &Expr)
        ensures { Adds self.old (in_braces (expr_tokens inner.now)) self.new }
    {
        self.sign(Sign::OpenBrace);
        self.expr(inner);
        self.sign(Sign::CloseBrace);
    }

    /// The arms of a choice with `else` between them.
    #[cycle(write_expr)]
    pub(super) fn expr_arms(&mut self, arms: &[ExprArm])
        ensures { Adds self.old (elses (map expr_arm_tokens arms.now)) self.new }
    {
        let Some((first, rest)) = arms.split_first() else {
            return;
        };
        self.expr_arm(first);
        for arm in rest {
            self.word(Key::Else);
            self.expr_arm(arm);
        }
    }

    #[cycle(write_expr)]
    pub(super) fn expr_arm(&mut self, arm: &ExprArm)
        ensures { Adds self.old (expr_arm_tokens arm.now) self.new }
    {
        self.word(Key::If);
        self.expr(&arm.cond);
        self.expr_in_braces(&arm.value);
    }

    /// Operands behind the first one, each with its word before it.
    #[cycle(write_expr)]
    pub(super) fn tails(&mut self, operator: Key, tails: &[Tail])
        ensures { Adds self.old (flat_map (λ value. word operator ++ value) (map tail_tokens tails.now)) self.new }
    {
        for tail in tails {
            self.word(operator);
            self.expr(&tail.value);
        }
    }

    /// Operands behind the first one, each with its sign before it.
    #[cycle(write_expr)]
    pub(super) fn sign_tails(&mut self, tails: &[SignTail])
        ensures { Adds self.old (joined (map sign_tail_tokens tails.now)) self.new }
    {
        for tail in tails {
            self.sign(tail.sign);
            self.expr(&tail.value);
        }
    }

    #[cycle(write_expr)]
    pub(super) fn suffixes(&mut self, suffixes: &[Suffix])
        ensures { Adds self.old (joined (map suffix_tokens suffixes.now)) self.new }
    {
        for suffix in suffixes {
            self.suffix(suffix);
        }
    }

    #[cycle(write_expr)]
    pub(super) fn suffix(&mut self, suffix: &Suffix)
        ensures { Adds self.old (suffix_tokens suffix.now) self.new }
    {
        match suffix {
            Suffix::Field { name, .. } => {
                self.sign(Sign::Dot);
                self.id(name);
            }
            Suffix::Index { value, .. } => self.index(value),
            Suffix::Unwrap { .. } => self.sign(Sign::Bang),
        }
    }

    /// `[value]`
    #[cycle(write_expr)]
    pub(super) fn index(&mut self, value: &Expr)
        ensures { Adds self.old (in_brackets (expr_tokens value.now)) self.new }
    {
        self.sign(Sign::OpenBracket);
        self.expr(value);
        self.sign(Sign::CloseBracket);
    }
}
