//! The tokens of statements.

ghost use Rattle.std.specs.Prelude.{◌++◌, map};
ghost use Rattle.dsde_syntax.specs.Writing.{Adds};
ghost use Rattle.dsde_syntax.specs.Grammar.{word, mark, id_tokens, joined, elses, in_parens, block, else_block, expr_tokens, let_tokens, set_tokens, if_tokens, stmt_tokens, stmt_arm_tokens};
ghost use Rattle.dsde_words.specs.declared.key.Key.TheVariants as key;
ghost use Rattle.dsde_syntax.specs.declared.token.Sign.TheVariants as sign;

use super::Writer;
use crate::{Expr, Id, Key, Sign, Stmt, StmtArm};

impl Writer {
    /// `name = value;`
    pub(super) fn set(&mut self, name: &Id, value: &Expr)
        ensures { Adds self.old (set_tokens name.now value.now) self.new }
    {
        self.id(name);
        self.sign(Sign::Equal);
        self.expr(value);
        self.sign(Sign::Semicolon);
    }

    /// `let`, or `var` where the name may be assigned to.
    fn let_word(&mut self, mutable: bool)
        ensures { Adds self.old (let_tokens mutable) self.new }
    {
        self.word(if mutable { Key::Var } else { Key::Let });
    }

    /// `if cond`
    pub(super) fn if_cond(&mut self, cond: &Expr)
        ensures { Adds self.old (if_tokens cond.now) self.new }
    {
        self.word(Key::If);
        self.expr(cond);
    }

    /// `let name = value;`, or `var name = value;`
    fn let_stmt(&mut self, mutable: bool, name: &Id, value: &Expr)
        ensures { Adds self.old (let_tokens mutable ++ set_tokens name.now value.now) self.new }
    {
        self.let_word(mutable);
        self.set(name, value);
    }

    /// `send port(value);`
    fn send(&mut self, port: &Id, value: &Expr)
        ensures { Adds self.old (word key.Send ++ id_tokens port.now ++ in_parens (expr_tokens value.now) ++ mark sign.Semicolon) self.new }
    {
        self.word(Key::Send);
        self.id(port);
        self.expr_in_parens(value);
        self.sign(Sign::Semicolon);
    }

    #[cycle(write_stmt)]
    fn stmt(&mut self, stmt: &Stmt)
        ensures { Adds self.old (stmt_tokens stmt.now) self.new }
    {
        match stmt {
            Stmt::Let {
                mutable,
                name,
                value,
            } => self.let_stmt(*mutable, name, value),
            Stmt::Set { name, value } => self.set(name, value),
            Stmt::Send { port, value } => self.send(port, value),
            Stmt::If { arms, other } => {
                self.stmt_arms(arms.as_slice());
                match other {
                    Some(body) => self.else_block(body.as_slice()),
                    None => {}
                }
            }
            Stmt::For { name, list, body } => {
                self.for_in(name, list);
                self.block(body.as_slice());
            }
        }
    }

    /// `else { body }`
    #[cycle(write_stmt)]
    fn else_block(&mut self, body: &[Stmt])
        ensures { Adds self.old (else_block (map stmt_tokens body.now)) self.new }
    {
        self.word(Key::Else);
        self.block(body);
    }

    /// `{ body }`
    #[cycle(write_stmt)]
    pub(super) fn block(&mut self, body: &[Stmt])
        ensures { Adds self.old (block (map stmt_tokens body.now)) self.new }
    {
        self.sign(Sign::OpenBrace);
        self.stmts(body);
        self.sign(Sign::CloseBrace);
    }

    #[cycle(write_stmt)]
    pub(super) fn stmts(&mut self, stmts: &[Stmt])
        ensures { Adds self.old (joined (map stmt_tokens stmts.now)) self.new }
    {
        for stmt in stmts {
            self.stmt(stmt);
        }
    }

    /// The arms of a choice with `else` between them.
    #[cycle(write_stmt)]
    fn stmt_arms(&mut self, arms: &[StmtArm])
        ensures { Adds self.old (elses (map stmt_arm_tokens arms.now)) self.new }
    {
        let Some((first, rest)) = arms.split_first() else {
            return;
        };
        self.stmt_arm(first);
        for arm in rest {
            self.word(Key::Else);
            self.stmt_arm(arm);
        }
    }

    #[cycle(write_stmt)]
    fn stmt_arm(&mut self, arm: &StmtArm)
        ensures { Adds self.old (stmt_arm_tokens arm.now) self.new }
    {
        self.if_cond(&arm.cond);
        self.block(arm.body.as_slice());
    }
}
