//! The tokens of declarations.

ghost use Rattle.std.specs.Prelude.{◌++◌, map, if◌then◌else◌};
ghost use Rattle.dsde_syntax.specs.Writing.{Adds};
ghost use Rattle.dsde_syntax.specs.Grammar.{word, joined, commas, in_braces, id_tokens, typed_tokens, params_tokens, port_tokens, state_tokens, phase_tokens, phases_tokens, body_tokens, result_tokens, exec_tokens, decl_tokens};
ghost use Rattle.dsde_words.specs.declared.key.Key.TheVariants as key;

use super::Writer;
use crate::{Body, Decl, Expr, Id, Item, Key, Phase, PortDecl, Sign, StateDecl, Stmt, Typed};

impl Writer {
    pub(super) fn decls(&mut self, decls: &[Decl])
        ensures { Adds self.old (joined (map decl_tokens decls.now)) self.new }
    {
        for decl in decls {
            self.decl(decl);
        }
    }

    fn decl(&mut self, decl: &Decl)
        ensures { Adds self.old (decl_tokens decl.now) self.new }
    {
        match decl {
            Decl::Enum { name, variants } => {
                self.word(Key::Enum);
                self.id(name);
                self.variants(variants.as_slice());
            }
            Decl::Rec { name, fields } => {
                self.word(Key::Record);
                self.id(name);
                self.fields(fields.as_slice());
            }
            Decl::Func {
                name,
                params,
                result: ty,
                stmts,
                value,
            } => {
                self.word(Key::Fn);
                self.id(name);
                self.params(params.as_slice());
                self.sign(Sign::Arrow);
                self.type_name(ty);
                self.function_body(stmts.as_slice(), value);
            }
            Decl::Atomic {
                name,
                params,
                body,
                ..
            } => {
                self.word(Key::Atomic);
                self.id(name);
                self.params(params.as_slice());
                self.body_in_braces(body);
            }
            Decl::Network {
                name,
                params,
                ports,
                body,
                items,
                ..
            } => {
                self.word(Key::Network);
                self.id(name);
                self.params(params.as_slice());
                self.network(ports.as_slice(), body, items.as_slice());
            }
            Decl::Top { name, args, .. } => {
                self.word(Key::Top);
                self.call(name, args.as_slice());
                self.sign(Sign::Semicolon);
            }
        }
    }

    /// `{ variants }`
    fn variants(&mut self, variants: &[Id])
        ensures { Adds self.old (in_braces (commas (map id_tokens variants.now))) self.new }
    {
        self.sign(Sign::OpenBrace);
        self.ids(variants);
        self.sign(Sign::CloseBrace);
    }

    /// Identifiers with commas between them.
    fn ids(&mut self, ids: &[Id])
        ensures { Adds self.old (commas (map id_tokens ids.now)) self.new }
    {
        let Some((first, rest)) = ids.split_first() else {
            return;
        };
        self.id(first);
        for id in rest {
            self.sign(Sign::Comma);
            self.id(id);
        }
    }

    /// `{ fields }`
    fn fields(&mut self, fields: &[Typed])
        ensures { Adds self.old (in_braces (commas (map typed_tokens fields.now))) self.new }
    {
        self.sign(Sign::OpenBrace);
        self.all_typed(fields);
        self.sign(Sign::CloseBrace);
    }

    /// `(params)`
    fn params(&mut self, params: &[Typed])
        ensures { Adds self.old (params_tokens params.now) self.new }
    {
        self.sign(Sign::OpenParen);
        self.all_typed(params);
        self.sign(Sign::CloseParen);
    }

    /// Names with their types, with commas between them.
    fn all_typed(&mut self, all: &[Typed])
        ensures { Adds self.old (commas (map typed_tokens all.now)) self.new }
    {
        let Some((first, rest)) = all.split_first() else {
            return;
        };
        self.typed(first);
        for typed in rest {
            self.sign(Sign::Comma);
            self.typed(typed);
        }
    }

    /// `name: type`
    fn typed(&mut self, typed: &Typed)
        ensures { Adds self.old (typed_tokens typed.now) self.new }
    {
        self.id(&typed.name);
        self.sign(Sign::Colon);
        self.type_name(&typed.ty);
    }

    fn ports(&mut self, ports: &[PortDecl])
        ensures { Adds self.old (joined (map port_tokens ports.now)) self.new }
    {
        for port in ports {
            self.port(port);
        }
    }

    fn port(&mut self, port: &PortDecl)
        ensures { Adds self.old (port_tokens port.now) self.new }
    {
        self.port_word(port.out);
        self.id(&port.name);
        self.sign(Sign::Colon);
        self.type_name(&port.ty);
        self.sign(Sign::Semicolon);
    }

    /// `out`, or `in`.
    fn port_word(&mut self, out: bool)
        ensures { Adds self.old (word (if out then key.Out else key.In)) self.new }
    {
        self.word(if out { Key::Out } else { Key::In });
    }

    fn states(&mut self, states: &[StateDecl])
        ensures { Adds self.old (joined (map state_tokens states.now)) self.new }
    {
        for state in states {
            self.state(state);
        }
    }

    fn state(&mut self, state: &StateDecl)
        ensures { Adds self.old (state_tokens state.now) self.new }
    {
        self.word(Key::State);
        self.id(&state.name);
        self.sign(Sign::Colon);
        self.type_name(&state.ty);
        self.sign(Sign::Equal);
        self.expr(&state.value);
        self.sign(Sign::Semicolon);
    }

    fn body(&mut self, body: &Body)
        ensures { Adds self.old (body_tokens body.now) self.new }
    {
        self.ports(body.ports.as_slice());
        self.states(body.states.as_slice());
        self.word(Key::Advance);
        self.expr(&body.advance);
        self.sign(Sign::Semicolon);
        self.phases(body);
    }

    /// The blocks of the phases, each where it is written.
    fn phases(&mut self, body: &Body)
        ensures { Adds self.old (phases_tokens body.now) self.new }
    {
        self.phase(Key::Output, &body.output);
        self.phase(Key::Internal, &body.internal);
        self.phase(Key::External, &body.external);
        self.phase(Key::Confluent, &body.confluent);
    }

    /// The block of a phase behind the phase's word, if it is written.
    fn phase(&mut self, begins: Key, phase: &Option<Phase>)
        ensures { Adds self.old (phase_tokens begins phase.now) self.new }
    {
        let Some(phase) = phase else {
            return;
        };
        self.word(begins);
        self.block(phase.stmts.as_slice());
    }

    /// `{ stmts return value; }`
    fn function_body(&mut self, stmts: &[Stmt], value: &Expr)
        ensures { Adds self.old (result_tokens stmts.now value.now) self.new }
    {
        self.sign(Sign::OpenBrace);
        self.stmts(stmts);
        self.word(Key::Return);
        self.expr(value);
        self.sign(Sign::Semicolon);
        self.sign(Sign::CloseBrace);
    }

    /// `{ body }`
    fn body_in_braces(&mut self, body: &Body)
        ensures { Adds self.old (in_braces (body_tokens body.now)) self.new }
    {
        self.sign(Sign::OpenBrace);
        self.body(body);
        self.sign(Sign::CloseBrace);
    }

    /// `{ ports exec .. }`
    fn network(&mut self, ports: &[PortDecl], body: &Body, items: &[Item])
        ensures { Adds self.old (in_braces (joined (map port_tokens ports.now) ++ exec_tokens body.now items.now)) self.new }
    {
        self.sign(Sign::OpenBrace);
        self.ports(ports);
        self.executive(body, items);
        self.sign(Sign::CloseBrace);
    }

    /// `exec { body structure items }`
    fn executive(&mut self, body: &Body, items: &[Item])
        ensures { Adds self.old (exec_tokens body.now items.now) self.new }
    {
        self.word(Key::Exec);
        self.sign(Sign::OpenBrace);
        self.body(body);
        self.word(Key::Structure);
        self.items(items);
        self.sign(Sign::CloseBrace);
    }
}
