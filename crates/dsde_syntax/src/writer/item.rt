//! The tokens of items.

ghost use Rattle.std.specs.Prelude.{◌++◌, map};
ghost use Rattle.dsde_syntax.specs.Writing.{Adds};
ghost use Rattle.dsde_syntax.specs.Grammar.{word, mark, elses, block, else_block, optional, in_parens, id_tokens, args_tokens, set_tokens, component_tokens, entry_mark, end_part_tokens, end_tokens, link_tokens, via_key_tokens, via_tokens, item_tokens, item_arm_tokens};
ghost use Rattle.dsde_words.specs.declared.key.Key.TheVariants as key;
ghost use Rattle.dsde_syntax.specs.declared.token.Sign.TheVariants as sign;

use super::Writer;
use crate::{Bracket, End, EndPart, Expr, Id, Item, ItemArm, Key, Sign, ViaKey, ViaPart};

impl Writer {
    /// `name[index]`, or `name` alone.
    fn component(&mut self, name: &Id, index: &Option<Bracket>)
        ensures { Adds self.old (component_tokens name.now index.now) self.new }
    {
        self.id(name);
        match index {
            Some(bracket) => self.index(&bracket.value),
            None => {}
        }
    }

    fn end_part(&mut self, part: &EndPart)
        ensures { Adds self.old (end_part_tokens part.now) self.new }
    {
        match part {
            EndPart::Net => self.word(Key::Net),
            EndPart::Exec => self.word(Key::Exec),
            EndPart::Kid { name, index } => self.component(name, index),
        }
    }

    fn end(&mut self, end: &End)
        ensures { Adds self.old (end_tokens end.now) self.new }
    {
        self.end_part(&end.part);
        self.sign(Sign::Dot);
        self.id(&end.port);
    }

    /// `, name = value`, if it is written.
    fn via_key(&mut self, key: &Option<ViaKey>)
        ensures { Adds self.old (optional via_key_tokens key.now) self.new }
    {
        let Some(own) = key else {
            return;
        };
        self.sign(Sign::Comma);
        self.id(&own.name);
        self.sign(Sign::Equal);
        self.expr(&own.value);
    }

    /// `(value, name = value)`
    fn via_names(&mut self, via: &ViaPart)
        ensures { Adds self.old (in_parens (id_tokens via.now.value ++ optional via_key_tokens via.now.key)) self.new }
    {
        self.sign(Sign::OpenParen);
        self.id(&via.value);
        self.via_key(&via.key);
        self.sign(Sign::CloseParen);
    }

    /// A link's translation, if it is written.
    fn via(&mut self, via: &Option<ViaPart>)
        ensures { Adds self.old (optional via_tokens via.now) self.new }
    {
        let Some(part) = via else {
            return;
        };
        self.word(Key::Via);
        self.via_names(part);
        self.sign(Sign::FatArrow);
        self.expr(&part.body);
    }

    /// `link from -> to via ..;`
    fn link(&mut self, from: &End, to: &End, via: &Option<ViaPart>)
        ensures { Adds self.old (link_tokens from.now to.now via.now) self.new }
    {
        self.word(Key::Link);
        self.end(from);
        self.sign(Sign::Arrow);
        self.end(to);
        self.via(via);
        self.sign(Sign::Semicolon);
    }

    /// `:` of a soft entry, `is` of any other.
    fn entry_mark(&mut self, soft: bool)
        ensures { Adds self.old (entry_mark soft) self.new }
    {
        if soft {
            self.sign(Sign::Colon);
        } else {
            self.word(Key::Is);
        }
    }

    /// `comp name[index] is model(args);`, or with `:` in place of `is`.
    fn comp(&mut self, name: &Id, index: &Option<Bracket>, soft: bool, model: &Id, args: &[Expr])
        ensures { Adds self.old (word key.Comp ++ component_tokens name.now index.now ++ entry_mark soft ++ id_tokens model.now ++ args_tokens args.now ++ mark sign.Semicolon) self.new }
    {
        self.word(Key::Comp);
        self.component(name, index);
        self.entry_mark(soft);
        self.id(model);
        self.args(args);
        self.sign(Sign::Semicolon);
    }

    /// `let name = value;`
    fn let_item(&mut self, name: &Id, value: &Expr)
        ensures { Adds self.old (word key.Let ++ set_tokens name.now value.now) self.new }
    {
        self.word(Key::Let);
        self.set(name, value);
    }

    #[cycle(write_item)]
    fn item(&mut self, item: &Item)
        ensures { Adds self.old (item_tokens item.now) self.new }
    {
        match item {
            Item::Comp {
                name,
                index,
                soft,
                model,
                args,
                ..
            } => self.comp(name, index, *soft, model, args.as_slice()),
            Item::Link { from, to, via, .. } => self.link(from, to, via),
            Item::Let { name, value } => self.let_item(name, value),
            Item::If { arms, other } => {
                self.item_arms(arms.as_slice());
                match other {
                    Some(body) => self.else_items(body.as_slice()),
                    None => {}
                }
            }
            Item::For { name, list, body } => {
                self.for_in(name, list);
                self.items(body.as_slice());
            }
        }
    }

    /// `else { body }`
    #[cycle(write_item)]
    fn else_items(&mut self, body: &[Item])
        ensures { Adds self.old (else_block (map item_tokens body.now)) self.new }
    {
        self.word(Key::Else);
        self.items(body);
    }

    /// `{ body }`
    #[cycle(write_item)]
    pub(super) fn items(&mut self, body: &[Item])
        ensures { Adds self.old (block (map item_tokens body.now)) self.new }
    {
        self.sign(Sign::OpenBrace);
        for item in body {
            self.item(item);
        }
        self.sign(Sign::CloseBrace);
    }

    /// The arms of a choice with `else` between them.
    #[cycle(write_item)]
    fn item_arms(&mut self, arms: &[ItemArm])
        ensures { Adds self.old (elses (map item_arm_tokens arms.now)) self.new }
    {
        let Some((first, rest)) = arms.split_first() else {
            return;
        };
        self.item_arm(first);
        for arm in rest {
            self.word(Key::Else);
            self.item_arm(arm);
        }
    }

    #[cycle(write_item)]
    fn item_arm(&mut self, arm: &ItemArm)
        ensures { Adds self.old (item_arm_tokens arm.now) self.new }
    {
        self.if_cond(&arm.cond);
        self.items(arm.body.as_slice());
    }
}
