//! Expressions, read from tokens.

ghost use Rattle.std.specs.Prelude.{◌≡◌, ◌<◌, ◌∷◌, ◌++◌, [], true, false, map};
ghost use Rattle.dsde_syntax.specs.Grammar.{mark, commas, in_parens, for_tokens, expr_tokens, suffix_tokens, expr_arm_tokens, field_set_tokens, sign_tail_tokens};
ghost use Rattle.dsde_syntax.specs.Places.{bracketed, args_span, for_span, expr_span, expr_arm_span, field_set_span, sign_tail_span, suffix_span, tail_span};
ghost use Rattle.dsde_syntax.specs.Levels.{if_written, is_expr, stands_at, may_follow, is_sum_sign, is_mul_sign, is_expr_arm, is_field_set, is_suffix, sign_tail_level, tail_level};
ghost use Rattle.dsde_words.specs.declared.key.Key.TheVariants as key;
ghost use Rattle.dsde_syntax.specs.declared.token.Sign.TheVariants as sign;
ghost use Rattle.dsde_parser_grammar.specs.Want as want;
ghost use Rattle.dsde_parser_grammar.specs.Steps.{is_sign, angles, args, exprs, field_set, braced_expr, choice_rest, post_wants, neg_wants, mul_wants, sum_wants, cmp_wants, not_wants, and_wants, or_wants};
ghost use Rattle.dsde_parser_expressions.specs.Follows.{Leads, Meets, next_is, begins_form, is_builtin_key, begins_suffix};
ghost use Rattle.dsde_parser_expressions.specs.Took.{Reads, ReadsAll};
ghost use Rattle.dsde_parser_expressions.specs.Parts.{IsWithin, AllOk, SomeOk, IsOk, joined_by, all_by, closed_tokens, closed_span, arms_tokens, test_tokens, test_span, or_tail_tokens, and_tail_tokens};

use super::{ParseError, Parser};
use dsde_syntax::{Boxed, Expr, ExprArm, FieldSet, Id, Items, Key, Sign, SignTail, Suffix, Tail};

impl<'a> Parser<'a> {
    /// or ["??" or]
    #[cycle(read_expr)]
    pub fn expr(&mut self) -> Result<Boxed<Expr>, ParseError>
        ensures took { Reads expr_tokens expr_span (IsWithin 9) self.old result self.new }
        ensures same { Meets (want.expr ∷ []) self.old result self.new }
    {
        let left = self.or()?;
        let at = self.at;
        if !self.takes_sign(Sign::QuestionQuestion) {
            return Ok(left);
        }
        let right = self.or()?;
        self.boxed(Expr::OrElse { at, left, right })
    }

    /// and {"or" and}
    #[cycle(read_expr)]
    fn or(&mut self) -> Result<Boxed<Expr>, ParseError>
        ensures took { Reads expr_tokens expr_span (IsWithin 8) self.old result self.new }
        ensures same { Meets or_wants self.old result self.new }
    {
        let first = self.and()?;
        let rest = self.or_tails()?;
        if rest.is_empty() {
            return Ok(first);
        }
        self.boxed(Expr::Or { first, rest })
    }

    /// {"or" and}
    #[cycle(read_expr)]
    fn or_tails(&mut self) -> Result<Items<Tail>, ParseError>
        ensures took { ReadsAll (joined_by or_tail_tokens) (all_by tail_span) (AllOk (λ tail. stands_at 7 (tail_level tail))) self.old result self.new }
        ensures same { Meets (want.disjuncts ∷ []) self.old result self.new }
    {
        let mut tails = Items::new(self.alloc);
        'tails: loop {
            let at = self.at;
            if !self.takes_key(Key::Or) {
                return Ok(tails);
            }
            let value = self.and()?;
            tails.push(Tail {
                at,
                value: value.into_inner(),
            })?;
        }
    }

    /// not {"and" not}
    #[cycle(read_expr)]
    fn and(&mut self) -> Result<Boxed<Expr>, ParseError>
        ensures took { Reads expr_tokens expr_span (IsWithin 7) self.old result self.new }
        ensures same { Meets and_wants self.old result self.new }
    {
        let first = self.not()?;
        let rest = self.and_tails()?;
        if rest.is_empty() {
            return Ok(first);
        }
        self.boxed(Expr::And { first, rest })
    }

    /// {"and" not}
    #[cycle(read_expr)]
    fn and_tails(&mut self) -> Result<Items<Tail>, ParseError>
        ensures took { ReadsAll (joined_by and_tail_tokens) (all_by tail_span) (AllOk (λ tail. stands_at 6 (tail_level tail))) self.old result self.new }
        ensures same { Meets (want.conjuncts ∷ []) self.old result self.new }
    {
        let mut tails = Items::new(self.alloc);
        'tails: loop {
            let at = self.at;
            if !self.takes_key(Key::And) {
                return Ok(tails);
            }
            let value = self.not()?;
            tails.push(Tail {
                at,
                value: value.into_inner(),
            })?;
        }
    }

    /// ["not"] cmp
    #[cycle(read_expr)]
    fn not(&mut self) -> Result<Boxed<Expr>, ParseError>
        ensures took { Reads expr_tokens expr_span (IsWithin 6) self.old result self.new }
        ensures same { Meets not_wants self.old result self.new }
    {
        let at = self.at;
        if !self.takes_key(Key::Not) {
            return self.compare();
        }
        let of = self.compare()?;
        self.boxed(Expr::Not { at, of })
    }

    /// sum [("==" | "!=" | "<" | "<=" | ">" | ">=") sum]
    #[cycle(read_expr)]
    fn compare(&mut self) -> Result<Boxed<Expr>, ParseError>
        ensures took { Reads expr_tokens expr_span (IsWithin 5) self.old result self.new }
        ensures same { Meets cmp_wants self.old result self.new }
    {
        let left = self.sum()?;
        let at = self.at;
        let Some(sign) = self.takes_comparison() else {
            return Ok(left);
        };
        let right = self.sum()?;
        self.boxed(Expr::Compare {
            sign,
            at,
            left,
            right,
        })
    }

    /// mul {("+" | "-" | "+|" | "-|" | "++") mul}
    #[cycle(read_expr)]
    fn sum(&mut self) -> Result<Boxed<Expr>, ParseError>
        ensures took { Reads expr_tokens expr_span (IsWithin 4) self.old result self.new }
        ensures same { Meets sum_wants self.old result self.new }
    {
        let first = self.mul()?;
        let rest = self.sum_tails()?;
        if rest.is_empty() {
            return Ok(first);
        }
        self.boxed(Expr::Sum { first, rest })
    }

    /// {("+" | "-" | "+|" | "-|" | "++") mul}
    #[cycle(read_expr)]
    fn sum_tails(&mut self) -> Result<Items<SignTail>, ParseError>
        ensures took { ReadsAll (joined_by sign_tail_tokens) (all_by sign_tail_span) (AllOk (λ tail. may_follow is_sum_sign 3 (sign_tail_level tail))) self.old result self.new }
        ensures same { Meets (want.terms ∷ []) self.old result self.new }
    {
        let mut tails = Items::new(self.alloc);
        'tails: loop {
            let at = self.at;
            let Some(sign) = self.takes_sum_sign() else {
                return Ok(tails);
            };
            let value = self.mul()?;
            tails.push(SignTail {
                sign,
                at,
                value: value.into_inner(),
            })?;
        }
    }

    /// neg {("*" | "/" | "%" | "*|") neg}
    #[cycle(read_expr)]
    fn mul(&mut self) -> Result<Boxed<Expr>, ParseError>
        ensures took { Reads expr_tokens expr_span (IsWithin 3) self.old result self.new }
        ensures same { Meets mul_wants self.old result self.new }
    {
        let first = self.neg()?;
        let rest = self.mul_tails()?;
        if rest.is_empty() {
            return Ok(first);
        }
        self.boxed(Expr::Mul { first, rest })
    }

    /// {("*" | "/" | "%" | "*|") neg}
    #[cycle(read_expr)]
    fn mul_tails(&mut self) -> Result<Items<SignTail>, ParseError>
        ensures took { ReadsAll (joined_by sign_tail_tokens) (all_by sign_tail_span) (AllOk (λ tail. may_follow is_mul_sign 2 (sign_tail_level tail))) self.old result self.new }
        ensures same { Meets (want.factors ∷ []) self.old result self.new }
    {
        let mut tails = Items::new(self.alloc);
        'tails: loop {
            let at = self.at;
            let Some(sign) = self.takes_mul_sign() else {
                return Ok(tails);
            };
            let value = self.neg()?;
            tails.push(SignTail {
                sign,
                at,
                value: value.into_inner(),
            })?;
        }
    }

    /// ["-"] post
    #[cycle(read_expr)]
    fn neg(&mut self) -> Result<Boxed<Expr>, ParseError>
        ensures took { Reads expr_tokens expr_span (IsWithin 2) self.old result self.new }
        ensures same { Meets neg_wants self.old result self.new }
    {
        let at = self.at;
        if !self.takes_sign(Sign::Minus) {
            return self.post();
        }
        let of = self.post()?;
        self.boxed(Expr::Neg { at, of })
    }

    /// prim {"." id | "[" expr "]" | "!"}
    #[cycle(read_expr)]
    fn post(&mut self) -> Result<Boxed<Expr>, ParseError>
        ensures took { Reads expr_tokens expr_span (IsWithin 1) self.old result self.new }
        ensures same { Meets post_wants self.old result self.new }
    {
        let first = self.prim()?;
        let suffixes = self.suffixes()?;
        if suffixes.is_empty() {
            return Ok(first);
        }
        self.boxed(Expr::Post { first, suffixes })
    }

    /// {"." id | "[" expr "]" | "!"}
    #[cycle(read_expr)]
    fn suffixes(&mut self) -> Result<Items<Suffix>, ParseError>
        ensures took { ReadsAll (joined_by suffix_tokens) (all_by suffix_span) (AllOk is_suffix) self.old result self.new }
        ensures same { Meets (want.suffixes ∷ []) self.old result self.new }
    {
        let mut suffixes = Items::new(self.alloc);
        'suffixes: while self.begins_suffix() {
            suffixes.push(self.suffix()?)?;
        }
        Ok(suffixes)
    }

    /// Whether a token comes next that a suffix begins with.
    fn begins_suffix(&self) -> bool
        ensures { result ≡ next_is begins_suffix self.now.1 }
    {
        self.next_is_sign(Sign::Dot)
            || self.next_is_sign(Sign::OpenBracket)
            || self.next_is_sign(Sign::Bang)
    }

    /// "." id | "[" expr "]" | "!"
    #[cycle(read_expr)]
    fn suffix(&mut self) -> Result<Suffix, ParseError>
        ensures took { Reads suffix_tokens suffix_span (IsOk is_suffix) self.old result self.new }
        ensures same { Meets (want.suffix ∷ []) self.old result self.new }
    {
        if self.next_is_sign(Sign::Dot) {
            return self.field();
        }
        if self.next_is_sign(Sign::OpenBracket) {
            return self.index();
        }
        self.unwrap()
    }

    /// "." id
    fn field(&mut self) -> Result<Suffix, ParseError>
        ensures took { Reads suffix_tokens suffix_span (IsOk is_suffix) self.old result self.new }
        ensures same { Meets (want.mark sign.Dot ∷ want.name ∷ []) self.old result self.new }
    {
        let at = self.sign(Sign::Dot)?;
        let name = self.name()?;
        Ok(Suffix::Field { at, name })
    }

    /// "[" expr "]"
    #[cycle(read_expr)]
    fn index(&mut self) -> Result<Suffix, ParseError>
        ensures took { Reads suffix_tokens suffix_span (IsOk is_suffix) self.old result self.new }
        ensures same { Meets (want.mark sign.OpenBracket ∷ want.expr ∷ want.mark sign.CloseBracket ∷ []) self.old result self.new }
    {
        let at = self.at;
        let value = self.between(Sign::OpenBracket, Sign::CloseBracket)?;
        Ok(Suffix::Index {
            at,
            value: value.into_inner(),
        })
    }

    /// "!"
    fn unwrap(&mut self) -> Result<Suffix, ParseError>
        ensures took { Reads suffix_tokens suffix_span (IsOk is_suffix) self.old result self.new }
        ensures same { Meets (want.mark sign.Bang ∷ []) self.old result self.new }
    {
        let at = self.sign(Sign::Bang)?;
        Ok(Suffix::Unwrap { at })
    }

    /// id | id args | id "::" id | "(" expr ")" | "[" .. "]" | "new" .. | "none" .. | "empty" .. | "if" .. | builtin args |
    /// number | "true" | "false" | "elapsed"
    #[cycle(read_expr)]
    fn prim(&mut self) -> Result<Boxed<Expr>, ParseError>
        ensures took { Reads expr_tokens expr_span (IsWithin 0) self.old result self.new }
        ensures same { Meets (want.prim ∷ []) self.old result self.new }
    {
        if self.next_is_name() {
            return self.named();
        }
        if self.next_is_sign(Sign::OpenParen) {
            return self.paren();
        }
        if self.next_is_sign(Sign::OpenBracket) {
            return self.in_brackets();
        }
        if self.next_is_key(Key::New) {
            return self.new_record();
        }
        if self.next_is_key(Key::NoneOf) {
            return self.none_of();
        }
        if self.next_is_key(Key::EmptyOf) {
            return self.empty_of();
        }
        if self.next_is_key(Key::If) {
            return self.choice();
        }
        if self.next_is_builtin() {
            return self.builtin();
        }
        self.literal()
    }

    /// number | "true" | "false" | "elapsed"
    fn literal(&mut self) -> Result<Boxed<Expr>, ParseError>
        ensures took { Reads expr_tokens expr_span (IsWithin 0) self.old result self.new }
        ensures same { next_is begins_form self.old.1 ≡ false → Meets (want.prim ∷ []) self.old result self.new }
    {
        let at = self.at;
        if let Some(value) = self.takes_number() {
            return self.boxed(Expr::Number { at, value });
        }
        if self.takes_key(Key::True) {
            return self.boxed(Expr::Truth { at, value: true });
        }
        if self.takes_key(Key::False) {
            return self.boxed(Expr::Truth { at, value: false });
        }
        if self.takes_key(Key::Elapsed) {
            return self.boxed(Expr::Elapsed(at));
        }
        self.refuse()
    }

    /// id | id args | id "::" id
    #[cycle(read_expr)]
    fn named(&mut self) -> Result<Boxed<Expr>, ParseError>
        ensures took { Reads expr_tokens expr_span (IsWithin 0) self.old result self.new }
        ensures same { Meets (want.name ∷ want.after_name ∷ []) self.old result self.new }
    {
        let name = self.name()?;
        if self.next_is_sign(Sign::OpenParen) {
            let args = self.arguments()?;
            return self.boxed(Expr::Call { name, args });
        }
        if self.takes_sign(Sign::ColonColon) {
            let variant = self.name()?;
            return self.boxed(Expr::Variant { of: name, variant });
        }
        self.boxed(Expr::Name(name))
    }

    /// "(" expr ")"
    #[cycle(read_expr)]
    fn paren(&mut self) -> Result<Boxed<Expr>, ParseError>
        ensures took { Reads expr_tokens expr_span (IsWithin 0) self.old result self.new }
        ensures same { Meets (want.mark sign.OpenParen ∷ want.expr ∷ want.mark sign.CloseParen ∷ []) self.old result self.new }
    {
        let at = self.at;
        let inner = self.between(Sign::OpenParen, Sign::CloseParen)?;
        self.boxed(Expr::Paren { at, inner })
    }

    /// "none" "<" type ">"
    fn none_of(&mut self) -> Result<Boxed<Expr>, ParseError>
        ensures took { Reads expr_tokens expr_span (IsWithin 0) self.old result self.new }
        ensures same { Meets (want.word key.NoneOf ∷ angles) self.old result self.new }
    {
        let at = self.key(Key::NoneOf)?;
        let ty = self.part_type()?.into_inner();
        self.boxed(Expr::NoneOf { at, ty })
    }

    /// "empty" "<" type ">"
    fn empty_of(&mut self) -> Result<Boxed<Expr>, ParseError>
        ensures took { Reads expr_tokens expr_span (IsWithin 0) self.old result self.new }
        ensures same { Meets (want.word key.EmptyOf ∷ angles) self.old result self.new }
    {
        let at = self.key(Key::EmptyOf)?;
        let ty = self.part_type()?.into_inner();
        self.boxed(Expr::EmptyOf { at, ty })
    }

    /// builtin args
    #[cycle(read_expr)]
    fn builtin(&mut self) -> Result<Boxed<Expr>, ParseError>
        ensures took { Reads expr_tokens expr_span (IsWithin 0) self.old result self.new }
        ensures same { next_is is_builtin_key self.old.1 ≡ true → Meets (want.prim ∷ []) self.old result self.new }
    {
        let at = self.at;
        let Some(which) = self.takes_builtin() else {
            return self.refuse();
        };
        let args = self.arguments()?;
        self.boxed(Expr::Builtin { which, at, args })
    }

    /// "(" [expr {"," expr}] ")"
    #[cycle(read_expr)]
    pub fn arguments(&mut self) -> Result<Items<Expr>, ParseError>
        ensures took { Reads (λ args. in_parens (commas (map expr_tokens args))) (λ args. args_span (map expr_span args)) (AllOk is_expr) self.old result self.new }
        ensures same { Meets args self.old result self.new }
    {
        self.sign(Sign::OpenParen)?;
        if self.takes_sign(Sign::CloseParen) {
            return Ok(Items::new(self.alloc));
        }
        self.exprs(Sign::CloseParen)
    }

    /// expr {"," expr}, and the sign behind them
    #[cycle(read_expr)]
    fn exprs(&mut self, close: Sign) -> Result<Items<Expr>, ParseError>
        ensures took { Reads (closed_tokens close expr_tokens) (closed_span expr_span) (SomeOk is_expr) self.old result self.new }
        ensures same { Meets (exprs ++ want.mark close ∷ []) self.old result self.new }
    {
        let mut exprs = Items::new(self.alloc);
        'exprs: loop {
            exprs.push(self.expr()?.into_inner())?;
            if !self.takes_sign(Sign::Comma) {
                self.sign(close)?;
                return Ok(exprs);
            }
        }
    }

    /// "new" id "{" id ":" expr {"," id ":" expr} "}"
    #[cycle(read_expr)]
    fn new_record(&mut self) -> Result<Boxed<Expr>, ParseError>
        ensures took { Reads expr_tokens expr_span (IsWithin 0) self.old result self.new }
        ensures same { Meets (want.word key.New ∷ want.name ∷ want.mark sign.OpenBrace ∷ (field_set ++ want.more_fields ∷ want.mark sign.CloseBrace ∷ [])) self.old result self.new }
    {
        let at = self.key(Key::New)?;
        let of = self.name()?;
        self.sign(Sign::OpenBrace)?;
        let fields = self.field_sets()?;
        self.boxed(Expr::New { at, of, fields })
    }

    /// id ":" expr {"," id ":" expr} "}"
    #[cycle(read_expr)]
    fn field_sets(&mut self) -> Result<Items<FieldSet>, ParseError>
        ensures took { Reads (closed_tokens sign.CloseBrace field_set_tokens) (closed_span field_set_span) (SomeOk is_field_set) self.old result self.new }
        ensures same { Meets (field_set ++ want.more_fields ∷ want.mark sign.CloseBrace ∷ []) self.old result self.new }
    {
        let mut fields = Items::new(self.alloc);
        'fields: loop {
            fields.push(self.field_set()?)?;
            if !self.takes_sign(Sign::Comma) {
                self.sign(Sign::CloseBrace)?;
                return Ok(fields);
            }
        }
    }

    /// id ":" expr
    #[cycle(read_expr)]
    fn field_set(&mut self) -> Result<FieldSet, ParseError>
        ensures took { Reads field_set_tokens field_set_span (IsOk is_field_set) self.old result self.new }
        ensures same { Meets field_set self.old result self.new }
    {
        let name = self.name()?;
        self.sign(Sign::Colon)?;
        let value = self.expr()?.into_inner();
        Ok(FieldSet { name, value })
    }

    /// "[" expr {"," expr} "]" | "[" "for" .. "]"
    #[cycle(read_expr)]
    fn in_brackets(&mut self) -> Result<Boxed<Expr>, ParseError>
        ensures took { Reads expr_tokens expr_span (IsWithin 0) self.old result self.new }
        ensures same { next_is (is_sign sign.OpenBracket) self.old.1 ≡ true → Meets (want.prim ∷ []) self.old result self.new }
    {
        if self.second_is_key(Key::For) {
            return self.each();
        }
        self.row()
    }

    /// "[" expr {"," expr} "]"
    #[cycle(read_expr)]
    fn row(&mut self) -> Result<Boxed<Expr>, ParseError>
        ensures took { Reads expr_tokens expr_span (IsWithin 0) self.old result self.new }
        ensures same { Meets (want.mark sign.OpenBracket ∷ (exprs ++ want.mark sign.CloseBracket ∷ [])) self.old result self.new }
    {
        let at = self.sign(Sign::OpenBracket)?;
        let items = self.exprs(Sign::CloseBracket)?;
        self.boxed(Expr::List { at, items })
    }

    /// "[" "for" id "in" expr ["if" expr] ":" expr "]"
    #[cycle(read_expr)]
    fn each(&mut self) -> Result<Boxed<Expr>, ParseError>
        ensures took { Reads expr_tokens expr_span (IsWithin 0) self.old result self.new }
        ensures same { Meets (want.mark sign.OpenBracket ∷ want.word key.For ∷ want.name ∷ want.word key.In ∷ want.expr ∷ want.test ∷ want.mark sign.Colon ∷ want.expr ∷ want.mark sign.CloseBracket ∷ []) self.old result self.new }
    {
        let at = self.sign(Sign::OpenBracket)?;
        let (name, list) = self.for_in()?;
        let cond = self.each_test()?;
        let value = self.between(Sign::Colon, Sign::CloseBracket)?;
        self.boxed(Expr::Each {
            at,
            name,
            list,
            cond,
            value,
        })
    }

    /// "for" id "in" expr
    #[cycle(read_expr)]
    fn for_in(&mut self) -> Result<(Id, Boxed<Expr>), ParseError>
        ensures took { Reads (λ own. for_tokens own.0 own.1) (λ own. for_span own.0 own.1) (λ own. is_expr own.1 ≡ true) self.old result self.new }
        ensures same { Meets (want.word key.For ∷ want.name ∷ want.word key.In ∷ want.expr ∷ []) self.old result self.new }
    {
        self.key(Key::For)?;
        let name = self.name()?;
        self.key(Key::In)?;
        let list = self.expr()?;
        Ok((name, list))
    }

    /// ["if" expr]
    #[cycle(read_expr)]
    fn each_test(&mut self) -> Result<Option<Boxed<Expr>>, ParseError>
        ensures took { ReadsAll test_tokens test_span (λ cond. if_written is_expr cond ≡ true) self.old result self.new }
        ensures same { Meets (want.test ∷ []) self.old result self.new }
    {
        if !self.takes_key(Key::If) {
            return Ok(None);
        }
        Ok(Some(self.expr()?))
    }

    /// "if" expr "{" expr "}" {"else" "if" expr "{" expr "}"} "else" "{" expr "}"
    #[cycle(read_expr)]
    fn choice(&mut self) -> Result<Boxed<Expr>, ParseError>
        ensures took { Reads expr_tokens expr_span (IsWithin 0) self.old result self.new }
        ensures same { Meets (want.word key.If ∷ choice_rest) self.old result self.new }
    {
        let at = self.at;
        let arms = self.arms()?;
        let other = self.between(Sign::OpenBrace, Sign::CloseBrace)?;
        self.boxed(Expr::If { at, arms, other })
    }

    /// "if" expr "{" expr "}" "else" {"if" expr "{" expr "}" "else"}
    #[cycle(read_expr)]
    fn arms(&mut self) -> Result<Items<ExprArm>, ParseError>
        ensures took { Reads arms_tokens (closed_span expr_arm_span) (SomeOk is_expr_arm) self.old result self.new }
        ensures same { Leads (want.word key.If ∷ choice_rest) braced_expr self.old result self.new }
    {
        let mut arms = Items::new(self.alloc);
        'arms: loop {
            arms.push(self.arm()?)?;
            self.key(Key::Else)?;
            if !self.next_is_key(Key::If) {
                return Ok(arms);
            }
        }
    }

    /// "if" expr "{" expr "}"
    #[cycle(read_expr)]
    fn arm(&mut self) -> Result<ExprArm, ParseError>
        ensures took { Reads expr_arm_tokens expr_arm_span (IsOk is_expr_arm) self.old result self.new }
        ensures same { Meets (want.word key.If ∷ want.expr ∷ braced_expr) self.old result self.new }
    {
        self.key(Key::If)?;
        let cond = self.expr()?;
        let value = self.between(Sign::OpenBrace, Sign::CloseBrace)?;
        Ok(ExprArm {
            cond: cond.into_inner(),
            value: value.into_inner(),
        })
    }

    /// An expression between two signs.
    #[cycle(read_expr)]
    fn between(&mut self, front: Sign, back: Sign) -> Result<Boxed<Expr>, ParseError>
        ensures took { Reads (λ expr. mark front ++ expr_tokens expr ++ mark back) (λ expr. bracketed (expr_span expr)) (IsWithin 9) self.old result self.new }
        ensures same { Meets (want.mark front ∷ want.expr ∷ want.mark back ∷ []) self.old result self.new }
    {
        self.sign(front)?;
        let inner = self.expr()?;
        self.sign(back)?;
        Ok(inner)
    }
}
