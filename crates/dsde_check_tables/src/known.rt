//! What is known of a file at a place in it.

ghost use Rattle.std.specs.Prelude.{◌≡◌, IfOk, OnOk};
ghost use Rattle.std.specs.Option.{option_copied};
ghost use Rattle.dsde_language.specs.Judge.{variants_at, fields_at, fields_of};
ghost use Rattle.dsde_language.specs.RuleTables.{by_text, declared_words, known_of, models_from, shapes_from, text_params, used_words};
ghost use Rattle.dsde_language.specs.Types.{depths_from};
ghost use Rattle.dsde_language.specs.Rules.{behind_type, behind_func};

use crate::text::{add_depths, add_models, add_shapes, by_text, text_params};
use crate::word::{add_name, put};
use crate::words::{declared_words, used_words};
use crate::{Callee, Made, Member, ModelEntry, TypeEntry, Word};
use dsde_language::given::names::Names;
use dsde_syntax::given::lists::Memory;
use dsde_syntax::{Decl, Id, TypeName, Typed};
use dsde_values::{Seq, Ty};
use std::alloc::Global;
use std::marker::Model;

/// What is known of a file at a place in it. Contracts see it as the rules' `Known`.
#[derive(Drop)]
pub struct Known<'m> {
    pub(crate) words: Names<TypeEntry<'m>>,
    pub(crate) types: Seq<Made<'m>>,
    pub(crate) depths: Seq<u32>,
    pub(crate) models: Names<ModelEntry<'m>>,
    pub(crate) before: Names<Word<'m>>,
    pub(crate) funcs: Names<Callee<'m>>,
}

impl<'m> Model for Known<'m> {
    ghost use Rattle.dsde_language.specs.declared.known.Known.{Known};
    ghost use Rattle.dsde_language.specs.contracts.known.Known as whole;

    ghost Value = { Known };

    ghost coded = { whole.the_row.coded };

    ghost view = { λ all. record { words = all.words; types = all.types; depths = all.depths; models = all.models; before = all.before; funcs = all.funcs } };
}

impl<'m> Known<'m> {
    /// What is known before the first declaration.
    pub fn of(alloc: Global, decls: &'m [Decl]) -> Result<Known<'m>, Memory>
        ensures { IfOk result (λ known. known ≡ known_of decls.now) }
    {
        let mut words = Names::new(alloc);
        let mut types = Seq::new(alloc);
        let mut depths = Seq::new(alloc);
        let mut models = Names::new(alloc);
        declare(
            alloc,
            &mut words,
            &mut types,
            &mut depths,
            &mut models,
            decls,
        )?;
        Ok(Known {
            words,
            types,
            depths,
            models,
            before: Names::new(alloc),
            funcs: Names::new(alloc),
        })
    }

    /// Adds the identifier of a type that is declared.
    pub fn behind_type(&mut self, name: &'m Id) -> Result<(), Memory>
        ensures { OnOk result (self.new ≡ behind_type self.old name.now) }
    {
        add_name(&mut self.before, name.name.as_slice())
    }

    /// Adds a function that is declared.
    pub fn behind_func(&mut self, func: Callee<'m>) -> Result<(), Memory>
        ensures { OnOk result (self.new ≡ behind_func self.old func.entry) }
    {
        put(&mut self.funcs, func)
    }

    /// The identifiers of types that the file declares or names, each at its number.
    pub fn words(&self) -> &Names<TypeEntry<'m>>
        ensures { result.now ≡ self.now.words }
    {
        &self.words
    }

    /// A type by its text alone: its identifier may be declared later, or not at all.
    pub fn by_text(&self, alloc: Global, ty: &TypeName) -> Result<Ty, Memory>
        ensures { IfOk result (λ found. found ≡ by_text self.now.words ty.now) }
    {
        by_text(alloc, &self.words, ty)
    }

    /// The types of parameters by their text alone.
    pub fn text_params(&self, alloc: Global, params: &[Typed]) -> Result<Seq<Ty>, Memory>
        ensures { IfOk result (λ found. found ≡ text_params self.now.words params.now) }
    {
        text_params(alloc, &self.words, params)
    }

    /// The variants of the enum with this number.
    pub fn variants_at(&self, number: u32) -> Option<&Names<Word<'m>>>
        ensures { option_copied result ≡ variants_at self.now number }
    {
        match self.types().get(number as usize) {
            Some(made) => made.variants(),
            None => None,
        }
    }

    /// The fields of the record with this number.
    pub fn fields_at(&self, number: u32) -> Option<&Names<Member<'m>>>
        ensures { option_copied result ≡ fields_at self.now number }
    {
        match self.types().get(number as usize) {
            Some(made) => made.fields(),
            None => None,
        }
    }

    /// The fields of a type, if it is a record.
    pub fn fields_of(&self, ty: &Ty) -> Option<&Names<Member<'m>>>
        ensures { option_copied result ≡ fields_of self.now ty.now }
    {
        match ty {
            Ty::Rec(number) => self.fields_at(*number),
            _ => None,
        }
    }

    /// The types that the file declares, each at its number.
    pub fn types(&self) -> &[Made<'m>]
        ensures { result.now ≡ self.now.types }
    {
        self.types.as_slice()
    }

    /// How deep each of these is, counted up to 65.
    pub fn depths(&self) -> &[u32]
        ensures { result.now ≡ self.now.depths }
    {
        self.depths.as_slice()
    }

    /// The models that the file declares, each at its number.
    pub fn models(&self) -> &Names<ModelEntry<'m>>
        ensures { result.now ≡ self.now.models }
    {
        &self.models
    }

    /// The identifiers of the types that are declared before.
    pub fn before(&self) -> &Names<Word<'m>>
        ensures { result.now ≡ self.now.before }
    {
        &self.before
    }

    /// The functions that are declared before.
    pub fn funcs(&self) -> &Names<Callee<'m>>
        ensures { result.now ≡ self.now.funcs }
    {
        &self.funcs
    }
}

/// Adds the types and the models of all declarations.
fn declare<'m>(
    alloc: Global,
    words: &mut Names<TypeEntry<'m>>,
    types: &mut Seq<Made<'m>>,
    depths: &mut Seq<u32>,
    models: &mut Names<ModelEntry<'m>>,
    decls: &'m [Decl],
) -> Result<(), Memory>
    ensures words { OnOk result (words.new ≡ used_words (declared_words words.old decls.now) decls.now) }
    ensures types { OnOk result (types.new ≡ shapes_from words.new types.old decls.now) }
    ensures depths { OnOk result (depths.new ≡ depths_from depths.old types.new) }
    ensures models { OnOk result (models.new ≡ models_from words.new models.old decls.now) }
{
    declared_words(words, decls)?;
    used_words(words, decls)?;
    add_shapes(alloc, words, types, decls)?;
    add_depths(depths, types.as_slice())?;
    add_models(alloc, words, models, decls)
}
