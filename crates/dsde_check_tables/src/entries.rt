//! What stands in tables, each by its name where that stands in the text.

ghost use Rattle.std.specs.Prelude.{◌≡◌};

use dsde_language::BindingKind;
use dsde_language::given::names::{Named, Names};
use dsde_syntax::Id;
use dsde_values::{Seq, Ty};
use std::marker::Model;

/// A name that is seen. Contracts see it as the rules' `Binding`.
#[derive(Drop)]
pub struct Local<'m> {
    name: &'m [u8],
    ty: Ty,
    kind: BindingKind,
}

impl<'m> Model for Local<'m> {
    ghost use Rattle.dsde_language.specs.declared.seen.Binding.{Binding};
    ghost use Rattle.dsde_language.specs.contracts.seen.Binding as whole;

    ghost Value = { Binding };

    ghost coded = { whole.the_row.coded };

    ghost view = { λ local. record { name = local.name.now; ty = local.ty; kind = local.kind } };
}

impl<'m> Local<'m> {
    /// A name of this type.
    pub fn new(name: &'m [u8], ty: Ty, kind: BindingKind) -> Local<'m>
        ensures { result ≡ record { name = name.now; ty = ty; kind = kind } }
    {
        Local { name, ty, kind }
    }

    /// Its type.
    pub fn ty(&self) -> &Ty
        ensures { result.now ≡ self.now.ty }
    {
        &self.ty
    }

    /// Whether it may be assigned to.
    pub fn kind(&self) -> BindingKind
        ensures { result ≡ self.now.kind }
    {
        self.kind
    }
}

impl<'m> Named for Local<'m> {
    ghost name = { λ local. local.name };

    fn name(&self) -> &[u8] {
        self.name
    }
}

/// A field of a record. Contracts see it as a `Field`.
#[derive(Drop)]
pub struct Member<'m> {
    name: &'m [u8],
    ty: Ty,
}

impl<'m> Model for Member<'m> {
    ghost use Rattle.dsde_values.specs.declared.types.Field.{Field};
    ghost use Rattle.dsde_values.specs.contracts.types.Field as whole;

    ghost Value = { Field };

    ghost coded = { whole.the_row.coded };

    ghost view = { λ member. record { name = member.name.now; ty = member.ty } };
}

impl<'m> Member<'m> {
    /// A field of this type.
    pub fn new(name: &'m [u8], ty: Ty) -> Member<'m>
        ensures { result ≡ record { name = name.now; ty = ty } }
    {
        Member { name, ty }
    }

    /// Its type.
    pub fn ty(&self) -> &Ty
        ensures { result.now ≡ self.now.ty }
    {
        &self.ty
    }
}

impl<'m> Named for Member<'m> {
    ghost name = { λ member. member.name };

    fn name(&self) -> &[u8] {
        self.name
    }
}

/// A function that is declared. Contracts see it as the rules' `Func`.
#[derive(Drop)]
pub struct Callee<'m> {
    name: &'m [u8],
    params: Seq<Ty>,
    gives: Ty,
    height: u32,
}

impl<'m> Model for Callee<'m> {
    ghost use Rattle.dsde_language.specs.declared.signatures.Func.{Func};
    ghost use Rattle.dsde_language.specs.contracts.signatures.Func as whole;

    ghost Value = { Func };

    ghost coded = { whole.the_row.coded };

    ghost view = { λ callee. record { name = callee.name.now; params = callee.params; result = callee.gives; height = callee.height } };
}

impl<'m> Callee<'m> {
    /// A function with these parameters and this result, whose body has this height.
    pub fn new(name: &'m [u8], params: Seq<Ty>, gives: Ty, height: u32) -> Callee<'m>
        ensures { result ≡ record { name = name.now; params = params; result = gives; height = height } }
    {
        Callee {
            name,
            params,
            gives,
            height,
        }
    }

    /// The types of its parameters, in their order.
    pub fn params(&self) -> &[Ty]
        ensures { result.now ≡ self.now.params }
    {
        self.params.as_slice()
    }

    /// The type of its result.
    pub fn gives(&self) -> &Ty
        ensures { result.now ≡ self.now.result }
    {
        &self.gives
    }

    /// The height of its body, counted up to 513.
    pub fn height(&self) -> u32
        ensures { result ≡ self.now.height }
    {
        self.height
    }
}

impl<'m> Named for Callee<'m> {
    ghost name = { λ callee. callee.name };

    fn name(&self) -> &[u8] {
        self.name
    }
}

/// A port. Contracts see it as the rules' `Port`.
#[derive(Drop)]
pub struct PortEntry<'m> {
    out: bool,
    name: &'m [u8],
    ty: Ty,
}

impl<'m> Model for PortEntry<'m> {
    ghost use Rattle.dsde_language.specs.declared.signatures.Port.{Port};
    ghost use Rattle.dsde_language.specs.contracts.signatures.Port as whole;

    ghost Value = { Port };

    ghost coded = { whole.the_row.coded };

    ghost view = { λ port. record { out = port.out; name = port.name.now; ty = port.ty } };
}

impl<'m> PortEntry<'m> {
    /// A port of this type.
    pub fn new(out: bool, name: &'m [u8], ty: Ty) -> PortEntry<'m>
        ensures { result ≡ record { out = out; name = name.now; ty = ty } }
    {
        PortEntry { out, name, ty }
    }

    /// Whether values go out through it.
    pub fn is_out(&self) -> bool
        ensures { result ≡ self.now.out }
    {
        self.out
    }

    /// Its name, where it stands in the text.
    pub fn word(&self) -> &'m [u8]
        ensures { result.now ≡ self.now.name }
    {
        self.name
    }

    /// The type of its values.
    pub fn ty(&self) -> &Ty
        ensures { result.now ≡ self.now.ty }
    {
        &self.ty
    }
}

impl<'m> Named for PortEntry<'m> {
    ghost name = { λ port. port.name };

    fn name(&self) -> &[u8] {
        self.name
    }
}

/// A model of a file. Contracts see it as the rules' `ModelSig`.
#[derive(Drop)]
pub struct ModelEntry<'m> {
    name: &'m [u8],
    params: Seq<Ty>,
    ports: Names<PortEntry<'m>>,
}

impl<'m> Model for ModelEntry<'m> {
    ghost use Rattle.dsde_language.specs.declared.signatures.ModelSig.{ModelSig};
    ghost use Rattle.dsde_language.specs.contracts.signatures.ModelSig as whole;

    ghost Value = { ModelSig };

    ghost coded = { whole.the_row.coded };

    ghost view = { λ model. record { name = model.name.now; params = model.params; ports = model.ports } };
}

impl<'m> ModelEntry<'m> {
    /// A model with these parameters and ports.
    pub fn new(name: &'m [u8], params: Seq<Ty>, ports: Names<PortEntry<'m>>) -> ModelEntry<'m>
        ensures { result ≡ record { name = name.now; params = params; ports = ports.entry } }
    {
        ModelEntry {
            name,
            params,
            ports,
        }
    }

    /// The types of its parameters, in their order.
    pub fn params(&self) -> &[Ty]
        ensures { result.now ≡ self.now.params }
    {
        self.params.as_slice()
    }

    /// Its ports, in their order.
    pub fn ports(&self) -> &Names<PortEntry<'m>>
        ensures { result.now ≡ self.now.ports }
    {
        &self.ports
    }
}

impl<'m> Named for ModelEntry<'m> {
    ghost name = { λ model. model.name };

    fn name(&self) -> &[u8] {
        self.name
    }
}

/// The identifier of components and their model. Contracts see it as the rules' `Family`.
#[derive(Drop)]
pub struct FamilyEntry<'m> {
    name: &'m [u8],
    model: u32,
}

impl<'m> Model for FamilyEntry<'m> {
    ghost use Rattle.dsde_language.specs.declared.signatures.Family.{Family};

    ghost Value = { Family };

    ghost view = { λ family. record { name = family.name.now; model = family.model } };
}

impl<'m> FamilyEntry<'m> {
    /// Components of the model with this number.
    pub fn new(name: &'m [u8], model: u32) -> FamilyEntry<'m>
        ensures { result ≡ record { name = name.now; model = model } }
    {
        FamilyEntry { name, model }
    }

    /// The number of their model.
    pub fn model(&self) -> u32
        ensures { result ≡ self.now.model }
    {
        self.model
    }
}

impl<'m> Named for FamilyEntry<'m> {
    ghost name = { λ family. family.name };

    fn name(&self) -> &[u8] {
        self.name
    }
}

/// The identifier of a type. Contracts see it as the rules' `TypeWord`.
#[derive(Drop)]
pub struct TypeEntry<'m> {
    name: &'m [u8],
    is_enum: bool,
}

impl<'m> Model for TypeEntry<'m> {
    ghost use Rattle.dsde_language.specs.declared.signatures.TypeWord.{TypeWord};

    ghost Value = { TypeWord };

    ghost view = { λ word. record { name = word.name.now; is_enum = word.is_enum } };
}

impl<'m> TypeEntry<'m> {
    /// The identifier `id`.
    pub fn new(id: &'m Id, is_enum: bool) -> TypeEntry<'m>
        ensures { result ≡ record { name = id.now.name; is_enum = is_enum } }
    {
        TypeEntry {
            name: id.name.as_slice(),
            is_enum,
        }
    }

    /// Whether the file declares it as an enum.
    pub fn is_enum(&self) -> bool
        ensures { result ≡ self.now.is_enum }
    {
        self.is_enum
    }
}

impl<'m> Named for TypeEntry<'m> {
    ghost name = { λ word. word.name };

    fn name(&self) -> &[u8] {
        self.name
    }
}
