//! Values, read from their spelling.

ghost use Rattle.std.specs.Prelude.{◌≡◌, ◌≢◌, ◌≤◌, ◌<◌, ◌^◌, ◌++◌, ◌⊎◌, ℤ, ℕ, true, false, List, length, map, drop, FitsSigned, slice_get, IfOk, IsErrOf, IfSome, IfNone, MatchResult, MatchBool, Some};
ghost use Rattle.std.specs.Int.{w64};
ghost use Rattle.std.specs.Fmt.{signed_decimal};
ghost use Rattle.std.specs.List.{list_all, position};
ghost use Rattle.std.specs.Str.{bytes_eq};
ghost use Rattle.dsde_values.specs.declared.reading.ReadValue.TheVariants as read_value;
ghost use Rattle.dsde_values.specs.declared.value.Value.{Value};
ghost use Rattle.dsde_words.specs.Words.{is_word_byte, begins_word};
ghost use Rattle.dsde_values.specs.Word.{Begins};
ghost use Rattle.dsde_values.specs.Value.{HasType, IsLawful, spelling, number_size, fields_at, fill, has_type};
ghost use Rattle.dsde_values.specs.Reading.{fields_text, Takes, ReadsInt, ReadsTruth, ReadsVariant, ReadsValue, ReadsField, ReadsFields, ReadsRecord, ReadsList};

use crate::decimal::signed_decimal_of;
use crate::typing::{LONGEST_LIST, fields_at, name_at, variants_at};
use crate::{Field, Ty, Types, Value, Values};
use dsde_lists::{Boxed, Memory, Seq, Text};
use dsde_words::word_size;
use std::alloc::Global;
use std::marker::Model;

/// Why no value was read.
#[derive(Clone, Copy)]
pub enum ReadValue {
    /// No value of the type begins the bytes.
    NotAValue,
    Memory,
}

impl From<Memory> for ReadValue {
    ghost from_gives = { λ _ error. error ≡ read_value.Memory };

    fn from(_error: Memory) -> ReadValue {
        ReadValue::Memory
    }
}

/// The value whose spelling begins the bytes, and how many bytes the spelling has. A value begins
/// bytes where its spelling stands at their front and, if the spelling ends in a letter, digit or
/// `_`, none of these follows it. `NotAValue` comes exactly where no value of the type begins the
/// bytes. The table is lawful: its definitions have identifiers as names, and so have the variants
/// of each enum, which differ. For whole numbers any table will do.
pub fn read_value(
    alloc: Global,
    bytes: &[u8],
    ty: &Ty,
    types: &Types,
) -> Result<(Value, usize), ReadValue>
    requires { (ty.now ≡ Ty.Int) ⊎ IsLawful types.now }

    ensures typed { IfOk result (λ found. HasType types.now found.0 ty.now) }
    ensures begins { IfOk result (λ found. Begins (spelling types.now found.0) bytes.now) }
    ensures size { IfOk result (λ found. found.1 ≡ length (spelling types.now found.0)) }
    ensures only { IfOk result (λ found. (value : Value) → HasType types.now value ty.now → Begins (spelling types.now value) bytes.now → value ≡ found.0) }

    ensures none { IsErrOf result ReadValue.NotAValue → (value : Value) → HasType types.now value ty.now → ¬ (Begins (spelling types.now value) bytes.now) }
{
    let mut reader = Reader { left: bytes };
    let value = reader.value(alloc, ty, types)?;
    Ok((value, bytes.len() - reader.left.len()))
}

/// The values of fields at the front of bytes, with the brace behind them, and how many bytes both have
/// together, `f: v, g: w}`. `NotAValue` comes exactly where no values of the fields' types stand there so. The
/// table is lawful, as for `read_value`.
pub fn read_fields(
    alloc: Global,
    bytes: &[u8],
    fields: &[Field],
    types: &Types,
) -> Result<(Values, usize), ReadValue>
    requires { IsLawful types.now }

    ensures typed { IfOk result (λ found. fill (map (has_type types.now) found.0) fields.now ≡ true) }
    ensures begins { IfOk result (λ found. bytes.now ≡ fields_text types.now fields.now found.0 ++ drop found.1 bytes.now) }
    ensures within { IfOk result (λ found. found.1 ≤ length bytes.now) }
    ensures only { IfOk result (λ found. (parts : List Value) (rest : List ℕ) → fill (map (has_type types.now) parts) fields.now ≡ true → bytes.now ≡ fields_text types.now fields.now parts ++ rest → parts ≡ found.0) }

    ensures none { IsErrOf result ReadValue.NotAValue → (parts : List Value) (rest : List ℕ) → fill (map (has_type types.now) parts) fields.now ≡ true → bytes.now ≢ fields_text types.now fields.now parts ++ rest }
{
    let mut reader = Reader { left: bytes };
    let parts = reader.fields(alloc, fields, types)?;
    Ok((parts, bytes.len() - reader.left.len()))
}

/// Reads values and their parts from the front of the bytes that are left.
#[derive(Drop)]
struct Reader<'a> {
    left: &'a [u8],
}

impl<'a> Model for Reader<'a> {
    ghost use Rattle.std.specs.Prelude.{List, ℕ};

    ghost Value = { List ℕ };

    ghost view = { λ reader. reader.left.now };
}

impl<'a> Reader<'a> {
    /// A value of a type.
    #[cycle(reading)]
    fn value(&mut self, alloc: Global, ty: &Ty, types: &Types) -> Result<Value, ReadValue>
        requires { (ty.now ≡ Ty.Int) ⊎ IsLawful types.now }
        ensures { ReadsValue types.now ty.now self.old result self.new }
    {
        match ty {
            Ty::Int => Ok(Value::Int(self.number()?)),
            Ty::Bool => Ok(Value::Bool(self.truth()?)),
            Ty::Enum(number) => Ok(Value::Enum(*number, self.variant(*number, types)?)),
            Ty::Rec(number) => Ok(Value::Rec(*number, self.record(alloc, *number, types)?)),
            Ty::List(inner) => Ok(Value::List(self.list(alloc, inner.get(), types)?)),
            Ty::Opt(inner) => self.option(alloc, inner.get(), types),
        }
    }

    /// The values of the fields of the record with this number, behind the record's name.
    #[cycle(reading)]
    fn record(&mut self, alloc: Global, number: u32, types: &Types) -> Result<Values, ReadValue>
        requires { IsLawful types.now }
        ensures { ReadsRecord types.now number self.old result self.new }
    {
        let Some(fields) = fields_at(types, number) else {
            return Err(ReadValue::NotAValue);
        };
        if !self.opens(name_at(types, number), b"{") {
            return Err(ReadValue::NotAValue);
        }
        self.fields(alloc, fields, types)
    }

    /// The values of fields, and the brace behind them.
    #[cycle(reading)]
    fn fields(
        &mut self,
        alloc: Global,
        fields: &[Field],
        types: &Types,
    ) -> Result<Values, ReadValue>
        requires { IsLawful types.now }
        ensures { ReadsFields types.now fields.now self.old result self.new }
    {
        let mut parts = Seq::new(alloc);
        let Some((first, others)) = fields.split_first() else {
            return self.ended(b"}", parts);
        };
        parts.push(self.field(alloc, first, types)?)?;
        for field in others {
            if !self.takes(b", ") {
                return Err(ReadValue::NotAValue);
            }
            parts.push(self.field(alloc, field, types)?)?;
        }
        self.ended(b"}", parts)
    }

    /// The value of a field, behind the field's name.
    #[cycle(reading)]
    fn field(&mut self, alloc: Global, field: &Field, types: &Types) -> Result<Value, ReadValue>
        requires { IsLawful types.now }
        ensures { ReadsField types.now field.now self.old result self.new }
    {
        if !self.opens(field.name.as_slice(), b": ") {
            return Err(ReadValue::NotAValue);
        }
        self.value(alloc, &field.ty, types)
    }

    /// The items of a list of values of a type, in brackets.
    #[cycle(reading)]
    fn list(&mut self, alloc: Global, ty: &Ty, types: &Types) -> Result<Values, ReadValue>
        requires { IsLawful types.now }
        ensures { ReadsList types.now ty.now self.old result self.new }
    {
        let mut items = Seq::new(alloc);
        if !self.takes(b"[") {
            return Err(ReadValue::NotAValue);
        }
        if self.takes(b"]") {
            return Ok(items);
        }
        items.push(self.value(alloc, ty, types)?)?;
        while self.takes(b", ") {
            if items.len() >= LONGEST_LIST {
                return Err(ReadValue::NotAValue);
            }
            items.push(self.value(alloc, ty, types)?)?;
        }
        self.ended(b"]", items)
    }

    /// An option of a value of a type.
    #[cycle(reading)]
    fn option(&mut self, alloc: Global, ty: &Ty, types: &Types) -> Result<Value, ReadValue>
        requires { IsLawful types.now }
        ensures { ReadsValue types.now (Ty.Opt ty.now) self.old result self.new }
    {
        if self.takes(b"some(") {
            let inner = self.value(alloc, ty, types)?;
            if !self.takes(b")") {
                return Err(ReadValue::NotAValue);
            }
            return Ok(Value::Some(Boxed::new(alloc, inner)?));
        }
        if self.word() == b"none".as_slice() {
            Ok(Value::Nothing)
        } else {
            Err(ReadValue::NotAValue)
        }
    }

    /// A whole number.
    fn number(&mut self) -> Result<i64, ReadValue>
        ensures { ReadsInt self.old result self.new }
    {
        let Some((number, size)) = read_number(self.left) else {
            return Err(ReadValue::NotAValue);
        };
        self.left = &self.left[size..];
        Ok(number)
    }

    /// `true` or `false`.
    fn truth(&mut self) -> Result<bool, ReadValue>
        ensures { ReadsTruth self.old result self.new }
    {
        let word = self.word();
        if word == b"true".as_slice() {
            Ok(true)
        } else if word == b"false".as_slice() {
            Ok(false)
        } else {
            Err(ReadValue::NotAValue)
        }
    }

    /// The number of a variant of the enum with this number, behind the enum's name.
    fn variant(&mut self, number: u32, types: &Types) -> Result<u32, ReadValue>
        requires { IsLawful types.now }
        ensures { ReadsVariant types.now number self.old result self.new }
    {
        if !self.opens(name_at(types, number), b"::") {
            return Err(ReadValue::NotAValue);
        }
        variant_of(variants_at(types, number), self.word()).ok_or(ReadValue::NotAValue)
    }

    /// The letters, digits and `_` that come next. They are taken.
    fn word(&mut self) -> &'a [u8]
        ensures front { self.old ≡ result.now ++ self.new }
        ensures word { list_all is_word_byte result.now ≡ true }
        ensures end { begins_word self.new ≡ false }
    {
        let (word, left) = self.left.split_at(word_size(self.left));
        self.left = left;
        word
    }

    /// The values, where a mark comes next. It is taken if so.
    fn ended(&mut self, mark: &[u8], values: Values) -> Result<Values, ReadValue>
        ensures { MatchResult result (λ same. (same ≡ values) × (self.old ≡ mark.now ++ self.new)) (λ error. (error ≡ ReadValue.NotAValue) × ((rest : List ℕ) → self.old ≢ mark.now ++ rest)) }
    {
        if self.takes(mark) {
            Ok(values)
        } else {
            Err(ReadValue::NotAValue)
        }
    }

    /// Whether a name and a mark come next. They are taken if so; else the name alone may be.
    fn opens(&mut self, name: &[u8], mark: &[u8]) -> bool
        ensures { MatchBool result (self.old ≡ (name.now ++ mark.now) ++ self.new) ((rest : List ℕ) → self.old ≢ (name.now ++ mark.now) ++ rest) }
    {
        self.takes(name) && self.takes(mark)
    }

    /// Whether a text comes next. It is taken if so.
    fn takes(&mut self, text: &[u8]) -> bool
        ensures { Takes text.now result self.old self.new }
    {
        match self.left.strip_prefix(text) {
            Some(left) => {
                self.left = left;
                true
            }
            None => false,
        }
    }
}

/// The number of the first variant with this name, if it has 32 bits.
fn variant_of(variants: &[Text], name: &[u8]) -> Option<u32>
    ensures some { IfSome result (λ variant. (variant < 2 ^ 32) × (slice_get variants.now variant ≡ Some name.now)) }
    ensures none { IfNone result ((variant : ℕ) → variant < 2 ^ 32 → slice_get variants.now variant ≢ Some name.now) }
{
    let place = place_of(variants, name)?;
    if place > u32::MAX as usize {
        return None;
    }
    Some(place as u32)
}

/// Where the first variant with this name stands.
fn place_of(variants: &[Text], name: &[u8]) -> Option<usize>
    ensures { result ≡ position (λ variant. bytes_eq variant name.now) variants.now }
{
    variants
        .iter()
        .position(|variant| variant.as_slice() == name)
}

/// The whole number whose spelling begins the bytes, where no word goes on from it, and how many
/// bytes the spelling has.
fn read_number(bytes: &[u8]) -> Option<(i64, usize)>
    ensures none { IfNone result ((number : ℤ) → FitsSigned w64 number → ¬ (Begins (signed_decimal number) bytes.now)) }
    ensures begins { IfSome result (λ found. Begins (signed_decimal found.0) bytes.now) }
    ensures size { IfSome result (λ found. found.1 ≡ length (signed_decimal found.0)) }
    ensures only { IfSome result (λ found. (number : ℤ) → FitsSigned w64 number → Begins (signed_decimal number) bytes.now → number ≡ found.0) }
{
    let text = &bytes[..number_size(bytes)];
    let number = signed_decimal_of(text)?;
    Some((number, text.len()))
}

/// How many bytes a number at the front of the bytes has at most: a sign, and a word.
fn number_size(bytes: &[u8]) -> usize
    ensures size { result ≡ number_size bytes.now }
    ensures within { result ≤ length bytes.now }
{
    match bytes {
        [b'-', digits @ ..] => 1 + word_size(digits),
        _ => word_size(bytes),
    }
}
