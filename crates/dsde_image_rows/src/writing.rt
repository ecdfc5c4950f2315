//! Values, as they are written.

ghost use Rattle.std.specs.Prelude.{◌≡◌, IfOk};
ghost use Rattle.dsde_image_rows.specs.Rows.{texts};
ghost use Rattle.dsde_image_rows.specs.Walk.{texts_eq};
ghost use Rattle.dsde_image_rows.specs.Script.{script};

use dsde_sim_starting::given::program::Program;
use dsde_values::{Memory, Seq, Text, Value, Values, write_value};
use std::alloc::Global;

/// The text of a value.
#[tactic(auto, unfolding(crate::specs::Script::script))]
fn text_of(alloc: Global, program: &Program, value: &Value) -> Result<Text, Memory>
    ensures { IfOk result (λ text. text ≡ (script program.now).value value.now) }
{
    let mut text = Text::new(alloc);
    write_value(value, program.types(), &mut text)?;
    Ok(text)
}

/// The texts of values.
pub fn texts(alloc: Global, program: &Program, values: &Values) -> Result<Seq<Text>, Memory>
    ensures { IfOk result (λ own. own ≡ texts (script program.now) values.now) }
{
    let mut own = Seq::new(alloc);
    for value in values.as_slice() {
        own.push(text_of(alloc, program, value)?)?;
    }
    Ok(own)
}

/// Whether texts are the same, one by one.
fn are_same(texts: &[Text], others: &[Text]) -> bool
    ensures { result ≡ texts_eq texts.now others.now }
{
    let mut texts = texts;
    let mut others = others;
    while let Some((text, later)) = texts.split_first() {
        let Some((other, rest)) = others.split_first() else {
            return false;
        };
        if text.as_slice() != other.as_slice() {
            return false;
        }
        texts = later;
        others = rest;
    }
    others.is_empty()
}

/// Whether texts are those of values.
pub fn are_written(
    alloc: Global,
    program: &Program,
    own: &Seq<Text>,
    values: &Values,
) -> Result<bool, Memory>
    ensures { IfOk result (λ same. same ≡ texts_eq own.now (texts (script program.now) values.now)) }
{
    let written = texts(alloc, program, values)?;
    Ok(are_same(own.as_slice(), written.as_slice()))
}
