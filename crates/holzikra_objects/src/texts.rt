//! Values of texts and names.

ghost use Rattle.std.specs.Prelude.{◌≡◌, map, option_map, IfOk};
ghost use Rattle.serde_json.specs.View.{view};
ghost use Rattle.holzikra_json.specs.Lines as lines;
ghost use Rattle.stencil_data.specs.StandsFor as stands;
ghost use Rattle.holzikra_objects.specs.Objects as objects;

use crate::lists::{list, only, whole};
use serde_json::Value;
use std::alloc::{AllocError, Global};
use stencil_data::Text;

/// The units of the text of an atom, none where there is no such text.
pub(crate) fn text_at(texts: &[Text], atom: u64) -> &[u16]
    ensures { result.now ≡ stands.text_at texts.now atom }
{
    match texts.get(atom as usize) {
        None => &[],
        Some(text) => text.units(),
    }
}

/// The list of the values of units.
fn units_value(alloc: Global, units: &[u16]) -> Result<Value, AllocError>
    ensures { IfOk result (λ value. view value ≡ objects.wholes units.now) }
{
    let mut values = Vec::new(alloc);
    for unit in units {
        values.push(whole(u64::from(*unit)))?;
    }
    Ok(list(values))
}

/// The value of a text: a string, or its units where one of them is a surrogate without its other half.
pub(crate) fn text_value(alloc: Global, units: &[u16]) -> Result<Value, AllocError>
    ensures { IfOk result (λ value. view value ≡ objects.text_data units.now) }
{
    let made = String::from_utf16(alloc, units)?;
    match made {
        Ok(text) => Ok(Value::from(text)),
        Err(_) => {
            let value = only(alloc, "units", units_value(alloc, units)?)?;
            Ok(value)
        }
    }
}

/// The value of a name, or null.
pub fn name_value(alloc: Global, texts: &[Text], name: Option<u32>) -> Result<Value, AllocError>
    ensures { IfOk result (λ value. view value ≡ objects.name_data (option_map (stands.text_at texts.now) name)) }
{
    match name {
        None => Ok(Value::Null),
        Some(atom) => {
            let value = text_value(alloc, text_at(texts, u64::from(atom)))?;
            Ok(value)
        }
    }
}
