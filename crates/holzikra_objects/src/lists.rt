//! Values that are lists, or objects with one member.

ghost use Rattle.std.specs.Prelude.{◌≡◌, map, IfOk};
ghost use Rattle.serde_json.specs.View.{view};
ghost use Rattle.holzikra_json.specs.Lines.{whole};
ghost use Rattle.holzikra_objects.specs.Objects as objects;

use holzikra_json::Members;
use serde_json::Value;
use std::alloc::{AllocError, Global};

/// The value of a number.
pub(crate) fn whole(number: u64) -> Value
    ensures { view result ≡ whole number }
{
    Value::from(number)
}

/// The value of a list.
pub(crate) fn list(values: Vec<Value>) -> Value
    ensures { view result ≡ objects.list (map view values.items) }
{
    Value::from(values)
}

/// The list of the values of numbers.
pub(crate) fn wholes(alloc: Global, numbers: &[u32]) -> Result<Value, AllocError>
    ensures { IfOk result (λ value. view value ≡ objects.wholes numbers.now) }
{
    let mut values = Vec::new(alloc);
    for number in numbers {
        values.push(whole(u64::from(*number)))?;
    }
    Ok(list(values))
}

/// An object with one member.
pub(crate) fn only(alloc: Global, key: &str, value: Value) -> Result<Value, AllocError>
    ensures { IfOk result (λ made. view made ≡ objects.only key.now (view value)) }
{
    let mut members = Members::new(alloc);
    members.put(key, value)?;
    Ok(members.object())
}
