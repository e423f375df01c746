// What copying a value takes.
use type_mirror::{NamedValue, Value};

// What is counted for a value beside its text.
const BYTES_OF_VALUE: usize = 64;

fn size_with(text: usize) -> usize {
    text.saturating_add(BYTES_OF_VALUE)
}

/// About how many bytes a copy of the value takes.
#[cycle(size)]
pub(crate) fn size(value: &Value) -> usize {
    match value {
        Value::Truth(_) => BYTES_OF_VALUE,
        Value::Whole(_, _) => BYTES_OF_VALUE,
        Value::Character(_) => BYTES_OF_VALUE,
        Value::Text(text) => size_with(text.as_str().len()),
        Value::Class(_) => BYTES_OF_VALUE,
        Value::Constant(_) => BYTES_OF_VALUE,
        Value::Array(items) => size_with(size_of_all(items.as_slice())),
        Value::Nested(annotation) => size_with(size_of_named(annotation.values.as_slice())),
        Value::Other(text) => size_with(text.as_str().len()),
        Value::Floating(text) => size_with(text.as_str().len()),
    }
}

#[cycle(size)]
fn size_of_all(values: &[Value]) -> usize {
    let mut all: usize = 0;
    for value in values {
        all = all.saturating_add(size(value));
    }
    all
}

#[cycle(size)]
fn size_of_named(values: &[NamedValue]) -> usize {
    let mut all: usize = 0;
    for named in values {
        all = all.saturating_add(size(&named.value));
    }
    all
}
