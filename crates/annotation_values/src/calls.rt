// The same questions over a value that lasts for one call.
ghost use Rattle.std.specs.Prelude.{◌≡◌, IfOk};
ghost use Rattle.annotation_values.specs.ElementValues as elements;

use crate::element_values::ElementValues;
use apt_base::{ElementRef, List, Name, NoMemory};
use element_table::Table;
use std::alloc::Global;
use type_mirror::{Annotation, Value};

/// What `ElementValues::mirrors` gives over a new value.
pub fn mirrors(alloc: Global, table: &Table, at: &ElementRef) -> Result<List<Annotation>, NoMemory>
    ensures { IfOk result (λ list. list ≡ elements.mirrors table.now at.now) }
{
    let mut values = ElementValues::new(alloc, table)?;
    let list = values.mirrors(at);
    drop(values);
    list
}

/// What `ElementValues::all_mirrors` gives over a new value.
pub fn all_mirrors(
    alloc: Global,
    table: &Table,
    at: &ElementRef,
) -> Result<List<Annotation>, NoMemory>
    ensures { IfOk result (λ list. list ≡ elements.all_mirrors table.now at.now) }
{
    let mut values = ElementValues::new(alloc, table)?;
    let list = values.all_mirrors(at);
    drop(values);
    list
}

/// What `ElementValues::values_with_defaults` gives over a new value.
pub fn values_with_defaults(
    alloc: Global,
    table: &Table,
    at: &ElementRef,
    number: u16,
) -> Result<Option<List<(Name, Value)>>, NoMemory>
    ensures { IfOk result (λ values. values ≡ elements.values_with_defaults table.now at.now number) }
{
    let mut values = ElementValues::new(alloc, table)?;
    let list = values.values_with_defaults(at, number);
    drop(values);
    list
}

/// What `ElementValues::constant_of` gives over a new value.
pub fn constant_of(alloc: Global, table: &Table, at: &ElementRef) -> Result<Option<Value>, NoMemory>
    ensures { IfOk result (λ value. value ≡ elements.constant_of table.now at.now) }
{
    let mut values = ElementValues::new(alloc, table)?;
    let value = values.constant_of(at);
    drop(values);
    value
}

/// What `ElementValues::default_of` gives over a new value.
pub fn default_of(alloc: Global, table: &Table, at: &ElementRef) -> Result<Option<Value>, NoMemory>
    ensures { IfOk result (λ value. value ≡ elements.default_of table.now at.now) }
{
    let mut values = ElementValues::new(alloc, table)?;
    let value = values.default_of(at);
    drop(values);
    value
}
