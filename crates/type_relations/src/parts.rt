// Types by their parts.
ghost use Rattle.std.specs.Prelude.{◌≡◌, None, IfOk};
ghost use Rattle.type_layers.specs.Layers.{declared_mirror, executable_mirror};
ghost use Rattle.type_layers.specs.Layers as layers;

use apt_base::{Boxed, ElementRef, List, NoMemory};
use std::alloc::Global;
use type_mirror::{Around, BaseMirror, DeclaredMirror, ExecutableMirror, Mirror};

/// An array of a type (JLS 10.1).
pub fn array_of(alloc: Global, item: Mirror) -> Result<Mirror, NoMemory>
    ensures { IfOk result (λ m. m ≡ layers.array_of item) }
{
    let mut around = List::new(alloc);
    around.push(Around::Array)?;
    item.wrapped(alloc, &around)
}

/// A class type in no enclosing type. It takes no memory.
pub fn class_type(alloc: Global, element: ElementRef, arguments: List<Mirror>) -> Mirror
    ensures { result ≡ declared_mirror element None arguments }
{
    let declared = DeclaredMirror {
        element,
        enclosing: None,
        arguments,
    };
    Mirror::plain(alloc, BaseMirror::Declared(declared))
}

/// The types of a method or a constructor.
pub fn executable(
    alloc: Global,
    variables: List<ElementRef>,
    parameters: List<Mirror>,
    outcome: Mirror,
    thrown: List<Mirror>,
) -> Result<Mirror, NoMemory>
    ensures { IfOk result (λ m. m ≡ executable_mirror variables parameters outcome thrown) }
{
    let result = Boxed::new(alloc, outcome)?;
    let executable = ExecutableMirror {
        variables,
        parameters,
        result,
        thrown,
    };
    Ok(Mirror::plain(alloc, BaseMirror::Executable(executable)))
}
