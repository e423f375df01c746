// Members, written by their spelling.
ghost use Rattle.std.specs.Prelude.{◌≡◌, ◌++◌, OnOk};
ghost use Rattle.decl_syntax.specs.Shape.{field_form, method_form, constructor_form, constant_form};

use crate::in_unit::{write_list, write_modifiers, write_optional};
use crate::type_writing::type_text;
use apt_base::{FieldWriter, NoMemory, write_optional_text, write_text};
use decl_tree::{ConstantDecl, ConstructorDecl, FieldDecl, MethodDecl};

#[tactic(auto, unfolding(crate::specs::Shape::field_form))]
pub(crate) fn field(writer: &mut FieldWriter, field: &FieldDecl) -> Result<(), NoMemory>
    ensures { OnOk result (writer.new ≡ writer.old ++ field_form field.now) }
{
    write_text(writer, &field.name)?;
    write_modifiers(writer, field.modifiers)?;
    write_list(writer, field.annotations.as_slice())?;
    write_optional_text(writer, &field.doc)?;
    type_text(writer, &field.of)?;
    write_optional(writer, &field.constant)
}

#[tactic(auto, unfolding(crate::specs::Shape::method_form))]
pub(crate) fn method(writer: &mut FieldWriter, method: &MethodDecl) -> Result<(), NoMemory>
    ensures { OnOk result (writer.new ≡ writer.old ++ method_form method.now) }
{
    write_text(writer, &method.name)?;
    write_modifiers(writer, method.modifiers)?;
    write_list(writer, method.annotations.as_slice())?;
    write_optional_text(writer, &method.doc)?;
    write_list(writer, method.parameters.as_slice())?;
    type_text(writer, &method.result)?;
    write_list(writer, method.arguments.as_slice())?;
    writer.bool(method.varargs)?;
    write_list(writer, method.thrown.as_slice())?;
    write_optional(writer, &method.default)
}

#[tactic(auto, unfolding(crate::specs::Shape::constructor_form))]
pub(crate) fn constructor(
    writer: &mut FieldWriter,
    constructor: &ConstructorDecl,
) -> Result<(), NoMemory>
    ensures { OnOk result (writer.new ≡ writer.old ++ constructor_form constructor.now) }
{
    write_modifiers(writer, constructor.modifiers)?;
    write_list(writer, constructor.annotations.as_slice())?;
    write_optional_text(writer, &constructor.doc)?;
    write_list(writer, constructor.parameters.as_slice())?;
    write_list(writer, constructor.arguments.as_slice())?;
    writer.bool(constructor.varargs)?;
    write_list(writer, constructor.thrown.as_slice())
}

#[tactic(auto, unfolding(crate::specs::Shape::constant_form))]
pub(crate) fn constant(writer: &mut FieldWriter, constant: &ConstantDecl) -> Result<(), NoMemory>
    ensures { OnOk result (writer.new ≡ writer.old ++ constant_form constant.now) }
{
    write_text(writer, &constant.name)?;
    write_list(writer, constant.annotations.as_slice())?;
    write_optional_text(writer, &constant.doc)?;
    writer.bool(constant.body)
}
