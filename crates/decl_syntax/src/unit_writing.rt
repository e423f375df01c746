// Declarations and units, written by their spelling.
ghost use Rattle.std.specs.Prelude.{◌≡◌, ◌++◌, OnOk, IfOk};
ghost use Rattle.apt_base.specs.Forms.{list_form};
ghost use Rattle.decl_syntax.specs.Numbers.{kind_number};
ghost use Rattle.decl_syntax.specs.Shapes.{IsOnlySpelled};
ghost use Rattle.decl_syntax.specs.Shape.{head_form, member_form, declaration_form, body_form, unit_form};

use crate::in_unit::{write_list, write_modifiers, write_optional};
use crate::member_writing::{constant, constructor, field, method};
use apt_base::{
    FieldWriter, List, NoMemory, write_count, write_optional_text, write_text, write_texts,
};
use decl_tree::{Body, Member, TypeDecl, TypeKind, Unit, UnitText};
use std::alloc::Global;

fn kind(kind: TypeKind) -> u8
    ensures { result ≡ kind_number kind }
{
    match kind {
        TypeKind::Enum => 1,
        TypeKind::Class => 2,
        TypeKind::AnnotationType => 3,
        TypeKind::Interface => 4,
    }
}

// What stands before the members.
#[tactic(auto, unfolding(crate::specs::Shape::head_form))]
fn head(writer: &mut FieldWriter, of: &TypeDecl) -> Result<(), NoMemory>
    ensures { OnOk result (writer.new ≡ writer.old ++ head_form of.now) }
{
    writer.u8(kind(of.kind))?;
    write_text(writer, &of.name)?;
    write_modifiers(writer, of.modifiers)?;
    write_list(writer, of.annotations.as_slice())?;
    write_optional_text(writer, &of.doc)?;
    write_list(writer, of.parameters.as_slice())?;
    write_optional(writer, &of.superclass)?;
    write_list(writer, of.interfaces.as_slice())
}

#[cycle(unit_writing)]
fn declaration(writer: &mut FieldWriter, of: &TypeDecl) -> Result<(), NoMemory>
    ensures { OnOk result (writer.new ≡ writer.old ++ declaration_form of.now) }
{
    head(writer, of)?;
    members(writer, of.members.as_slice())
}

#[cycle(unit_writing)]
fn member(writer: &mut FieldWriter, of: &Member) -> Result<(), NoMemory>
    ensures { OnOk result (writer.new ≡ writer.old ++ member_form of.now) }
{
    match of {
        Member::Field(inner) => {
            writer.u8(0)?;
            field(writer, inner)
        }
        Member::Method(inner) => {
            writer.u8(1)?;
            method(writer, inner)
        }
        Member::Constructor(inner) => {
            writer.u8(2)?;
            constructor(writer, inner)
        }
        Member::Constant(inner) => {
            writer.u8(3)?;
            constant(writer, inner)
        }
        Member::Nested(inner) => {
            writer.u8(4)?;
            declaration(writer, inner)
        }
    }
}

#[cycle(unit_writing)]
#[tactic(auto, unfolding(apt_base::specs::Forms::count_form))]
fn members(writer: &mut FieldWriter, items: &[Member]) -> Result<(), NoMemory>
    ensures { OnOk result (writer.new ≡ writer.old ++ list_form member_form items.now) }
{
    write_count(writer, items.len())?;
    for each in items {
        member(writer, each)?;
    }
    Ok(())
}

#[tactic(auto, unfolding(crate::specs::Shape::body_form))]
fn body(writer: &mut FieldWriter, body: &Body) -> Result<(), NoMemory>
    ensures { OnOk result (writer.new ≡ writer.old ++ body_form body.now) }
{
    match body {
        Body::Declared(of) => {
            writer.u8(0)?;
            declaration(writer, of)
        }
        Body::Info(of, doc) => {
            writer.u8(1)?;
            write_list(writer, of.as_slice())?;
            write_optional_text(writer, doc)
        }
    }
}

#[tactic(auto, unfolding(crate::specs::Shape::unit_form))]
fn unit(writer: &mut FieldWriter, unit: &UnitText) -> Result<(), NoMemory>
    ensures { OnOk result (writer.new ≡ writer.old ++ unit_form unit.now) }
{
    write_text(writer, &unit.package)?;
    write_list(writer, unit.imports.get().as_slice())?;
    write_texts(writer, unit.siblings.get().as_slice())?;
    body(writer, &unit.body)
}

fn spell(alloc: Global, of: &UnitText) -> Result<List<u8>, NoMemory>
    ensures { IfOk result (λ bytes. bytes ≡ unit_form of.now) }
{
    let mut writer = FieldWriter::new(alloc);
    unit(&mut writer, of)?;
    Ok(writer.into_bytes())
}

/// The one spelling of a unit in bytes, or out of memory. No other unit has it, and that of no other unit begins with it.
pub fn shape(alloc: Global, of: &Unit) -> Result<List<u8>, NoMemory>
    ensures spelled { IfOk result (λ bytes. bytes ≡ unit_form of.now) }
    ensures only { IsOnlySpelled of.now }
{
    spell(alloc, of.text())
}
