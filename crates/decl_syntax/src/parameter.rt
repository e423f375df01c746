// Type parameters and formal parameters, both ways.
ghost use Rattle.std.specs.Prelude.{◌≡◌};
ghost use Rattle.decl_syntax.specs.Reading.{type_param_next, param_next};
ghost use Rattle.decl_syntax.specs.Shape.{type_param_form, param_form};

use crate::in_unit::{InUnit, list_of, read_modifiers, write_list, write_modifiers};
use crate::{type_reading, type_writing};
use apt_base::{FieldReader, FieldWriter, FormFault, NoMemory, read_text, write_text};
use decl_tree::{Param, TypeParam};
use std::alloc::Global;

impl InUnit for TypeParam {
    ghost next = { type_param_next };

    ghost form = { type_param_form };

    #[tactic(auto, unfolding(crate::specs::Reading::type_param_next))]
    fn read(alloc: Global, reader: &mut FieldReader, room: u32) -> Result<TypeParam, FormFault> {
        let name = read_text(alloc, reader)?;
        let annotations = list_of(alloc, reader, room)?;
        let bounds = list_of(alloc, reader, room)?;
        Ok(TypeParam {
            name,
            annotations,
            bounds,
        })
    }

    #[tactic(auto, unfolding(crate::specs::Shape::type_param_form))]
    fn write(&self, writer: &mut FieldWriter) -> Result<(), NoMemory> {
        write_text(writer, &self.name)?;
        write_list(writer, self.annotations.as_slice())?;
        write_list(writer, self.bounds.as_slice())
    }
}

impl InUnit for Param {
    ghost next = { param_next };

    ghost form = { param_form };

    #[tactic(auto, unfolding(crate::specs::Reading::param_next))]
    fn read(alloc: Global, reader: &mut FieldReader, room: u32) -> Result<Param, FormFault> {
        let name = read_text(alloc, reader)?;
        let modifiers = read_modifiers(reader)?;
        let annotations = list_of(alloc, reader, room)?;
        let of = type_reading::type_text(alloc, reader, room)?;
        Ok(Param {
            name,
            modifiers,
            annotations,
            of,
        })
    }

    #[tactic(auto, unfolding(crate::specs::Shape::param_form))]
    fn write(&self, writer: &mut FieldWriter) -> Result<(), NoMemory> {
        write_text(writer, &self.name)?;
        write_modifiers(writer, self.modifiers)?;
        write_list(writer, self.annotations.as_slice())?;
        type_writing::type_text(writer, &self.of)
    }
}
