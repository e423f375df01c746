// What names mean as values.
ghost use Rattle.std.specs.Prelude.{◌≡◌, map, IfOk};
ghost use Rattle.decl_tree.specs.declared.compilation.ImportKind.TheVariants.{StaticSingle};
ghost use Rattle.name_resolve.specs.Finds.{together};
ghost use Rattle.name_resolve.specs.Meaning.{tops_of, imported};
ghost use Rattle.name_resolve.specs.Parts.{lent};
ghost use Rattle.name_resolve.specs.Placed.{IsPlaced, ArePlaced};
ghost use Rattle.name_resolve.specs.Shown.{find_of, finds_of, Gives};
ghost use Rattle.expression_names.specs.Fields.{fields_of, enclosing_fields, field_by_single};
ghost use Rattle.expression_names.specs.Fields.{field_by_single_import, field_by_import_on_demand};
ghost use Rattle.expression_names.specs.Fields.{simple_field, field_meaning};

use crate::fields::{Fields, is_nothing};
use apt_base::NoMemory;
use decl_tree::{Import, ImportKind};
use element_table::Part;
use name_resolve::{Finds, Found, both, copied, is_there, split};

impl<'a> Fields<'a> {
    // ---- around

    // The fields of this name of what stands there, or else of the innermost of what is around it that has any.
    fn enclosing_fields(&mut self, at: &Found<'a>, name: &str) -> Result<Finds<'a>, NoMemory>
        requires placed { IsPlaced self.old (find_of at.now) }
        ensures value { Gives result (enclosing_fields self.old (find_of at.now) name.now) }
        ensures kept { self.new ≡ self.old }
    {
        let mut here = copied(self.alloc, at)?;
        if !is_there(at) {
            return Ok(Finds::Nothing);
        }
        loop {
            let finds = self.fields(&here, name)?;
            if !is_nothing(&finds) {
                return Ok(finds);
            }
            match here.path.pop() {
                None => return Ok(Finds::Nothing),
                Some(_) => {}
            }
        }
    }

    // ---- imports

    // The fields of this name of the type that an import names.
    fn imported_fields(
        &mut self,
        part: Part,
        names: &[&str],
        name: &str,
    ) -> Result<Finds<'a>, NoMemory>
        ensures value { Gives result
            (fields_of self.old (imported (tops_of self.old) part (lent names.now)) name.now) }
        ensures kept { self.new ≡ self.old }
    {
        let of = self.looks.imported(part, names)?;
        self.fields_of(of, name)
    }

    // By a static single import of these names.
    fn by_single(&mut self, part: Part, names: &[&str], name: &str) -> Result<Finds<'a>, NoMemory>
        ensures value { Gives result (field_by_single self.old part name.now (lent names.now) StaticSingle) }
        ensures kept { self.new ≡ self.old }
    {
        let Some((last, front)) = names.split_last() else {
            return Ok(Finds::Nothing);
        };
        if *last == name {
            let finds = self.imported_fields(part, front, name)?;
            return Ok(finds);
        }
        Ok(Finds::Nothing)
    }

    // By one import, if it is static and of a single name.
    fn by_single_import(
        &mut self,
        part: Part,
        name: &str,
        import: &Import,
    ) -> Result<Finds<'a>, NoMemory>
        ensures value { Gives result (field_by_single_import self.old part name.now import.now) }
        ensures kept { self.new ≡ self.old }
    {
        match import.kind {
            ImportKind::StaticSingle => {
                let names = split(self.alloc, import.name.as_str())?;
                let finds = self.by_single(part, names.as_slice(), name)?;
                Ok(finds)
            }
            ImportKind::Single => Ok(Finds::Nothing),
            ImportKind::OnDemand => Ok(Finds::Nothing),
            ImportKind::StaticOnDemand => Ok(Finds::Nothing),
        }
    }

    // By one import, if it is static and on demand.
    fn by_import_on_demand(
        &mut self,
        part: Part,
        name: &str,
        import: &Import,
    ) -> Result<Finds<'a>, NoMemory>
        ensures value { Gives result (field_by_import_on_demand self.old part name.now import.now) }
        ensures kept { self.new ≡ self.old }
    {
        match import.kind {
            ImportKind::StaticOnDemand => {
                let names = split(self.alloc, import.name.as_str())?;
                let finds = self.imported_fields(part, names.as_slice(), name)?;
                Ok(finds)
            }
            ImportKind::Single => Ok(Finds::Nothing),
            ImportKind::StaticSingle => Ok(Finds::Nothing),
            ImportKind::OnDemand => Ok(Finds::Nothing),
        }
    }

    // By all static single imports, as one place.
    fn by_single_imports(
        &mut self,
        part: Part,
        name: &str,
        imports: &[Import],
    ) -> Result<Finds<'a>, NoMemory>
        ensures value { Gives result
            (together (map (field_by_single_import self.old part name.now) imports.now)) }
        ensures kept { self.new ≡ self.old }
    {
        let mut finds = Finds::Nothing;
        for import in imports {
            let more = self.by_single_import(part, name, import)?;
            finds = both(finds, more);
        }
        Ok(finds)
    }

    // By all static imports on demand, as one place.
    fn by_imports_on_demand(
        &mut self,
        part: Part,
        name: &str,
        imports: &[Import],
    ) -> Result<Finds<'a>, NoMemory>
        ensures value { Gives result
            (together (map (field_by_import_on_demand self.old part name.now) imports.now)) }
        ensures kept { self.new ≡ self.old }
    {
        let mut finds = Finds::Nothing;
        for import in imports {
            let more = self.by_import_on_demand(part, name, import)?;
            finds = both(finds, more);
        }
        Ok(finds)
    }

    // ---- all names

    // What a simple name means there.
    fn simple_field(&mut self, at: &Found<'a>, name: &str) -> Result<Finds<'a>, NoMemory>
        requires placed { IsPlaced self.old (find_of at.now) }
        ensures value { Gives result (simple_field self.old (find_of at.now) name.now) }
        ensures kept { self.new ≡ self.old }
    {
        let near = self.enclosing_fields(at, name)?;
        if !is_nothing(&near) {
            return Ok(near);
        }
        let imports = at.unit.text().imports.get().as_slice();
        let single = self.by_single_imports(at.part, name, imports)?;
        if !is_nothing(&single) {
            return Ok(single);
        }
        let finds = self.by_imports_on_demand(at.part, name, imports)?;
        Ok(finds)
    }

    // What these names mean where they are written in an element.
    fn field_meaning(&mut self, at: &Found<'a>, names: &[&str]) -> Result<Finds<'a>, NoMemory>
        requires placed { IsPlaced self.old (find_of at.now) }
        ensures value { Gives result (field_meaning self.old (find_of at.now) (lent names.now)) }
        ensures kept { self.new ≡ self.old }
    {
        let Some((last, front)) = names.split_last() else {
            return Ok(Finds::Nothing);
        };
        if front.is_empty() {
            let finds = self.simple_field(at, *last)?;
            return Ok(finds);
        }
        let of = self.looks.qualifier_meaning(false, at, front)?;
        let finds = self.fields_of(of, *last)?;
        Ok(finds)
    }

    /// What these names mean where they are written in an element (JLS 6.5.6): a field or an enum constant.
    /// `Nothing` where they mean none, and `Several` where different ones are found at one place.
    #[tactic(auto, using(crate::proofs::FieldsPlaced::meant_placed))]
    pub fn meaning(&mut self, at: &Found<'a>, names: &[&str]) -> Result<Finds<'a>, NoMemory>
        requires placed { IsPlaced self.old (find_of at.now) }
        ensures value { Gives result (field_meaning self.old (find_of at.now) (lent names.now)) }
        ensures placed { IfOk result (λ f. ArePlaced self.old (finds_of f)) }
        ensures kept { self.new ≡ self.old }
    {
        self.make_room();
        let finds = self.field_meaning(at, names)?;
        Ok(finds)
    }
}
