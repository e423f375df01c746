// Simple names: in the elements around a place, and in its unit.
ghost use Rattle.std.specs.Prelude.{◌≡◌, true, is_some, IfErr};
ghost use Rattle.name_resolve.specs.Ways.{node_at};
ghost use Rattle.name_resolve.specs.Meaning.{scope_of, in_scope, in_unit, simple};
ghost use Rattle.name_resolve.specs.Parts.{element_finds, enclosing_finds, header_finds};
ghost use Rattle.name_resolve.specs.Placed.{IsPlaced};
ghost use Rattle.name_resolve.specs.Remembered.{IsWanted, AreRight, Tells, tops_in};
ghost use Rattle.name_resolve.specs.Shown.{find_of};

use crate::finds::{Finds, Found, is_nothing};
use crate::member_types::MemberTypes;
use crate::memory::{Stop, copied};
use call_effort::Effort;
use decl_elements::place_at;

/// Whether anything stands there. It takes no memory.
pub fn is_there(at: &Found<'_>) -> bool
    ensures { result ≡ is_some (node_at at.now.unit.now at.now.path.items) }
{
    place_at(at.unit, at.path.as_slice()).is_some()
}

impl<'a> MemberTypes<'a> {
    // In one element: the member types that it declares, its type parameters, and the member types that it
    // inherits.
    fn in_element(
        &self,
        levels: usize,
        at: &Found<'a>,
        name: &str,
        effort: &mut Effort,
    ) -> Result<Finds<'a>, Stop<'a>>
        requires placed { IsPlaced self.now.table.now (find_of at.now) }
        requires right { AreRight self.now }
        ensures value { Tells result self.now levels
            (λ members. element_finds members (find_of at.now) name.now) }
        ensures wanted { IfErr result (IsWanted self.now.table.now) }
    {
        let own = self.declared(at, name, effort)?;
        if !is_nothing(&own) {
            return Ok(own);
        }
        let parameters = self.parameters(at, name, effort)?;
        if !is_nothing(&parameters) {
            return Ok(parameters);
        }
        let finds = self.above(levels, at, name, effort)?;
        Ok(finds)
    }

    // In an element that is there and in all that encloses it, from the inside out.
    fn in_elements(
        &self,
        levels: usize,
        innermost: Found<'a>,
        name: &str,
        effort: &mut Effort,
    ) -> Result<Finds<'a>, Stop<'a>>
        requires placed { IsPlaced self.now.table.now (find_of innermost) }
        requires there { is_some (node_at innermost.unit.now innermost.path.items) ≡ true }
        requires right { AreRight self.now }
        ensures value { Tells result self.now levels
            (λ members. enclosing_finds members (find_of innermost.entry) name.now) }
        ensures wanted { IfErr result (IsWanted self.now.table.now) }
    {
        let mut here = innermost;
        loop {
            let finds = self.in_element(levels, &here, name, effort)?;
            if !is_nothing(&finds) {
                return Ok(finds);
            }
            match here.path.pop() {
                None => return Ok(Finds::Nothing),
                Some(_) => {}
            }
        }
    }

    // In the `extends` or `implements` clause of an element that is there: its type parameters, and then what
    // is around it.
    fn in_header(
        &self,
        levels: usize,
        at: Found<'a>,
        name: &str,
        effort: &mut Effort,
    ) -> Result<Finds<'a>, Stop<'a>>
        requires placed { IsPlaced self.now.table.now (find_of at) }
        requires there { is_some (node_at at.unit.now at.path.items) ≡ true }
        requires right { AreRight self.now }
        ensures value { Tells result self.now levels
            (λ members. header_finds members (find_of at.entry) name.now) }
        ensures wanted { IfErr result (IsWanted self.now.table.now) }
    {
        let parameters = self.parameters(&at, name, effort)?;
        if !is_nothing(&parameters) {
            return Ok(parameters);
        }
        let mut above = at;
        match above.path.pop() {
            None => Ok(Finds::Nothing),
            Some(_) => {
                let finds = self.in_elements(levels, above, name, effort)?;
                Ok(finds)
            }
        }
    }

    fn in_scope(
        &self,
        levels: usize,
        header: bool,
        at: &Found<'a>,
        name: &str,
        effort: &mut Effort,
    ) -> Result<Finds<'a>, Stop<'a>>
        requires placed { IsPlaced self.now.table.now (find_of at.now) }
        requires right { AreRight self.now }
        ensures value { Tells result self.now levels
            (λ members. in_scope members name.now (scope_of header (find_of at.now))) }
        ensures wanted { IfErr result (IsWanted self.now.table.now) }
    {
        if !is_there(at) {
            return Ok(Finds::Nothing);
        }
        let innermost = copied(self.alloc, at)?;
        if header {
            let finds = self.in_header(levels, innermost, name, effort)?;
            return Ok(finds);
        }
        let finds = self.in_elements(levels, innermost, name, effort)?;
        Ok(finds)
    }

    // The types of the file, single imports, the types of the package, and imports on demand together with
    // `java.lang`.
    fn in_unit(
        &self,
        levels: usize,
        at: &Found<'a>,
        name: &str,
        effort: &mut Effort,
    ) -> Result<Finds<'a>, Stop<'a>>
        requires right { AreRight self.now }
        ensures value { Tells result self.now levels
            (λ members. in_unit (tops_in self.now) members at.now.part at.now.unit.now name.now) }
        ensures wanted { IfErr result (IsWanted self.now.table.now) }
    {
        let own = self.of_file(at, name, effort)?;
        if !is_nothing(&own) {
            return Ok(own);
        }
        let single = self.single_imports(levels, at, name, effort)?;
        if !is_nothing(&single) {
            return Ok(single);
        }
        let beside = self.beside(at, name, effort)?;
        if !is_nothing(&beside) {
            return Ok(beside);
        }
        let finds = self.on_demand_imports(levels, at, name, effort)?;
        Ok(finds)
    }

    /// What a simple name means.
    pub(crate) fn simple(
        &self,
        levels: usize,
        header: bool,
        at: &Found<'a>,
        name: &str,
        effort: &mut Effort,
    ) -> Result<Finds<'a>, Stop<'a>>
        requires placed { IsPlaced self.now.table.now (find_of at.now) }
        requires right { AreRight self.now }
        ensures value { Tells result self.now levels
            (λ members. simple (tops_in self.now) members (scope_of header (find_of at.now)) name.now) }
        ensures wanted { IfErr result (IsWanted self.now.table.now) }
    {
        let near = self.in_scope(levels, header, at, name, effort)?;
        if !is_nothing(&near) {
            return Ok(near);
        }
        let finds = self.in_unit(levels, at, name, effort)?;
        Ok(finds)
    }
}
