// The member types of a unit, each as a row of the index.
ghost use Rattle.std.specs.Prelude.{◌≡◌, IfOk, string_bytes};
ghost use Rattle.element_table.specs.MemberTypes.{member_key, Notes, AreRowsOf};

use apt_base::NoMemory;
use decl_elements::{Place, Visitor, walk};
use decl_tree::Unit;
use std::alloc::Global;

/// A member type: its key, and its number among the children of the type that declares it.
#[derive(Drop)]
pub(crate) struct Row {
    pub key: String,
    pub number: u16,
}

// The rows of the places of a unit so far.
#[derive(Drop)]
struct Rows<'a> {
    alloc: Global,
    unit: &'a str,
    rows: Vec<Row>,
}

/// The key of the member types of this name that the type at a path of a unit declares.
#[tactic(auto, unfolding(crate::specs::MemberTypes::member_key))]
pub(crate) fn member_key(
    alloc: Global,
    unit: &str,
    path: &[u16],
    name: &str,
) -> Result<String, NoMemory>
    ensures { IfOk result (λ key. string_bytes key ≡ member_key unit.now path.now name.now) }
{
    let mut key = String::from_str(alloc, name)?;
    key.push(' ')?;
    key.push_str(unit)?;
    for step in path {
        let number = *step;
        let text = format!(in alloc; " {number}")?;
        key.push_str(text.as_str())?;
    }
    Ok(key)
}

impl Visitor for Rows<'_> {
    ghost visits = { λ old at new.
        Notes old.unit.now old.rows.items at new.rows.items × (new.unit.now ≡ old.unit.now) };

    fn visit(&mut self, path: &[u16], place: Place<'_>) -> Result<(), NoMemory> {
        let Some(declaration) = place.declaration() else {
            return Ok(());
        };
        let Some((number, above)) = path.split_last() else {
            return Ok(());
        };
        let key = member_key(self.alloc, self.unit, above, declaration.name.as_str())?;
        let number = *number;
        self.rows.push(Row { key, number })?;
        Ok(())
    }
}

/// The rows of a unit, which stands under this name.
pub(crate) fn member_rows(alloc: Global, name: &str, unit: &Unit) -> Result<Vec<Row>, NoMemory>
    ensures { IfOk result (λ rows. AreRowsOf rows.items name.now unit.now) }
{
    let mut rows = Rows {
        alloc,
        unit: name,
        rows: Vec::new(alloc),
    };
    walk(alloc, unit, &mut rows)?;
    Ok(rows.rows)
}
