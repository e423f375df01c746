// The index of member types by their names.
ghost use Rattle.std.specs.Prelude.{◌≡◌, Some, IfOk, OnOk, OnErr, string_bytes};
ghost use Rattle.std.specs.FinMap as fin;
ghost use Rattle.element_table.specs.MemberTypes.{ranges_of, widened, Keeps, HasRows, Covers};

use crate::child_range::{ChildRange, widened};
use crate::member_rows::{Row, member_rows};
use apt_base::NoMemory;
use decl_tree::Unit;
use std::alloc::Global;
use std::collections::BTreeMap;

/// Where the member types of a name stand among the children of a type, by a key of the unit, the path and
/// the name. Each look-up takes logarithmic time.
#[derive(Drop)]
pub(crate) struct MemberIndex {
    held: BTreeMap<String, ChildRange>,
}

impl MemberIndex {
    /// The empty index. It takes no memory.
    pub fn new(alloc: Global) -> Self
        ensures { ranges_of result ≡ fin.empty }
    {
        MemberIndex {
            held: BTreeMap::new(alloc),
        }
    }

    /// The range at a key. It takes no memory.
    pub fn get(&self, key: &str) -> Option<ChildRange>
        ensures { result ≡ fin.get (ranges_of self.now) key.now }
    {
        self.held.get(key).copied()
    }

    // Puts a range at a key, or leaves the index as it was.
    fn put(&mut self, key: String, range: ChildRange) -> Result<(), NoMemory>
        ensures ok { OnOk result
            (ranges_of self.new ≡ fin.insert (ranges_of self.old) (string_bytes key) range) }
        ensures err { OnErr result (ranges_of self.new ≡ ranges_of self.old) }
    {
        self.held.insert(key, range)?;
        Ok(())
    }

    // A row more.
    fn add_row(&mut self, row: Row) -> Result<(), NoMemory>
        ensures ok { OnOk result (ranges_of self.new ≡ fin.insert (ranges_of self.old) (string_bytes row.key)
            (widened (fin.get (ranges_of self.old) (string_bytes row.key)) row.number)) }
        ensures err { OnErr result (ranges_of self.new ≡ ranges_of self.old) }
    {
        let Row { key, number } = row;
        let range = widened(self.get(key.as_str()), number);
        self.put(key, range)
    }

    // Adds rows. Without memory some may be missing, but none that were there before.
    fn add_rows(&mut self, rows: Vec<Row>) -> Result<(), NoMemory>
        ensures keeps { Keeps (ranges_of self.old) (ranges_of self.new) }
        ensures rows { OnOk result (HasRows (ranges_of self.new) rows.items) }
    {
        for row in rows {
            self.add_row(row)?;
        }
        Ok(())
    }

    /// Adds the member types of a unit, which stands under this name. Without memory some may be missing, but
    /// none that were there before.
    pub fn add_unit(&mut self, alloc: Global, name: &str, unit: &Unit) -> Result<(), NoMemory>
        ensures keeps { Keeps (ranges_of self.old) (ranges_of self.new) }
        ensures unit { OnOk result (Covers (ranges_of self.new) name.now (Some unit.now)) }
    {
        let rows = member_rows(alloc, name, unit)?;
        self.add_rows(rows)
    }

    /// An equal index.
    pub fn copy(&self, alloc: Global) -> Result<MemberIndex, NoMemory>
        ensures { IfOk result (λ index. ranges_of index ≡ ranges_of self.now) }
    {
        let mut index = MemberIndex::new(alloc);
        for (key, range) in &self.held {
            index.put(String::from_str(alloc, key.as_str())?, *range)?;
        }
        Ok(index)
    }
}
