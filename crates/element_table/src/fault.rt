// Why a unit was not entered.
use decl_tree::Unit;

/// Why a unit was not entered. The unit comes back.
#[derive(Drop)]
pub enum EnterFault {
    /// Its name is in the table already, in either part.
    Duplicate(Unit),
    /// With its own types the table would have more than 50,000.
    TooMany(Unit),
    /// There was no memory.
    Memory(Unit),
}
