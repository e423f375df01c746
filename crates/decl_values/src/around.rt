// What is read around values of any type. Here it is proved once that a value may be dropped, and not again for each type.
ghost use Rattle.std.specs.Prelude.{◌≡◌, [], ◌∷◌, List};
ghost use Rattle.decl_grammar.specs.Reading.{Gives, UnlessMemory};
ghost use Rattle.decl_values.specs.Closings.{ended_by};

use apt_base::List;
use decl_grammar::{ReadFault, Symbol};
use decl_names::one;
use std::alloc::Global;

/// A value, where a symbol of this sort stands behind it.
pub fn ended<'a, 's, T: Drop>(
    value: T,
    symbols: &'s [Symbol<'a>],
    sort: u8,
) -> Result<(T, &'s [Symbol<'a>]), ReadFault>
    ensures { Gives (λ x. (x.0, x.1.now)) result (ended_by value sort symbols.now) }
{
    let (_, rest) = one(symbols, sort)?;
    Ok((value, rest))
}

/// Values, where a symbol of this sort stands behind them.
pub fn closed<'a, 's, T: Drop>(
    items: Vec<T>,
    symbols: &'s [Symbol<'a>],
    sort: u8,
) -> Result<(Vec<T>, &'s [Symbol<'a>]), ReadFault>
    ensures { Gives (λ x. (x.0.items, x.1.now)) result (ended_by items.items sort symbols.now) }
{
    let (_, rest) = one(symbols, sort)?;
    Ok((items, rest))
}

/// A value alone.
pub fn one_item<T: Drop>(alloc: Global, item: T) -> Result<Vec<T>, ReadFault>
    ensures { UnlessMemory result (λ all. all.items ≡ item ∷ []) }
{
    let mut all = Vec::new(alloc);
    all.push(item)?;
    Ok(all)
}

/// A value before others.
pub fn put_first<T: Drop>(item: T, others: List<T>) -> Result<List<T>, ReadFault>
    ensures { UnlessMemory result (λ all. all ≡ item ∷ others) }
{
    let mut all = others.into_vec();
    all.insert(0, item)?;
    Ok(List::from_vec(all))
}
