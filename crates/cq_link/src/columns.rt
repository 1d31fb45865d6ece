//! Columns of items, one for each party, which grow by one item at a time.
ghost use Rattle.std.specs.Prelude.{◌≡◌, ◌++◌, ◌∷◌, [], List, map, IfOk, replicate};

use std::alloc::{AllocError, Global};

/// So many empty columns.
pub(crate) fn empty_columns<X: Drop>(alloc: Global, count: usize) -> Result<Vec<Vec<X>>, AllocError>
    ensures { IfOk result (λ columns. map (λ column. column.items) columns.items ≡ replicate count []) }
{
    let mut columns = Vec::new(alloc);
    for _ in 0..count {
        columns.reserve(1)?;
        columns.push_reserved(Vec::new(alloc));
    }
    Ok(columns)
}
