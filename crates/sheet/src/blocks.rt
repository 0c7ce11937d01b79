//! The block of a new node: its columns, before and as they are trimmed.
ghost use Rattle.std.specs.Prelude.{◌≡◌, ◌+◌, ◌++◌, map, length};
ghost use Rattle.stats.specs.Columns.{column_inexact};
ghost use Rattle.stats.specs.Trim.{trimmed};
ghost use Rattle.sheet.specs.Made.{unknowns};

use keys::Key;
use stats::{ColumnStatistics, Precision};

// What writes a block is handed just its columns: how many there are is a fact of two
// arguments together, and so a clause and in no type.

/// Writes the columns of two tables, left then right.
pub(crate) fn put_both<K: Key>(
    block: &mut [ColumnStatistics<K>],
    left: &[ColumnStatistics<K>],
    right: &[ColumnStatistics<K>],
)
    requires { length block.old ≡ length left.now + length right.now }
    ensures { block.new ≡ left.now ++ right.now }
{
    let (first, second) = block.split_at_mut(left.len());
    first.copy_from_slice(left);
    second.copy_from_slice(right);
}

/// Writes columns of which nothing is known.
pub(crate) fn put_unknown<K: Key>(block: &mut [ColumnStatistics<K>])
    ensures { block.new ≡ unknowns (length block.old) }
{
    block.fill(ColumnStatistics::unknown());
}

// Two loops, and no closure over both: of a closure a contract knows what it may
// answer, and here the list that comes out is said.

/// Makes all columns Inexact.
pub(crate) fn loosen<K: Key>(block: &mut [ColumnStatistics<K>])
    ensures { block.new ≡ map column_inexact block.old }
{
    for column in block.iter_mut() {
        *column = column.to_inexact();
    }
}

/// Writes the columns of a table, made Inexact.
pub(crate) fn put_loosened<K: Key>(
    block: &mut [ColumnStatistics<K>],
    columns: &[ColumnStatistics<K>],
)
    requires { length block.old ≡ length columns.now }
    ensures { block.new ≡ map column_inexact columns.now }
{
    block.copy_from_slice(columns);
    loosen(block);
}

/// Trims all columns to a node's rows.
// Just the two counts are written: a trim leaves the rest of a column as it is.
pub(crate) fn trim_all<K: Key>(block: &mut [ColumnStatistics<K>], rows: Precision<u64>)
    ensures { block.new ≡ map (trimmed rows) block.old }
{
    for column in block.iter_mut() {
        let trimmed = column.trim(rows);
        column.null_count = trimmed.null_count;
        column.distinct_count = trimmed.distinct_count;
    }
}
