//! Row counts of several tables added up, a table's first rows, and the rows of
//! two tables joined.
ghost use Rattle.std.specs.Prelude.{◌≡◌};
ghost use Rattle.planner.specs.Tables.{rows_total, first_of, key_question, rows_answered};

use keys::Whole;
use questions::{Estimator, JoinInput, JoinQuestion, JoinType, KeyPair, KeySide, NullEquality};
use stats::{ColumnStatistics, Precision, rescale_byte_size, scale_subset_count, total_of};

/// What is known of a part of a table.
#[derive(Clone, Copy)]
pub struct Part {
    pub rows: Precision<u64>,
    pub bytes: Precision<u64>,
    pub nulls: Precision<u64>,
}

/// The rows of all tables together.
pub fn total_rows(tables: &[Precision<u64>]) -> Precision<u64>
    ensures { result ≡ rows_total tables.now }
{
    total_of(tables)
}

/// The first `most` rows of a table, with their share of its bytes and nulls.
pub fn first_rows(
    rows: Precision<u64>,
    bytes: Precision<u64>,
    nulls: Precision<u64>,
    most: u64,
) -> Part
    ensures { result ≡ first_of rows bytes nulls most }
{
    let part = rows.min(Precision::Exact(most));
    Part {
        rows: part,
        bytes: rescale_byte_size(bytes, rows, part),
        nulls: rows
            .zip(part)
            .get_value()
            .map_or(Precision::Absent, |(from, to)| {
                scale_subset_count(nulls, from, to)
            }),
    }
}

/// A table's rows, and what is known of the column that it is joined by.
#[derive(Clone, Copy)]
pub struct KeyedRows {
    pub rows: Precision<u64>,
    pub key: ColumnStatistics<Whole>,
}

/// The estimated rows of two tables joined by their keys.
pub fn join_rows<E: Estimator<Whole>>(
    estimator: &E,
    join_type: JoinType,
    left: KeyedRows,
    right: KeyedRows,
) -> Precision<u64>
    ensures { result ≡ rows_answered (E.Estimator.figure estimator.now (key_question join_type left right)) }
{
    let on = [KeyPair {
        left: KeySide::Column(0),
        right: KeySide::Column(0),
    }];
    let question = JoinQuestion {
        join_type,
        null_equality: NullEquality::NullEqualsNothing,
        on: &on,
        left: JoinInput {
            num_rows: left.rows,
            columns: &[left.key],
        },
        right: JoinInput {
            num_rows: right.rows,
            columns: &[right.key],
        },
    };
    estimator
        .estimate(&question)
        .map_or(Precision::Absent, Precision::from)
}
