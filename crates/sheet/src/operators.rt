//! The operators of a sheet's nodes.
ghost use Rattle.std.specs.Prelude.{Some};
ghost use Rattle.std.specs.Fmt.{padded};
ghost use Rattle.sheet.specs.Names.{operator_name};

use crate::shorts::Short;
use questions::{JoinType, KeyPair, KeySide, NullEquality};
use std::fmt;

/// How far a grouping goes. The partial modes give groups of a part of the
/// rows only.
#[derive(Clone, Copy, PartialEq, Eq, Debug)]
pub enum AggregateMode {
    Partial,
    Final,
    FinalPartitioned,
    Single,
    SinglePartitioned,
    PartialReduce,
}

/// What a node was made by; children are nodes with lower numbers.
#[derive(Clone, Copy, PartialEq, Eq, Debug)]
pub enum Operator {
    /// A table as it was laid.
    Lay,
    Join {
        join_type: JoinType,
        null_equality: NullEquality,
        left: usize,
        right: usize,
        on: Short<KeyPair>,
    },
    Cross {
        left: usize,
        right: usize,
    },
    Limit {
        child: usize,
        skip: u64,
        fetch: Option<u64>,
    },
    Union {
        children: Short<usize>,
    },
    Group {
        mode: AggregateMode,
        sets: u64,
        extras: u64,
        child: usize,
        by: Short<KeySide>,
    },
}

/// A join has the name of its type; the others are `table`, `cross join`, `limit`,
/// `union` and `group`.
impl fmt::Display for Operator {
    ghost output = { λ o. Some (operator_name o) };

    ghost styled_output = { λ o spec. Some (padded spec (operator_name o)) };

    fn fmt<W: fmt::Write>(&self, f: &mut fmt::Formatter<W>) -> fmt::Result {
        match self {
            Operator::Lay => f.pad("table"),
            Operator::Join { join_type, .. } => join_type.fmt(f),
            Operator::Cross { .. } => f.pad("cross join"),
            Operator::Limit { .. } => f.pad("limit"),
            Operator::Union { .. } => f.pad("union"),
            Operator::Group { .. } => f.pad("group"),
        }
    }
}
