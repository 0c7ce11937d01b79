//! The limits of the counts that a sheet takes.

/// Rows, nulls and distincts.
pub const MAX_COUNT: u64 = 1 << 26;

/// Bytes of a column.
pub const MAX_COLUMN_BYTES: u64 = 1 << 30;

/// Bytes of a node.
pub const MAX_NODE_BYTES: u64 = 1 << 36;
