//! What is known of a table's rows and columns: counts with their exactness,
//! and the limits that counts keep.
#![tactic(auto)]

mod bytes;
mod columns;
mod distincts;
mod exactness;
mod limits;
mod products;
mod scaling;
mod totals;

pub use bytes::rescale_byte_size;
pub use columns::{ColumnStatistics, all_sound};
pub use distincts::max_distinct_count;
pub use exactness::Precision;
pub use limits::{MAX_COLUMN_BYTES, MAX_COUNT, MAX_NODE_BYTES};
pub use products::stopping_product;
pub use scaling::scale_subset_count;
pub use totals::total_of;

#[cfg(test)]
mod tests;
