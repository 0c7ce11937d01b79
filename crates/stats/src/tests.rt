//! Precision by example.
use super::*;
use keys::{Mixed, ShortText, Whole};
use std::test::Fail;

const NONE: Precision<u64> = Precision::Absent;

#[test]
fn one_inexact_or_absent_side_decides(rt: HostRuntime) {
    let (four, about_nine) = (Precision::Exact(4), Precision::Inexact(9));
    assert_eq!(rt; four.max(about_nine), about_nine);
    assert_eq!(rt; about_nine.max(four), about_nine);
    assert_eq!(rt; four.min(about_nine), Precision::Inexact(4));
    assert_eq!(rt; four.min(Precision::Exact(9)), four);
    assert_eq!(rt; four.add(NONE), NONE);
    assert_eq!(rt; NONE.sub(four), NONE);
    assert_eq!(rt; NONE.max(NONE), NONE);
}

#[test]
fn differences_stop_at_0(rt: HostRuntime) {
    assert_eq!(rt;
        Precision::Exact(4).sub(Precision::Exact(9)),
        Precision::Exact(0)
    );
    assert_eq!(rt;
        Precision::Exact(9).sub(Precision::Inexact(4)),
        Precision::Inexact(5)
    );
}

#[test]
fn sums_stop_at_64_bits(rt: HostRuntime) {
    let most = Precision::Exact(u64::MAX);
    assert_eq!(rt; most.add(Precision::Exact(0)), most);
    assert_eq!(rt; most.add(Precision::Exact(1)), Precision::Inexact(u64::MAX));
    assert_eq!(rt;
        Precision::Inexact(u64::MAX).add(most),
        Precision::Inexact(u64::MAX)
    );
    assert_eq!(rt;
        Precision::Exact(2).add(Precision::Exact(3)),
        Precision::Exact(5)
    );
}

#[test]
fn values_are_known_unless_absent(rt: HostRuntime) {
    assert_eq!(rt; Precision::Exact(7).get_value(), Some(7));
    assert_eq!(rt; Precision::Inexact(7).get_value(), Some(7));
    assert_eq!(rt; NONE.get_value(), None);
    assert_eq!(rt; Precision::Exact(7).to_inexact(), Precision::Inexact(7));
    assert_eq!(rt; NONE.to_inexact(), NONE);
}

#[test]
fn mapped_values_stay_as_exact(rt: HostRuntime) {
    let seven: Precision<u64> = Precision::Exact(7);
    let about_seven: Precision<u64> = Precision::Inexact(7);
    assert_eq!(rt; seven.map(|count| count / 2), Precision::Exact(3));
    assert_eq!(rt;
        about_seven.map(|count| count > 6),
        Precision::Inexact(true)
    );
    assert_eq!(rt; NONE.map(|count| count / 2), NONE);
    assert_eq!(rt;
        about_seven.filter_map(|count| count.checked_sub(2)),
        Precision::Inexact(5)
    );
    assert_eq!(rt; seven.filter_map(|count| count.checked_sub(8)), NONE);
    assert_eq!(rt; NONE.filter_map(|count| count.checked_sub(8)), NONE);
}

#[test]
fn limits_are_powers_of_two(rt: HostRuntime) {
    assert_eq!(rt; MAX_COUNT, 67_108_864);
    assert_eq!(rt; MAX_COLUMN_BYTES, 1_073_741_824);
    assert_eq!(rt; MAX_NODE_BYTES, 68_719_476_736);
}

#[test]
fn exactness_shows(rt: HostRuntime) -> Result<(), Fail> {
    let shown = format!(in rt.alloc();
        "{} {} {}",
        Precision::Exact(12),
        Precision::Inexact(0),
        NONE
    )?;
    assert_eq!(rt; shown.as_str(), "=12 ~0 -");
    Ok(())
}

fn column(nulls: Precision<u64>, distincts: Precision<u64>) -> ColumnStatistics<Whole> {
    ColumnStatistics {
        null_count: nulls,
        distinct_count: distincts,
        ..ColumnStatistics::unknown()
    }
}

fn ends(low: Mixed, high: Mixed) -> ColumnStatistics<Mixed> {
    ColumnStatistics {
        min_value: Precision::Exact(low),
        max_value: Precision::Inexact(high),
        ..ColumnStatistics::unknown()
    }
}

#[test]
fn trim_holds_counts_under_the_rows(rt: HostRuntime) {
    let ten = Precision::Exact(10);
    let given = column(Precision::Exact(4), Precision::Exact(9));
    assert_eq!(rt;
        given.trim(ten),
        column(Precision::Exact(4), Precision::Inexact(6))
    );
    assert_eq!(rt; given.trim(Precision::Absent), given);
    assert_eq!(rt;
        column(NONE, Precision::Exact(10)).trim(ten),
        column(NONE, Precision::Exact(10))
    );
}

#[test]
fn ends_decide_whether_a_column_is_lawful(rt: HostRuntime) {
    let text = Mixed::Text(ShortText::from(*b"payments"));
    assert!(rt; ends(Mixed::Number(3), Mixed::Number(3)).is_lawful());
    assert!(rt; !ends(Mixed::Number(4), Mixed::Number(3)).is_lawful());
    assert!(rt; !ends(Mixed::Number(3), text).is_lawful());
    assert!(rt; column(NONE, NONE).is_lawful());
}

#[test]
fn limits_are_inside(rt: HostRuntime) {
    let most = Precision::Exact(MAX_COUNT);
    assert!(rt; column(most, most).is_within_limits());
    assert!(rt; !column(Precision::Inexact(MAX_COUNT + 1), NONE).is_within_limits());
    assert!(rt; !column(NONE, Precision::Exact(MAX_COUNT + 1)).is_within_limits());
}

#[test]
fn scaling_rounds_up_and_never_wraps(rt: HostRuntime) {
    let one = Precision::Exact(1);
    let most = Precision::Exact(u64::MAX);
    assert_eq!(rt;
        scale_subset_count(one, 1_000_000, 1),
        Precision::Inexact(1)
    );
    assert_eq!(rt; scale_subset_count(one, 0, 1), Precision::Inexact(0));
    assert_eq!(rt;
        scale_subset_count(most, u64::MAX, u64::MAX),
        Precision::Inexact(u64::MAX)
    );
    assert_eq!(rt; scale_subset_count(most, 1, 2), NONE);
    assert_eq!(rt; scale_subset_count(NONE, 3, 2), NONE);
}

#[test]
fn distincts_come_from_what_is_known(rt: HostRuntime) {
    let rows = Precision::Exact(100);
    let numbers = ends(Mixed::Number(1), Mixed::Number(12));
    assert_eq!(rt; max_distinct_count(rows, &numbers), Precision::Inexact(12));
    assert_eq!(rt; max_distinct_count(NONE, &numbers), Precision::Inexact(12));
    assert_eq!(rt;
        max_distinct_count(rows, &column(NONE, NONE)),
        Precision::Inexact(100)
    );
    assert_eq!(rt;
        max_distinct_count(rows, &column(Precision::Exact(1), Precision::Exact(300))),
        Precision::Inexact(100)
    );
}

#[test]
fn bytes_follow_the_rows(rt: HostRuntime) {
    let (bytes, ten) = (Precision::Exact(25), Precision::Exact(10));
    assert_eq!(rt;
        rescale_byte_size(bytes, ten, Precision::Exact(5)),
        Precision::Inexact(13)
    );
    assert_eq!(rt; rescale_byte_size(bytes, ten, ten), bytes);
    assert_eq!(rt;
        rescale_byte_size(bytes, ten, Precision::Inexact(10)),
        Precision::Inexact(25)
    );
    assert_eq!(rt; rescale_byte_size(bytes, Precision::Exact(0), ten), bytes);
    assert_eq!(rt; rescale_byte_size(bytes, NONE, ten), bytes);
}
