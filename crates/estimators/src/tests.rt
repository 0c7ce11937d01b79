//! Questions to the estimators.
use super::*;
use keys::Whole;
use questions::{JoinInput, KeyPair, KeySide, MAX_PAIRS, NullEquality};
use stats::{ColumnStatistics, MAX_COUNT, Precision};

const PAIR: KeyPair = KeyPair {
    left: KeySide::Column(0),
    right: KeySide::Column(0),
};

fn counts(nulls: Precision<u64>, distincts: Precision<u64>) -> ColumnStatistics<Whole> {
    ColumnStatistics {
        null_count: nulls,
        distinct_count: distincts,
        ..ColumnStatistics::unknown()
    }
}

fn ends(low: i64, high: i64) -> ColumnStatistics<Whole> {
    ColumnStatistics {
        min_value: Precision::Exact(Whole(low)),
        max_value: Precision::Exact(Whole(high)),
        ..ColumnStatistics::unknown()
    }
}

/// What an estimator answers where 1,000 rows meet 400.
fn asked<E: Estimator<Whole>>(
    estimator: &E,
    join_type: JoinType,
    on: &[KeyPair],
    left: ColumnStatistics<Whole>,
    right: ColumnStatistics<Whole>,
) -> Option<Figure> {
    estimator.estimate(&JoinQuestion {
        join_type,
        null_equality: NullEquality::NullEqualsNothing,
        on,
        left: JoinInput {
            num_rows: Precision::Exact(1000),
            columns: &[left],
        },
        right: JoinInput {
            num_rows: Precision::Inexact(400),
            columns: &[right],
        },
    })
}

#[test]
fn all_types_have_their_figure(rt: HostRuntime) {
    let left = counts(Precision::Exact(250), Precision::Exact(100));
    let right = counts(Precision::Exact(0), Precision::Exact(50));
    let figures = [
        (JoinType::Inner, 4000, 4000),
        (JoinType::Full, 4000, 4000),
        (JoinType::Left, 4000, 4000),
        (JoinType::Right, 4000, 4000),
        (JoinType::LeftSemi, 375, 1000),
        (JoinType::RightSemi, 400, 400),
        (JoinType::LeftAnti, 625, 0),
        (JoinType::RightAnti, 0, 0),
    ];
    for (join_type, widest, product) in figures {
        assert_eq!(rt;
            asked(&Widest, join_type, &[PAIR], left, right),
            Some(Figure::Inexact(widest))
        );
        assert_eq!(rt;
            asked(&Product, join_type, &[PAIR], left, right),
            Some(Figure::Inexact(product))
        );
    }
    assert_eq!(rt;
        asked(&Widest, JoinType::LeftMark, &[PAIR], left, right),
        None
    );
    assert_eq!(rt;
        asked(&Product, JoinType::RightMark, &[PAIR], left, right),
        None
    );
}

#[test]
fn a_chain_asks_the_second_where_the_first_has_none(rt: HostRuntime) {
    let chain = Chain {
        first: Widest,
        second: Product,
    };
    let known = counts(Precision::Absent, Precision::Exact(10));
    let expression = KeyPair {
        left: KeySide::Expression,
        right: KeySide::Column(0),
    };
    assert_eq!(rt;
        asked(&chain, JoinType::LeftSemi, &[PAIR], known, known),
        Some(Figure::Inexact(1000))
    );
    assert_eq!(rt;
        asked(&Widest, JoinType::LeftSemi, &[expression], known, known),
        None
    );
    assert_eq!(rt;
        asked(&chain, JoinType::RightSemi, &[expression], known, known),
        Some(Figure::Inexact(400))
    );
}

#[test]
fn ends_apart_leave_no_row(rt: HostRuntime) {
    assert_eq!(rt;
        asked(&Widest, JoinType::Inner, &[PAIR], ends(1, 10), ends(20, 30)),
        Some(Figure::Exact(0))
    );
    assert_eq!(rt;
        asked(
            &Widest,
            JoinType::LeftAnti,
            &[PAIR],
            ends(1, 10),
            ends(20, 30),
        ),
        Some(Figure::Inexact(1000))
    );
    assert_eq!(rt;
        asked(&Widest, JoinType::Inner, &[PAIR], ends(1, 10), ends(10, 20)),
        Some(Figure::Inexact(36363))
    );
}

#[test]
fn what_is_not_sound_has_no_figure(rt: HostRuntime) {
    let known = counts(Precision::Absent, Precision::Exact(10));
    let outside = KeyPair {
        left: KeySide::Column(1),
        right: KeySide::Column(0),
    };
    let large = counts(Precision::Exact(MAX_COUNT + 1), Precision::Absent);
    assert_eq!(rt;
        asked(&Product, JoinType::Inner, &[outside], known, known),
        None
    );
    assert_eq!(rt;
        asked(&Product, JoinType::Inner, &[PAIR], known, large),
        None
    );
    assert_eq!(rt;
        asked(&Product, JoinType::Inner, &[PAIR], known, ends(2, 1)),
        None
    );
    assert_eq!(rt;
        asked(&Product, JoinType::Inner, &[PAIR; MAX_PAIRS], known, known),
        Some(Figure::Inexact(0))
    );
    assert_eq!(rt;
        asked(&Product, JoinType::Inner, &[PAIR; 17], known, known),
        None
    );
}
