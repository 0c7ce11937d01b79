//! The calls of a sheet.
use super::*;
use estimators::{Chain, Product, Widest};
use questions::{Estimator, Figure, JoinType, KeyPair, KeySide, NullEquality, kept_columns};
use sheet::{AggregateMode, BLANK, Grouping, Head, Join, NO_NODE, Node, Operator, Refusal};
use stats::{MAX_COUNT, MAX_NODE_BYTES};
use std::process::Abort;
use std::test::Fail;

const NONE: Precision<u64> = Precision::Absent;

const PAIR: KeyPair = KeyPair {
    left: KeySide::Column(0),
    right: KeySide::Column(0),
};

/// A sheet with memory of its own: eight nodes and forty columns.
#[derive(Clone, Copy, PartialEq, Eq, Debug)]
struct Desk {
    head: Head,
    nodes: [Node; 8],
    columns: [ColumnStatistics<Whole>; 40],
}

impl Desk {
    fn blank() -> Desk {
        Desk {
            head: BLANK,
            nodes: [NO_NODE; 8],
            columns: [ColumnStatistics::unknown(); 40],
        }
    }

    fn lay(
        &mut self,
        rows: Precision<u64>,
        bytes: Precision<u64>,
        laid: &[ColumnStatistics<Whole>],
    ) -> Result<usize, Refusal> {
        self.head
            .lay(&mut self.nodes, &mut self.columns, rows, bytes, laid)
    }

    /// Joins two nodes where null equals nothing.
    fn join<E: Estimator<Whole>>(
        &mut self,
        estimator: &E,
        join_type: JoinType,
        left: usize,
        right: usize,
        on: &[KeyPair],
    ) -> Result<usize, Refusal> {
        let join = Join {
            join_type,
            null_equality: NullEquality::NullEqualsNothing,
            left,
            right,
            on,
        };
        self.head
            .join(&mut self.nodes, &mut self.columns, estimator, &join)
    }

    fn cross(&mut self, left: usize, right: usize) -> Result<usize, Refusal> {
        self.head
            .cross_join(&mut self.nodes, &mut self.columns, left, right)
    }

    fn limit(&mut self, child: usize, skip: u64, fetch: Option<u64>) -> Result<usize, Refusal> {
        self.head
            .limit(&mut self.nodes, &mut self.columns, child, skip, fetch)
    }

    fn union(&mut self, children: &[usize]) -> Result<usize, Refusal> {
        self.head
            .union(&mut self.nodes, &mut self.columns, children)
    }

    /// Groups in one step and one set.
    fn group(&mut self, child: usize, by: &[KeySide], extras: usize) -> Result<usize, Refusal> {
        let grouping = Grouping {
            mode: AggregateMode::Single,
            sets: 1,
            extras,
            child,
            by,
        };
        self.head
            .group(&mut self.nodes, &mut self.columns, &grouping)
    }

    fn cut(&mut self, n: usize) -> Result<usize, Refusal> {
        self.head.cut(&self.nodes, &self.columns, n)
    }
}

/// 100 payments: by whom, and how much.
const PAYER: ColumnStatistics<Whole> = ColumnStatistics {
    null_count: Precision::Exact(25),
    distinct_count: Precision::Exact(64),
    byte_size: Precision::Exact(500),
    min_value: Precision::Absent,
    max_value: Precision::Absent,
};

const AMOUNT: ColumnStatistics<Whole> = ColumnStatistics {
    null_count: Precision::Exact(50),
    distinct_count: Precision::Absent,
    byte_size: Precision::Exact(300),
    min_value: Precision::Exact(Whole(1)),
    max_value: Precision::Exact(Whole(9)),
};

/// 40 members, by number.
const MEMBER: ColumnStatistics<Whole> = ColumnStatistics {
    null_count: Precision::Exact(0),
    distinct_count: Precision::Exact(32),
    byte_size: Precision::Absent,
    min_value: Precision::Absent,
    max_value: Precision::Absent,
};

/// Node 1 has the payments, node 2 the members.
fn payments_and_members(rt: &impl Abort) -> Desk {
    let mut desk = Desk::blank();
    let (payments, members) = (Precision::Exact(100), Precision::Exact(40));
    assert_eq!(rt;
        desk.lay(payments, Precision::Exact(1000), &[PAYER, AMOUNT]),
        Ok(1)
    );
    assert_eq!(rt; desk.lay(members, NONE, &[MEMBER]), Ok(2));
    desk
}

#[test]
fn every_refusal_leaves_the_sheet_as_it_was(rt: HostRuntime) {
    let before = payments_and_members(&rt);
    let mut desk = before;
    let (ten, outside) = (Precision::Exact(10), KeySide::Column(2));
    let beyond = KeyPair {
        left: outside,
        right: KeySide::Column(0),
    };
    let unlawful = with_ends(
        MEMBER,
        Precision::Exact(Whole(5)),
        Precision::Inexact(Whole(4)),
    );
    let mut full = [desk.nodes[0], desk.nodes[1]];
    assert_eq!(rt;
        desk.head.limit(&mut full, &mut desk.columns, 1, 0, None),
        Err(Refusal::NodeMemory)
    );
    assert_eq!(rt; desk.limit(3, 0, None), Err(Refusal::Child));
    assert_eq!(rt; desk.cut(3), Err(Refusal::Child));
    assert_eq!(rt;
        desk.join(&Widest, JoinType::Inner, 1, 2, &[PAIR; 17]),
        Err(Refusal::Count)
    );
    assert_eq!(rt;
        desk.join(&Widest, JoinType::Inner, 1, 2, &[beyond]),
        Err(Refusal::KeyIndex)
    );
    assert_eq!(rt; desk.group(1, &[outside], 0), Err(Refusal::KeyIndex));
    assert_eq!(rt; desk.union(&[1, 2]), Err(Refusal::Width));
    assert_eq!(rt;
        desk.lay(ten, NONE, &[MEMBER; 38]),
        Err(Refusal::ColumnMemory)
    );
    assert_eq!(rt;
        desk.lay(Precision::Inexact(MAX_COUNT + 1), NONE, &[MEMBER]),
        Err(Refusal::Rows)
    );
    assert_eq!(rt;
        desk.lay(ten, Precision::Exact(MAX_NODE_BYTES + 1), &[MEMBER]),
        Err(Refusal::Bytes)
    );
    assert_eq!(rt;
        desk.lay(ten, NONE, &[MEMBER, unlawful, unlawful]),
        Err(Refusal::Column(1))
    );
    assert_eq!(rt; desk, before);
}

#[test]
fn a_join_holds_what_its_mirror_holds(rt: HostRuntime) {
    let mut desk = Desk::blank();
    let pair = KeyPair {
        left: KeySide::Column(1),
        right: KeySide::Column(0),
    };
    let back = pair.exchanged();
    assert_eq!(rt;
        desk.lay(Precision::Exact(100), NONE, &[AMOUNT, PAYER]),
        Ok(1)
    );
    assert_eq!(rt; desk.lay(Precision::Exact(40), NONE, &[MEMBER]), Ok(2));
    assert_eq!(rt; desk.join(&Widest, JoinType::Inner, 1, 2, &[pair]), Ok(3));
    assert_eq!(rt; desk.join(&Widest, JoinType::Inner, 2, 1, &[back]), Ok(4));
    for node in [desk.nodes[2], desk.nodes[3]] {
        assert_eq!(rt; node.rows, Precision::Inexact(62));
        assert_eq!(rt; node.bytes, NONE);
        assert_eq!(rt; node.width, 3);
        assert_eq!(rt; node.figure, Some(Figure::Inexact(62)));
    }
    let payer = counts(
        Precision::Inexact(25),
        Precision::Inexact(37),
        Precision::Inexact(500),
    );
    let columns = desk.columns;
    assert_eq!(rt; columns[3], AMOUNT.to_inexact());
    assert_eq!(rt; columns[4], payer);
    assert_eq!(rt; columns[5], MEMBER.to_inexact());
    assert_eq!(rt; columns[6], columns[5]);
    assert_eq!(rt; columns[7], columns[3]);
    assert_eq!(rt; columns[8], columns[4]);
}

#[test]
fn an_outer_and_a_semi_join_have_mirrors_too(rt: HostRuntime) {
    let mut desk = payments_and_members(&rt);
    assert_eq!(rt; desk.join(&Widest, JoinType::Left, 1, 2, &[PAIR]), Ok(3));
    assert_eq!(rt; desk.join(&Widest, JoinType::Right, 2, 1, &[PAIR]), Ok(4));
    assert_eq!(rt;
        desk.join(&Widest, JoinType::LeftSemi, 1, 2, &[PAIR]),
        Ok(5)
    );
    assert_eq!(rt;
        desk.join(&Widest, JoinType::RightSemi, 2, 1, &[PAIR]),
        Ok(6)
    );
    let (nodes, columns) = (desk.nodes, desk.columns);
    assert_eq!(rt; nodes[2].rows, Precision::Inexact(100));
    assert_eq!(rt; nodes[3].rows, Precision::Inexact(100));
    assert_eq!(rt; nodes[2].figure, Some(Figure::Inexact(100)));
    assert_eq!(rt; nodes[3].figure, Some(Figure::Inexact(100)));
    assert_eq!(rt; columns[3], PAYER.to_inexact());
    assert_eq!(rt; columns[7], PAYER.to_inexact());
    assert_eq!(rt; columns[6], columns[5]);
    assert_eq!(rt; columns[8], columns[4]);
    assert_eq!(rt; nodes[5].rows, nodes[4].rows);
    assert_eq!(rt; nodes[5].bytes, nodes[4].bytes);
    assert_eq!(rt; nodes[5].figure, nodes[4].figure);
    assert_eq!(rt; columns[11], columns[9]);
    assert_eq!(rt; columns[12], columns[10]);
}

#[test]
fn a_semi_and_an_anti_join_share_the_rows(rt: HostRuntime) {
    let mut desk = payments_and_members(&rt);
    assert_eq!(rt;
        desk.join(&Widest, JoinType::LeftSemi, 1, 2, &[PAIR]),
        Ok(3)
    );
    assert_eq!(rt;
        desk.join(&Widest, JoinType::LeftAnti, 1, 2, &[PAIR]),
        Ok(4)
    );
    let (semi, anti) = (desk.nodes[2], desk.nodes[3]);
    assert_eq!(rt; semi.rows, Precision::Inexact(38));
    assert_eq!(rt; anti.rows, Precision::Inexact(62));
    assert_eq!(rt; semi.rows.add(anti.rows), Precision::Inexact(100));
    assert_eq!(rt; semi.bytes, Precision::Inexact(304));
    assert_eq!(rt; anti.bytes, Precision::Inexact(496));
    // a payer that has a match is not null, and one that has none may be
    assert_eq!(rt;
        desk.columns[3],
        counts(
            Precision::Exact(0),
            Precision::Inexact(38),
            Precision::Inexact(190),
        )
    );
    assert_eq!(rt;
        desk.columns[5],
        counts(
            Precision::Inexact(25),
            Precision::Inexact(37),
            Precision::Inexact(310),
        )
    );
    let (one, nine) = (Precision::Inexact(Whole(1)), Precision::Inexact(Whole(9)));
    let amount = counts(Precision::Inexact(19), NONE, Precision::Inexact(114));
    assert_eq!(rt; desk.columns[4], with_ends(amount, one, nine));
    let amount = counts(Precision::Inexact(31), NONE, Precision::Inexact(186));
    assert_eq!(rt; desk.columns[6], with_ends(amount, one, nine));
}

#[test]
fn without_a_figure_all_rows_may_be_kept(rt: HostRuntime) {
    let mut desk = payments_and_members(&rt);
    let expression = KeyPair {
        left: KeySide::Expression,
        right: KeySide::Column(0),
    };
    let on = [expression];
    let chain = Chain {
        first: Widest,
        second: Product,
    };
    assert_eq!(rt; desk.join(&Widest, JoinType::LeftSemi, 1, 2, &on), Ok(3));
    assert_eq!(rt; desk.join(&Widest, JoinType::LeftAnti, 1, 2, &on), Ok(4));
    assert_eq!(rt; desk.nodes[2].figure, None);
    assert_eq!(rt; desk.nodes[3].figure, None);
    assert_eq!(rt; desk.nodes[2].rows, Precision::Inexact(100));
    assert_eq!(rt; desk.nodes[3].rows, Precision::Inexact(100));
    assert_eq!(rt; desk.join(&chain, JoinType::LeftSemi, 1, 2, &on), Ok(5));
    assert_eq!(rt; desk.join(&chain, JoinType::LeftAnti, 1, 2, &on), Ok(6));
    assert_eq!(rt; desk.nodes[4].rows, Precision::Inexact(100));
    assert_eq!(rt; desk.nodes[5].rows, Precision::Inexact(0));
    assert_eq!(rt; desk.nodes[5].figure, Some(Figure::Inexact(0)));
}

#[test]
fn a_mark_join_holds_no_figure_and_one_column_more(rt: HostRuntime) {
    let mut desk = payments_and_members(&rt);
    assert_eq!(rt;
        desk.join(&Product, JoinType::LeftMark, 1, 2, &[PAIR]),
        Ok(3)
    );
    assert_eq!(rt;
        desk.join(&Product, JoinType::RightMark, 1, 2, &[PAIR]),
        Ok(4)
    );
    let (left, right) = (desk.nodes[2], desk.nodes[3]);
    assert_eq!(rt; left.rows, Precision::Inexact(100));
    assert_eq!(rt; right.rows, Precision::Inexact(40));
    assert_eq!(rt; left.figure, None);
    assert_eq!(rt; right.figure, None);
    assert_eq!(rt; left.bytes, NONE);
    assert_eq!(rt; left.width, 3);
    assert_eq!(rt; right.width, 2);
    assert_eq!(rt; desk.columns[3], PAYER);
    assert_eq!(rt; desk.columns[4], AMOUNT);
    assert_eq!(rt; desk.columns[5], ColumnStatistics::unknown());
    assert_eq!(rt; desk.columns[6], MEMBER);
    assert_eq!(rt; desk.columns[7], ColumnStatistics::unknown());
}

#[test]
fn the_smallest_of_several_causes_is_given(rt: HostRuntime) {
    let mut desk = payments_and_members(&rt);
    let (many, large) = (MAX_COUNT + 1, MAX_NODE_BYTES + 1);
    let wrong = counts(Precision::Exact(many), NONE, NONE);
    let beyond = KeyPair {
        left: KeySide::Column(9),
        right: KeySide::Expression,
    };
    // 7, 8 and 9, then 8 and 9
    assert_eq!(rt;
        desk.lay(Precision::Exact(many), Precision::Exact(large), &[wrong]),
        Err(Refusal::Rows)
    );
    assert_eq!(rt;
        desk.lay(NONE, Precision::Exact(large), &[wrong]),
        Err(Refusal::Bytes)
    );
    // 5, 6, 7 and 9, then 6 and 9
    assert_eq!(rt;
        desk.lay(Precision::Exact(many), NONE, &[wrong; 65]),
        Err(Refusal::Width)
    );
    assert_eq!(rt;
        desk.lay(NONE, NONE, &[wrong; 64]),
        Err(Refusal::ColumnMemory)
    );
    // 2, 3 and 4, then 3 and 4
    assert_eq!(rt;
        desk.join(&Widest, JoinType::Inner, 1, 3, &[beyond; 17]),
        Err(Refusal::Child)
    );
    assert_eq!(rt;
        desk.join(&Widest, JoinType::Inner, 1, 2, &[beyond; 17]),
        Err(Refusal::Count)
    );
    // 4 and 5, then 5 and 6
    assert_eq!(rt;
        desk.group(1, &[KeySide::Column(2)], usize::MAX),
        Err(Refusal::KeyIndex)
    );
    assert_eq!(rt;
        desk.group(1, &[KeySide::Column(1)], usize::MAX),
        Err(Refusal::Width)
    );
    // 3 and 5
    assert_eq!(rt;
        desk.union(&[1, 2, 1, 2, 1, 2, 1, 2, 1]),
        Err(Refusal::Count)
    );
    // 1 and 2, and 1 and 3
    let mut full = [desk.nodes[0], desk.nodes[1]];
    assert_eq!(rt;
        desk.head.limit(&mut full, &mut desk.columns, 7, 0, None),
        Err(Refusal::NodeMemory)
    );
    assert_eq!(rt;
        desk.head.union(&mut full, &mut desk.columns, &[]),
        Err(Refusal::NodeMemory)
    );
}

/// Node memory.
const NODES: Option<u8> = Some(1);

const CHILD: Option<u8> = Some(2);

/// Column memory, where the blocks of columns lie.
const BLOCK: Option<u8> = Some(6);

/// By which number a sheet refuses a lay, every other call on node 1, and a read of
/// node 1, if it does; each call has a copy of its own.
fn answers(desk: &Desk) -> [Option<u8>; 8] {
    let mut copies = [*desk; 7];
    [
        copies[0].lay(NONE, NONE, &[MEMBER]).err(),
        copies[1].join(&Widest, JoinType::Full, 1, 1, &[PAIR]).err(),
        copies[2].cross(1, 1).err(),
        copies[3].limit(1, 1, Some(u64::MAX)).err(),
        copies[4].union(&[1, 1]).err(),
        copies[5].group(1, &[KeySide::Column(0)], 1).err(),
        copies[6].cut(1).err(),
        desk.head.read(&desk.nodes, &desk.columns, 1).err(),
    ]
    .map(|refused| refused.map(Refusal::number))
}

#[test]
fn junk_in_memory_gets_an_answer(rt: HostRuntime) {
    let huge = Node {
        rows: Precision::Exact(u64::MAX),
        bytes: Precision::Inexact(u64::MAX),
        place: usize::MAX,
        width: usize::MAX,
        figure: Some(Figure::Exact(u64::MAX)),
        operator: Operator::Lay,
    };
    let unlawful = with_ends(
        counts(Precision::Exact(u64::MAX), NONE, NONE),
        Precision::Exact(Whole(2)),
        Precision::Exact(Whole(1)),
    );
    let mut desk = Desk {
        head: Head { count: 3, used: 30 },
        nodes: [huge; 8],
        columns: [unlawful; 40],
    };
    assert_eq!(rt;
        answers(&desk),
        [None, CHILD, CHILD, CHILD, CHILD, CHILD, BLOCK, CHILD]
    );
    // a block outside the used part, then one of unlawful columns inside it
    desk.nodes[0] = Node {
        rows: Precision::Exact(5),
        place: usize::MAX,
        width: 2,
        ..NO_NODE
    };
    assert_eq!(rt;
        answers(&desk),
        [None, BLOCK, BLOCK, BLOCK, BLOCK, BLOCK, BLOCK, BLOCK]
    );
    desk.nodes[0].place = 28;
    assert_eq!(rt;
        answers(&desk),
        [None, CHILD, CHILD, CHILD, CHILD, CHILD, None, CHILD]
    );
    desk.nodes[0].place = 29;
    assert_eq!(rt;
        answers(&desk),
        [None, BLOCK, BLOCK, BLOCK, BLOCK, BLOCK, BLOCK, BLOCK]
    );
    // a blank sheet is laid over all of it
    desk.head = BLANK;
    assert_eq!(rt;
        answers(&desk),
        [None, CHILD, CHILD, CHILD, CHILD, CHILD, CHILD, CHILD]
    );
    assert_eq!(rt; desk.cut(0), Ok(0));
}

#[test]
fn a_head_that_claims_too_much_is_refused(rt: HostRuntime) {
    let mut desk = payments_and_members(&rt);
    desk.head.count = 9;
    assert_eq!(rt; answers(&desk), [NODES; 8]);
    desk.head.count = usize::MAX;
    assert_eq!(rt; answers(&desk), [NODES; 8]);
    assert_eq!(rt; desk.cut(0), Err(Refusal::NodeMemory));
    // all nodes stand: only a cut and a read go on
    desk.head.count = 8;
    assert_eq!(rt;
        answers(&desk),
        [NODES, NODES, NODES, NODES, NODES, NODES, None, None]
    );
    desk.head = Head { count: 2, used: 41 };
    assert_eq!(rt; answers(&desk), [BLOCK; 8]);
    assert_eq!(rt; desk.cut(0), Err(Refusal::ColumnMemory));
    desk.head.used = usize::MAX;
    assert_eq!(rt; answers(&desk), [BLOCK; 8]);
}

#[test]
fn short_memory_is_enough_or_refused(rt: HostRuntime) {
    let mut head = BLANK;
    let rows = Precision::Exact(10);
    let mut no_nodes: [Node; 0] = [];
    let mut no_columns: [ColumnStatistics<Whole>; 0] = [];
    assert_eq!(rt;
        head.lay(&mut no_nodes, &mut no_columns, rows, NONE, &[]),
        Err(Refusal::NodeMemory)
    );
    assert_eq!(rt; head.cut(&no_nodes, &no_columns, 0), Ok(0));
    assert_eq!(rt; head.cut(&no_nodes, &no_columns, 1), Err(Refusal::Child));
    let mut nodes = [NO_NODE; 4];
    assert_eq!(rt;
        head.lay(&mut nodes, &mut no_columns, rows, NONE, &[]),
        Ok(1)
    );
    assert_eq!(rt;
        head.lay(&mut nodes, &mut no_columns, rows, NONE, &[MEMBER]),
        Err(Refusal::ColumnMemory)
    );
    // three columns in a memory of six, and one short of that
    let mut six: [ColumnStatistics<Whole>; 6] = [ColumnStatistics::unknown(); 6];
    let mut five: [ColumnStatistics<Whole>; 5] = [ColumnStatistics::unknown(); 5];
    assert_eq!(rt;
        head.lay(&mut nodes, &mut six, rows, NONE, &[MEMBER; 3]),
        Ok(2)
    );
    assert_eq!(rt;
        head.limit(&mut nodes, &mut five, 2, 0, None),
        Err(Refusal::ColumnMemory)
    );
    assert_eq!(rt; head.limit(&mut nodes, &mut six, 2, 0, None), Ok(3));
    assert_eq!(rt; head.used, 6);
    assert_eq!(rt;
        head.union(&mut nodes, &mut six, &[2]),
        Err(Refusal::ColumnMemory)
    );
    assert_eq!(rt; head.union(&mut nodes, &mut six, &[1]), Ok(4));
}

#[test]
fn a_limit_skips_and_fetches(rt: HostRuntime) {
    let mut desk = payments_and_members(&rt);
    assert_eq!(rt; desk.limit(1, 30, Some(50)), Ok(3));
    assert_eq!(rt; desk.nodes[2].rows, Precision::Exact(50));
    assert_eq!(rt; desk.nodes[2].bytes, Precision::Inexact(500));
    assert_eq!(rt;
        desk.columns[3],
        counts(
            Precision::Inexact(25),
            Precision::Inexact(25),
            Precision::Inexact(500),
        )
    );
    assert_eq!(rt; desk.columns[4], AMOUNT.to_inexact());
    assert_eq!(rt; desk.limit(1, 120, None), Ok(4));
    assert_eq!(rt; desk.nodes[3].rows, Precision::Exact(0));
    assert_eq!(rt; desk.nodes[3].bytes, Precision::Inexact(0));
    assert_eq!(rt; desk.limit(1, 0, None), Ok(5));
    assert_eq!(rt; desk.nodes[4].rows, Precision::Exact(100));
    assert_eq!(rt; desk.nodes[4].bytes, Precision::Exact(1000));
    assert_eq!(rt; desk.lay(NONE, Precision::Exact(70), &[]), Ok(6));
    assert_eq!(rt; desk.limit(6, 5, Some(7)), Ok(7));
    assert_eq!(rt; desk.nodes[6].rows, Precision::Inexact(7));
    assert_eq!(rt; desk.nodes[6].bytes, Precision::Exact(70));
    assert_eq!(rt; desk.limit(6, 5, None), Ok(8));
    assert_eq!(rt; desk.nodes[7].rows, NONE);
}

#[test]
fn a_cross_join_multiplies(rt: HostRuntime) {
    let mut desk = payments_and_members(&rt);
    assert_eq!(rt; desk.cross(2, 1), Ok(3));
    assert_eq!(rt;
        desk.nodes[2],
        Node {
            rows: Precision::Exact(4000),
            bytes: NONE,
            place: 3,
            width: 3,
            figure: None,
            operator: Operator::Cross { left: 2, right: 1 },
        }
    );
    assert_eq!(rt; desk.columns[3], MEMBER);
    assert_eq!(rt; desk.columns[4], PAYER);
    assert_eq!(rt; desk.columns[5], AMOUNT);
    assert_eq!(rt; desk.lay(Precision::Inexact(3), NONE, &[]), Ok(4));
    assert_eq!(rt; desk.cross(1, 4), Ok(5));
    assert_eq!(rt; desk.nodes[4].rows, Precision::Inexact(300));
    assert_eq!(rt; desk.lay(Precision::Exact(MAX_COUNT), NONE, &[]), Ok(6));
    assert_eq!(rt; desk.cross(6, 4), Err(Refusal::Rows));
}

#[test]
fn a_union_takes_1_to_8_nodes(rt: HostRuntime) {
    let mut desk = payments_and_members(&rt);
    assert_eq!(rt; desk.union(&[1]), Ok(3));
    assert_eq!(rt; desk.nodes[2].rows, Precision::Exact(100));
    assert_eq!(rt; desk.nodes[2].bytes, Precision::Exact(1000));
    assert_eq!(rt; desk.columns[3], ColumnStatistics::unknown());
    assert_eq!(rt; desk.union(&[1, 1, 1, 1, 1, 1, 1, 1]), Ok(4));
    assert_eq!(rt; desk.nodes[3].rows, Precision::Exact(800));
    assert_eq!(rt; desk.nodes[3].bytes, Precision::Exact(8000));
    assert_eq!(rt; desk.nodes[3].width, 2);
    assert_eq!(rt; desk.union(&[2, 2]), Ok(5));
    assert_eq!(rt; desk.nodes[4].rows, Precision::Exact(80));
    assert_eq!(rt; desk.nodes[4].bytes, NONE);
    assert_eq!(rt; desk.union(&[]), Err(Refusal::Count));
    assert_eq!(rt;
        desk.union(&[1, 1, 1, 1, 1, 1, 1, 1, 1]),
        Err(Refusal::Count)
    );
}

#[test]
fn a_grouping_multiplies_its_keys(rt: HostRuntime) {
    let mut desk = Desk::blank();
    let zero = Precision::Exact(0);
    let month = counts(zero, Precision::Exact(12), NONE);
    let house = counts(zero, Precision::Exact(40), NONE);
    let (first, second) = (KeySide::Column(0), KeySide::Column(1));
    assert_eq!(rt;
        desk.lay(
            Precision::Exact(300),
            Precision::Exact(3000),
            &[month, house],
        ),
        Ok(1)
    );
    assert_eq!(rt; desk.group(1, &[second, first], 1), Ok(2));
    assert_eq!(rt; desk.nodes[1].rows, Precision::Inexact(300));
    assert_eq!(rt; desk.nodes[1].bytes, Precision::Inexact(3000));
    assert_eq!(rt; desk.nodes[1].width, 3);
    assert_eq!(rt; desk.columns[2], house.to_inexact());
    assert_eq!(rt; desk.columns[3], month.to_inexact());
    assert_eq!(rt; desk.columns[4], ColumnStatistics::unknown());
    assert_eq!(rt; desk.group(1, &[first], 0), Ok(3));
    assert_eq!(rt; desk.nodes[2].rows, Precision::Inexact(12));
    assert_eq!(rt; desk.nodes[2].bytes, Precision::Inexact(120));
    assert_eq!(rt; desk.group(1, &[first, KeySide::Expression], 0), Ok(4));
    assert_eq!(rt; desk.nodes[3].rows, NONE);
    assert_eq!(rt; desk.nodes[3].bytes, NONE);
    assert_eq!(rt; desk.columns[6], ColumnStatistics::unknown());
    assert_eq!(rt; desk.group(1, &[], 2), Ok(5));
    assert_eq!(rt; desk.nodes[4].rows, NONE);
    assert_eq!(rt; desk.nodes[4].width, 2);
}

#[test]
fn modes_and_sets_decide_whether_groups_are_counted(rt: HostRuntime) {
    let mut desk = Desk::blank();
    let month = counts(NONE, Precision::Exact(12), NONE);
    assert_eq!(rt; desk.lay(NONE, NONE, &[month]), Ok(1));
    let cases = [
        (AggregateMode::Partial, 1, NONE),
        (AggregateMode::PartialReduce, 1, NONE),
        (AggregateMode::Final, 0, Precision::Inexact(12)),
        (AggregateMode::FinalPartitioned, 1, Precision::Inexact(12)),
        (AggregateMode::SinglePartitioned, 2, NONE),
    ];
    for (mode, sets, rows) in cases {
        let grouping = Grouping {
            mode,
            sets,
            extras: 0,
            child: 1,
            by: &[KeySide::Column(0)],
        };
        assert_eq!(rt;
            desk.head
                .group(&mut desk.nodes, &mut desk.columns, &grouping),
            Ok(2)
        );
        assert_eq!(rt; desk.nodes[1].rows, rows);
        assert_eq!(rt; desk.cut(1), Ok(1));
    }
}

#[test]
fn a_cut_frees_memory(rt: HostRuntime) {
    let mut desk = payments_and_members(&rt);
    assert_eq!(rt; desk.limit(1, 0, None), Ok(3));
    let before = desk;
    assert_eq!(rt; desk.cut(3), Ok(3));
    assert_eq!(rt; desk, before);
    assert_eq!(rt; desk.cut(4), Err(Refusal::Child));
    assert_eq!(rt; desk, before);
    assert_eq!(rt; desk.cut(1), Ok(1));
    assert_eq!(rt; desk.head, Head { count: 1, used: 2 });
    assert_eq!(rt; desk.limit(2, 0, None), Err(Refusal::Child));
    assert_eq!(rt; desk.union(&[1]), Ok(2));
    assert_eq!(rt; desk.nodes[1].place, 2);
    assert_eq!(rt; desk.columns[2], ColumnStatistics::unknown());
    assert_eq!(rt; desk.head.used, 4);
    assert_eq!(rt; desk.cut(0), Ok(0));
    assert_eq!(rt; desk.head, BLANK);
    assert_eq!(rt; desk.cut(1), Err(Refusal::Child));
    assert_eq!(rt; desk.lay(Precision::Exact(40), NONE, &[MEMBER]), Ok(1));
    assert_eq!(rt; desk.nodes[0].place, 0);
    assert_eq!(rt; desk.columns[0], MEMBER);
}

#[test]
fn a_full_sheet_can_be_read(rt: HostRuntime) -> Result<(), Fail> {
    let mut head = BLANK;
    let mut nodes = [NO_NODE; 2];
    let mut columns: [ColumnStatistics<Whole>; 4] = [ColumnStatistics::unknown(); 4];
    let (rows, bytes) = (Precision::Exact(100), Precision::Exact(1000));
    assert_eq!(rt;
        head.lay(&mut nodes, &mut columns, rows, bytes, &[PAYER, AMOUNT]),
        Ok(1)
    );
    assert_eq!(rt;
        head.limit(&mut nodes, &mut columns, 1, 90, Some(20)),
        Ok(2)
    );
    assert_eq!(rt;
        head.lay(&mut nodes, &mut columns, rows, bytes, &[]),
        Err(Refusal::NodeMemory)
    );
    let laid = head.read(&nodes, &columns, 1)?;
    assert_eq!(rt; laid.rows, rows);
    assert_eq!(rt; laid.bytes, bytes);
    assert_eq!(rt; laid.figure, None);
    assert!(rt; laid.columns.len() == 2);
    assert_eq!(rt; laid.columns[0], PAYER);
    assert_eq!(rt; laid.columns[1], AMOUNT);
    let limited = head.read(&nodes, &columns, 2)?;
    assert_eq!(rt; limited.rows, Precision::Exact(10));
    assert_eq!(rt; limited.bytes, Precision::Inexact(100));
    assert!(rt; limited.columns.len() == 2);
    assert_eq!(rt; limited.columns[0].null_count, Precision::Inexact(10));
    assert_eq!(rt; limited.columns[0].distinct_count, Precision::Inexact(0));
    assert_eq!(rt;
        limited.operator,
        Operator::Limit {
            child: 1,
            skip: 90,
            fetch: Some(20),
        }
    );
    Ok(())
}

#[test]
fn a_number_that_does_not_stand_is_not_read(rt: HostRuntime) {
    let desk = payments_and_members(&rt);
    let blank = Desk::blank();
    assert!(rt; desk.head.read(&desk.nodes, &desk.columns, 2).is_ok());
    for n in [0, 3, 8, 9, usize::MAX] {
        assert_eq!(rt;
            desk.head.read(&desk.nodes, &desk.columns, n).err(),
            Some(Refusal::Child)
        );
    }
    assert_eq!(rt;
        blank.head.read(&blank.nodes, &blank.columns, 1).err(),
        Some(Refusal::Child)
    );
}

/// Lays so many tables of one row and no columns.
fn lay_many(
    rt: &impl Abort,
    head: &mut Head,
    nodes: &mut [Node],
    columns: &mut [ColumnStatistics<Whole>],
    times: usize,
) {
    for _ in 0..times {
        let answer = head.lay(nodes, columns, Precision::Exact(1), NONE, &[]);
        assert!(rt; answer.is_ok());
    }
}

#[test]
fn the_257th_node_is_refused(rt: HostRuntime) -> Result<(), Fail> {
    let mut head = BLANK;
    let mut nodes = [NO_NODE; 300];
    let mut columns: [ColumnStatistics<Whole>; 0] = [];
    let rows = Precision::Exact(1);
    lay_many(&rt, &mut head, &mut nodes, &mut columns, 256);
    assert_eq!(rt; head.count, 256);
    assert_eq!(rt;
        head.lay(&mut nodes, &mut columns, rows, NONE, &[]),
        Err(Refusal::NodeMemory)
    );
    assert_eq!(rt; head.read(&nodes, &columns, 256)?.rows, rows);
    assert_eq!(rt; head.cut(&nodes, &columns, 255), Ok(255));
    assert_eq!(rt; head.union(&mut nodes, &mut columns, &[255, 1]), Ok(256));
    Ok(())
}

#[test]
fn a_join_hands_out_the_columns_it_keeps(rt: HostRuntime) {
    let (left, right) = ([PAYER, AMOUNT], [MEMBER]);
    assert_eq!(rt; kept_columns(JoinType::Inner, &left, &right).len(), 0);
    let semi = kept_columns(JoinType::LeftSemi, &left, &right);
    assert!(rt; semi.len() == 2);
    assert_eq!(rt; semi[0], PAYER);
    assert_eq!(rt; semi[1], AMOUNT);
    let mark = kept_columns(JoinType::RightMark, &left, &right);
    assert!(rt; mark.len() == 1);
    assert_eq!(rt; mark[0], MEMBER);
}
