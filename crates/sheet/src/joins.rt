//! Joins by keys.
ghost use Rattle.std.specs.Prelude.{◌≡◌, ℕ, ◌+◌, ◌≤◌, ◌++◌, List, Bool, length};
ghost use Rattle.questions.specs.declared.types.NullEquality.{NullEquality};
ghost use Rattle.questions.specs.Types.{max_pairs};
ghost use Rattle.sheet.specs.declared.operators.Operator.TheVariants as op;
ghost use Rattle.sheet.specs.Shorts.{kept_as, no_pair};
ghost use Rattle.sheet.specs.Sheets.{sheet_of, table_of};
ghost use Rattle.sheet.specs.Views.{seen, told, anti, made_of};
ghost use Rattle.sheet.specs.Calls.{order, join_of};
ghost use Rattle.sheet.specs.Made.{join_question, combined_rows, combined, key_columns, part, marked, joined_by, figure_held};
ghost use Rattle.sheet.specs.Causes.{join_width, early_refusal};
ghost use Rattle.sheet.specs.Steps.{stepped, checked, step};

use crate::blocks::{loosen, put_both, put_unknown};
use crate::calls::carry_out;
use crate::checks::{MAX_WIDTH, refuse_unless};
use crate::parts::{Part, PartKind, bytes_in, rows_in};
use crate::shorts::short_of;
use crate::views::{Table, View, table_of};
use crate::{Head, Node, Operator, Refusal};
use keys::Key;
use questions::{
    Estimator, Figure, JoinInput, JoinQuestion, JoinSide, JoinType, KeyPair, KeySide, MAX_PAIRS,
    NullEquality, are_pairs_inside,
};
use stats::{ColumnStatistics, Precision};

/// A join of two nodes by key pairs.
#[derive(Clone, Copy, PartialEq, Eq, Debug)]
pub struct Join<'p> {
    pub join_type: JoinType,
    pub null_equality: NullEquality,
    pub left: usize,
    pub right: usize,
    pub on: &'p [KeyPair],
}

/// A join of two tables, and the figure that it holds.
#[derive(Clone, Copy)]
struct Joined<'j, 'p, 't, K> {
    join: &'j Join<'p>,
    left: Table<'t, K>,
    right: Table<'t, K>,
    figure: Option<Figure>,
}

/// The width of a join's node.
// The types are matched as the definitions match them: a grouping of our own would have
// to be proved equal to theirs at each.
fn join_width(join_type: JoinType, left: usize, right: usize) -> u128
    ensures { result ≡ join_width join_type left right }
{
    let (left, right) = (left as u128, right as u128);
    match join_type {
        JoinType::Inner | JoinType::Full | JoinType::Left | JoinType::Right => left + right,
        JoinType::LeftSemi | JoinType::LeftAnti => left,
        JoinType::RightSemi | JoinType::RightAnti => right,
        JoinType::LeftMark => left + 1,
        JoinType::RightMark => right + 1,
    }
}

impl<'a, K: Key> View<'a, K> {
    /// The causes of 1 to 6 of a join of two nodes.
    fn check_join(&self, join: &Join<'_>) -> Result<(), Refusal>
        ensures { result ≡ checked (early_refusal K.relation (seen self.now) (join_of join.now)) }
    {
        let children = [join.left, join.right];
        let left = self.node(join.left).width;
        let right = self.node(join.right).width;
        let width = join_width(join.join_type, left, right);
        refuse_unless(self.has_node_room(), Refusal::NodeMemory)?;
        refuse_unless(self.are_fit(&children), Refusal::Child)?;
        refuse_unless(join.on.len() <= MAX_PAIRS, Refusal::Count)?;
        refuse_unless(are_pairs_inside(left, right, join.on), Refusal::KeyIndex)?;
        refuse_unless(width <= MAX_WIDTH as u128, Refusal::Width)?;
        let memory = self.has_column_room(&children, width);
        refuse_unless(memory, Refusal::ColumnMemory)
    }
}

/// The estimator's figure for a join of these tables; a mark join asks for none.
fn ask<K: Key, E: Estimator<K>>(
    estimator: &E,
    left: &Table<'_, K>,
    right: &Table<'_, K>,
    join: &Join<'_>,
) -> Option<Figure>
    ensures { result ≡ figure_held join.now.join_type (E.Estimator.figure estimator.now (join_question join.now.join_type join.now.null_equality join.now.on.now (told left.now) (told right.now))) }
{
    let question = JoinQuestion {
        join_type: join.join_type,
        null_equality: join.null_equality,
        on: join.on,
        left: JoinInput {
            num_rows: left.rows,
            columns: left.columns,
        },
        right: JoinInput {
            num_rows: right.rows,
            columns: right.columns,
        },
    };
    match join.join_type {
        JoinType::LeftMark | JoinType::RightMark => None,
        _ => estimator.estimate(&question),
    }
}

/// Rows and bytes of a semi or an anti join that keeps rows of a table.
fn part_size<K: Key>(
    from: &Table<'_, K>,
    figure: Option<Figure>,
) -> (Precision<u64>, Precision<u64>)
    ensures rows { (anti : Bool) (rule : NullEquality) (keys : List ℕ) → result.0 ≡ (part anti rule keys figure (told from.now)).rows }
    ensures bytes { (anti : Bool) (rule : NullEquality) (keys : List ℕ) → result.1 ≡ (part anti rule keys figure (told from.now)).bytes }
{
    // Not by map_or: the pair of two Absent would stand before the sizes.
    match from.rows.get_value() {
        Some(old_rows) => {
            let rows = rows_in(figure, from.rows);
            (rows, bytes_in(old_rows, rows.or_zero(), from.columns))
        }
        None => (Precision::Absent, Precision::Absent),
    }
}

/// Rows of an inner or an outer join.
fn combined_rows(figure: Option<Figure>) -> Precision<u64>
    ensures { result ≡ combined_rows figure }
{
    figure
        .map_or(Precision::Absent, Precision::from)
        .to_inexact()
}

/// Writes the columns of an inner or an outer join.
fn put_combined<K: Key>(
    block: &mut [ColumnStatistics<K>],
    left: &Table<'_, K>,
    right: &Table<'_, K>,
    figure: Option<Figure>,
)
    requires { length block.old ≡ length (left.now.columns.now ++ right.now.columns.now) }
    ensures { block.new ≡ (combined figure (told left.now) (told right.now)).columns }
{
    if figure.is_none() {
        return put_unknown(block);
    }
    put_both(block, left.columns, right.columns);
    loosen(block)
}

/// Writes the columns of a mark join.
fn put_marked<K: Key>(block: &mut [ColumnStatistics<K>], from: &Table<'_, K>)
    requires { length block.old ≡ length from.now.columns.now + 1 }
    ensures { block.new ≡ (marked (told from.now)).columns }
{
    if from.rows.get_value().is_none() {
        return put_unknown(block);
    }
    put_both(block, from.columns, &[ColumnStatistics::unknown()])
}

impl<K: Key> Joined<'_, '_, '_, K> {
    /// Rows and bytes of the join.
    fn size(&self) -> (Precision<u64>, Precision<u64>)
        ensures rows { result.0 ≡ (made_of self.now).rows }
        ensures bytes { result.1 ≡ (made_of self.now).bytes }
    {
        match self.join.join_type {
            JoinType::Inner | JoinType::Full | JoinType::Left | JoinType::Right => {
                (combined_rows(self.figure), Precision::Absent)
            }
            JoinType::LeftSemi | JoinType::LeftAnti => part_size(&self.left, self.figure),
            JoinType::RightSemi | JoinType::RightAnti => part_size(&self.right, self.figure),
            JoinType::LeftMark => (self.left.rows.to_inexact(), Precision::Absent),
            JoinType::RightMark => (self.right.rows.to_inexact(), Precision::Absent),
        }
    }

    /// Writes the columns of a semi or an anti join, of the table on its side.
    fn put_part(
        &self,
        block: &mut [ColumnStatistics<K>],
        from: &Table<'_, K>,
        side: JoinSide,
        kind: PartKind,
    )
        requires { length block.old ≡ length from.now.columns.now }
        ensures { block.new ≡ (part (anti kind) self.now.join.now.null_equality (key_columns side self.now.join.now.on.now) self.now.figure (told from.now)).columns }
    {
        let Some(old_rows) = from.rows.get_value() else {
            return put_unknown(block);
        };
        let part = Part {
            kind,
            null_equality: self.join.null_equality,
            side,
            on: self.join.on,
            old_rows,
            new_rows: rows_in(self.figure, from.rows).or_zero(),
        };
        part.put(block, from.columns)
    }

    /// Writes the columns of the join.
    fn put(&self, block: &mut [ColumnStatistics<K>])
        requires { length block.old ≡ join_width self.now.join.now.join_type (length self.now.left.columns.now) (length self.now.right.columns.now) }
        ensures { block.new ≡ (made_of self.now).columns }
    {
        let (left, right) = (&self.left, &self.right);
        match self.join.join_type {
            JoinType::Inner | JoinType::Full | JoinType::Left | JoinType::Right => {
                put_combined(block, left, right, self.figure)
            }
            JoinType::LeftSemi => self.put_part(block, left, JoinSide::Left, PartKind::Semi),
            JoinType::RightSemi => self.put_part(block, right, JoinSide::Right, PartKind::Semi),
            JoinType::LeftAnti => self.put_part(block, left, JoinSide::Left, PartKind::Anti),
            JoinType::RightAnti => self.put_part(block, right, JoinSide::Right, PartKind::Anti),
            JoinType::LeftMark => put_marked(block, left),
            JoinType::RightMark => put_marked(block, right),
        }
    }
}

/// What a node keeps of a join.
fn join_operator(join: &Join<'_>) -> Operator
    requires few { length join.now.on.now ≤ max_pairs }
    ensures { result ≡ op.Join join.now.join_type join.now.null_equality join.now.left join.now.right (kept_as no_pair join.now.on.now) }
{
    let filler = KeyPair {
        left: KeySide::Column(0),
        right: KeySide::Column(0),
    };
    Operator::Join {
        join_type: join.join_type,
        null_equality: join.null_equality,
        left: join.left,
        right: join.right,
        on: short_of(filler, join.on),
    }
}

/// Joins two nodes by keys.
pub(crate) fn joined_on<K: Key, E: Estimator<K>>(
    head: &mut Head,
    nodes: &mut [Node],
    columns: &mut [ColumnStatistics<K>],
    estimator: &E,
    join: &Join<'_>,
) -> Result<usize, Refusal>
    ensures { stepped result (sheet_of head.new nodes.new columns.new) ≡ step K.relation (E.Estimator.figure estimator.now) (order (join_of join.now)) (sheet_of head.old nodes.old columns.old) }
{
    let view = View {
        head: *head,
        nodes,
        columns,
    };
    view.check_join(join)?;
    let (l, r) = (view.node(join.left), view.node(join.right));
    let (left, right) = (table_of(columns, &l), table_of(columns, &r));
    let figure = ask(estimator, &left, &right, join);
    let joined = Joined {
        join,
        left,
        right,
        figure,
    };
    let (rows, bytes) = joined.size();
    let width = join_width(join.join_type, l.width, r.width) as usize;
    let node = Node {
        rows,
        bytes,
        place: head.used,
        width,
        figure,
        operator: join_operator(join),
    };
    carry_out(
        head,
        nodes,
        columns,
        node,
        |free, used|
            requires left_inside { l.place + l.width ≤ length used.now }
            requires right_inside { r.place + r.width ≤ length used.now }
            requires wide { length free.old ≡ join_width join.now.join_type l.width r.width }
            ensures { free.new ≡ (joined_by join.entry.now.join_type join.entry.now.null_equality join.entry.now.on.now figure (table_of used.now l) (table_of used.now r)).columns }
        {
            let joined = Joined {
                join,
                left: table_of(used, &l),
                right: table_of(used, &r),
                figure,
            };
            joined.put(free)
        },
    )
}
