//! The orders in which the tables of the report can be joined, and the choice
//! of one.
#![tactic(auto)]

ghost use Rattle.std.specs.Prelude.{◌≡◌, ◌≤◌, [], ◌∷◌, map, nat_lt, Some, IfSome};
ghost use Rattle.std.specs.Fmt.{padded};
ghost use Rattle.orders.specs.declared.Table.TheVariants.{Payments, Members, Flats, Lifts};
ghost use Rattle.orders.specs.Orders.{number, name, width, to_next, tables, by_keys, permutations, offset, pair_with_next, pair_with_last, pair_to};
ghost use Rattle.orders.specs.Choice.{rows_total, cheaper, Chosen, First};

use questions::{KeyPair, KeySide};
use stats::{Precision, total_of};
use std::fmt;

/// The tables of the report. Each shares a key with the next: a payment's payer is
/// a member, a member lives in a flat, a flat has a lift.
#[derive(Clone, Copy, PartialEq, Eq, Debug)]
pub enum Table {
    Payments = 1,
    Members = 2,
    Flats = 3,
    Lifts = 4,
}

impl Table {
    /// The number of its node.
    pub fn number(self) -> usize
        ensures { result ≡ number self }
    {
        self as usize
    }

    /// How many columns it has.
    pub fn width(self) -> usize
        ensures { result ≡ width self }
    {
        match self {
            Table::Lifts => 1,
            _ => 2,
        }
    }

    /// The column that has the next table's key; its own key is column 0.
    pub fn to_next(self) -> usize
        ensures { result ≡ to_next self }
    {
        match self {
            Table::Payments => 0,
            _ => 1,
        }
    }
}

/// An order in which the tables are joined.
#[derive(Clone, Copy, PartialEq, Eq, Debug)]
pub struct Order {
    pub tables: [Table; 4],
}

/// Every order in which each table shares a key with one before it.
pub fn orders() -> [Order; 8]
    ensures { map tables result ≡ by_keys (permutations (Payments ∷ Members ∷ Flats ∷ Lifts ∷ [])) }
{
    let (payments, members) = (Table::Payments, Table::Members);
    let (flats, lifts) = (Table::Flats, Table::Lifts);
    // A literal of the struct in each place would take three lines for an order's one.
    let in_order = |tables: [Table; 4]| Order { tables };
    [
        in_order([payments, members, flats, lifts]),
        in_order([members, payments, flats, lifts]),
        in_order([members, flats, payments, lifts]),
        in_order([members, flats, lifts, payments]),
        in_order([flats, members, payments, lifts]),
        in_order([flats, members, lifts, payments]),
        in_order([flats, lifts, members, payments]),
        in_order([lifts, flats, members, payments]),
    ]
}

impl Order {
    /// The columns before those of a table, where the tables are joined in this order.
    fn offset_of(&self, table: Table) -> usize
        ensures columns { result ≡ offset (tables self.now) table }
        ensures few { result ≤ 8 }
    {
        self.tables
            .iter()
            .take_while(|before| **before != table)
            .map(|before| before.width())
            .sum()
    }

    /// The pair that holds a table's key equal to that of the next table, in tables
    /// that are joined in this order, the next one before it.
    fn pair_with_next(&self, table: Table, next: Table) -> KeyPair
        ensures { result ≡ pair_with_next (tables self.now) table next }
    {
        KeyPair {
            left: KeySide::Column(self.offset_of(next)),
            right: KeySide::Column(table.to_next()),
        }
    }

    /// The same with the table before.
    // One function for both would take each table's column besides, and be no plainer.
    fn pair_with_last(&self, last: Table) -> KeyPair
        ensures { result ≡ pair_with_last (tables self.now) last }
    {
        KeyPair {
            left: KeySide::Column(self.offset_of(last) + last.to_next()),
            right: KeySide::Column(0),
        }
    }

    /// Whether a table comes before another in this order.
    fn is_before(&self, a: Table, b: Table) -> bool
        ensures { result ≡ nat_lt (offset (tables self.now) a) (offset (tables self.now) b) }
    {
        self.offset_of(a) < self.offset_of(b)
    }

    /// The pair by which a table is joined to those before it in this order.
    pub fn pair_to(&self, table: Table) -> KeyPair
        ensures { result ≡ pair_to (tables self.now) table }
    {
        match table {
            Table::Payments => self.pair_with_next(table, Table::Members),
            Table::Members if self.is_before(Table::Flats, table) => {
                self.pair_with_next(table, Table::Flats)
            }
            Table::Members => self.pair_with_last(Table::Payments),
            Table::Flats if self.is_before(Table::Lifts, table) => {
                self.pair_with_next(table, Table::Lifts)
            }
            Table::Flats => self.pair_with_last(Table::Members),
            Table::Lifts => self.pair_with_last(Table::Flats),
        }
    }
}

/// The cost of an order: the rows of its steps, added up.
pub fn cost(steps: &[Precision<u64>]) -> Precision<u64>
    ensures { result ≡ rows_total steps.now }
{
    total_of(steps)
}

/// Fewer rows; a cost that is not known is dearer than each that is.
fn is_cheaper(a: Precision<u64>, b: Precision<u64>) -> bool
    ensures { result ≡ cheaper a b }
{
    a.get_value()
        .is_some_and(|a| b.get_value().is_none_or(|b| a < b))
}

/// The place of the cheapest, the first of several.
pub fn choose(costs: &[Precision<u64>]) -> Option<usize>
    ensures chosen { Chosen costs.now result }
    ensures first { IfSome result (First costs.now) }
{
    // `min_by_key` is no plainer: its key is a pair, since `None` comes before each `Some`.
    let mut best = None;
    for (i, cost) in costs.iter().enumerate() {
        if best.is_none_or(|b| is_cheaper(*cost, costs[b])) {
            best = Some(i);
        }
    }
    best
}

/// `payments`, `members`, `flats` or `lifts`.
impl fmt::Display for Table {
    ghost output = { λ t. Some (name t) };

    ghost styled_output = { λ t spec. Some (padded spec (name t)) };

    fn fmt<W: fmt::Write>(&self, f: &mut fmt::Formatter<W>) -> fmt::Result {
        f.pad(match self {
            Table::Payments => "payments",
            Table::Members => "members",
            Table::Flats => "flats",
            Table::Lifts => "lifts",
        })
    }
}
