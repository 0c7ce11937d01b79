//! Looks through the payment tables of a cooperative's houses: adds up their
//! rows, trims what is known of their payers, sizes a part of each table, and
//! estimates the joins of one house's members to its payments.
#![tactic(auto)]

ghost use Rattle.std.specs.Prelude.{◌≡◌, ◌≤◌};
ghost use Rattle.planner.specs.Tables.{keyed, payers_of};

mod tables;

use estimators::{Chain, Product, Widest};
use keys::Whole;
use questions::JoinType;
use stats::{ColumnStatistics, Precision, max_distinct_count};
use std::{fmt, io};
use tables::{KeyedRows, first_rows, join_rows, total_rows};

/// A table of a house: its payments, each with the number of its payer, or its
/// members, each with their own.
#[derive(Clone, Copy)]
struct Table {
    house: &'static str,
    rows: Precision<u64>,
    bytes: Precision<u64>,
    payer: ColumnStatistics<Whole>,
}

impl Table {
    /// The rows, and the payers trimmed to them.
    fn keys(&self) -> KeyedRows
        ensures { result ≡ keyed self.now.rows self.now.payer }
    {
        KeyedRows {
            rows: self.rows,
            key: self.payer.trim(self.rows),
        }
    }
}

fn known_payers(
    nulls: Precision<u64>,
    distincts: Precision<u64>,
    low: i64,
    high: i64,
) -> ColumnStatistics<Whole>
    ensures { result ≡ payers_of nulls distincts low high }
{
    ColumnStatistics {
        null_count: nulls,
        distinct_count: distincts,
        min_value: Precision::Exact(Whole(low)),
        max_value: Precision::Exact(Whole(high)),
        ..ColumnStatistics::unknown()
    }
}

/// Texts below the heads of their columns.
// All are made before their line is printed, by one call, so that it goes out in one write or
// not at all. The statement has the same: they are two programs, and no crate below prints.
#[derive(Clone, Copy)]
struct Cells<'a>(&'a [String]);

impl fmt::Display for Cells<'_> {
    fn fmt<W: fmt::Write>(&self, f: &mut fmt::Formatter<W>) -> fmt::Result {
        for text in self.0 {
            write!(f, "{text:>9}")?;
        }
        Ok(())
    }
}

/// A label, and counts below the heads of their columns.
fn print_line<const N: usize>(
    rt: &HostRuntime,
    label: &str,
    counts: [Precision<u64>; N],
) -> io::Result<()>
    requires { N ≤ 5 }
{
    let texts = counts.try_map(|count| count.to_string(rt.alloc()))?;
    println!(rt; "{label:<24}{}", Cells(&texts))
}

fn print_tables(rt: &HostRuntime, houses: &[Table]) -> io::Result<()> {
    println!(rt; "payments of                  rows    bytes    nulls   payers  at most")?;
    for table in houses {
        let payer = table.keys().key;
        let most = max_distinct_count(table.rows, &payer);
        let (nulls, payers) = (payer.null_count, payer.distinct_count);
        let counts = [table.rows, table.bytes, nulls, payers, most];
        print_line(rt, table.house, counts)?;
    }
    println!(rt)
}

fn print_parts(rt: &HostRuntime, houses: &[Table]) -> io::Result<()> {
    println!(rt; "the first 500 of             rows    bytes    nulls")?;
    for table in houses {
        let part = first_rows(table.rows, table.bytes, table.payer.null_count, 500);
        print_line(rt, table.house, [part.rows, part.bytes, part.nulls])?;
    }
    println!(rt)
}

fn print_sums(
    rt: &HostRuntime,
    a: Precision<u64>,
    b: Precision<u64>,
    c: Precision<u64>,
) -> io::Result<()> {
    let sums = [
        ("Alder and Cedar", a.add(c)),
        ("all three", total_rows(&[a, b, c])),
        (
            "with Dogwood, unknown",
            total_rows(&[a, b, c, Precision::Absent]),
        ),
        ("most of the three", a.max(b).max(c)),
        ("fewest of the three", a.min(b).min(c)),
        ("Alder over Cedar", a.sub(c)),
    ];
    for (label, rows) in sums {
        print_line(rt, label, [rows])?;
    }
    println!(rt)
}

fn print_joins(rt: &HostRuntime, members: &Table, payments: &Table) -> io::Result<()> {
    let (left, right) = (members.keys(), payments.keys());
    let chain = Chain {
        first: Widest,
        second: Product,
    };
    let joins = [
        ("inner", JoinType::Inner),
        ("left", JoinType::Left),
        ("who paid (semi)", JoinType::LeftSemi),
        ("who did not (anti)", JoinType::LeftAnti),
    ];
    for (label, join_type) in joins {
        let widest = join_rows(&Widest, join_type, left, right);
        let product = join_rows(&Product, join_type, left, right);
        let either = join_rows(&chain, join_type, left, right);
        print_line(rt, label, [widest, product, either])?;
    }
    Ok(())
}

fn main(rt: HostRuntime) -> io::Result<()> {
    let alder = Table {
        house: "Alder Court",
        rows: Precision::Exact(1204),
        bytes: Precision::Exact(48161),
        payer: known_payers(Precision::Exact(104), Precision::Exact(1150), 1, 900),
    };
    let birch = Table {
        house: "Birch Row",
        rows: Precision::Inexact(980),
        bytes: Precision::Inexact(39200),
        payer: known_payers(Precision::Absent, Precision::Absent, 1, 64),
    };
    let cedar = Table {
        house: "Cedar House",
        rows: Precision::Exact(411),
        bytes: Precision::Absent,
        payer: known_payers(Precision::Exact(11), Precision::Absent, 1, 5000),
    };
    let houses = [alder, birch, cedar];
    println!(rt; "= exact, ~ an estimate, - not known")?;
    println!(rt)?;
    print_tables(&rt, &houses)?;
    print_parts(&rt, &houses)?;
    print_sums(&rt, alder.rows, birch.rows, cedar.rows)?;
    println!(rt; "Alder's members            widest  product    chain")?;
    let members = Table {
        house: "Alder Court",
        rows: Precision::Exact(1500),
        bytes: Precision::Absent,
        payer: known_payers(Precision::Exact(0), Precision::Exact(1500), 1, 1500),
    };
    print_joins(&rt, &members, &alder)?;
    println!(rt)?;
    println!(rt; "numbers apart, no rows     widest  product    chain")?;
    let unknown = Table {
        rows: Precision::Absent,
        payer: known_payers(Precision::Absent, Precision::Absent, 2000, 3000),
        ..members
    };
    print_joins(&rt, &unknown, &birch)
}
