//! Plans the report of a service charge statement: who owes what for the lifts.
//! Lays the tables of a cooperative on a sheet, estimates their joins in every
//! order that the keys allow, chooses one, and sizes the parts of the report.
#![tactic(auto)]

ghost use Rattle.std.specs.Prelude.{◌≤◌};

use estimators::{Chain, Product, Widest};
use keys::Whole;
use orders::{Order, Table, choose, cost, orders};
use questions::{JoinType, KeyPair, KeySide, NullEquality};
use sheet::{AggregateMode, Grouping, Join, Refusal};
use sheets::Sheet;
use stats::{ColumnStatistics, Precision};
use std::alloc::Global;
use std::fmt::{self, Display};
use std::io;

const NONE: Precision<u64> = Precision::Absent;

/// The report as it is planned: its sheet, and where it is printed.
#[derive(Drop)]
struct Report<'a> {
    rt: &'a HostRuntime,
    sheet: Sheet<Whole, Chain<Widest, Product>, Global>,
}

/// A column of numbers from 1 on.
fn numbers(nulls: u64, distincts: u64, highest: i64) -> ColumnStatistics<Whole> {
    ColumnStatistics {
        null_count: Precision::Exact(nulls),
        distinct_count: Precision::Exact(distincts),
        min_value: Precision::Exact(Whole(1)),
        max_value: Precision::Exact(Whole(highest)),
        ..ColumnStatistics::unknown()
    }
}

/// Texts below the heads of their columns.
// All are made before their line is printed, by one call, so that it goes out in one write or
// not at all. The planner has the same: they are two programs, and no crate below prints.
#[derive(Clone, Copy)]
struct Cells<'a>(&'a [String]);

impl fmt::Display for Cells<'_> {
    fn fmt<W: fmt::Write>(&self, f: &mut fmt::Formatter<W>) -> fmt::Result {
        for text in self.0 {
            write!(f, "{text:>9}")?;
        }
        Ok(())
    }
}

// A refused step is printed and the report goes on, so its Result is passed on as a value.
impl Report<'_> {
    /// The texts of counts: all are made before anything of their line is printed.
    fn texts_of<const N: usize>(&self, counts: [Precision<u64>; N]) -> io::Result<[String; N]>
        requires { N ≤ 4 }
    {
        Ok(counts.try_map(|count| count.to_string(self.rt.alloc()))?)
    }

    fn print_refusal(&self, label: impl Display + Copy, refusal: Refusal) -> io::Result<()> {
        let number = refusal.number();
        println!(self.rt; "     {label:<26}refused, {number}: {refusal}")
    }

    /// Prints a node: number, what it is for, operator, rows, bytes and figure.
    fn print_node(
        &self,
        label: impl Display + Copy,
        answer: Result<usize, Refusal>,
    ) -> io::Result<()> {
        let read = answer.and_then(|number| Ok((number, self.sheet.read(number)?)));
        let (number, node) = match read {
            Ok(read) => read,
            Err(refusal) => return self.print_refusal(label, refusal),
        };
        let operator = node.operator;
        let figure = node.figure.map_or(NONE, Precision::from);
        let texts = self.texts_of([node.rows, node.bytes, figure])?;
        println!(self.rt; "{number:>3}  {label:<26}{operator:<16}{}", Cells(&texts))
    }

    fn rows_of(&self, answer: Result<usize, Refusal>) -> Precision<u64> {
        answer
            .and_then(|number| self.sheet.read(number))
            .map_or(NONE, |node| node.rows)
    }

    fn join_by(
        &mut self,
        join_type: JoinType,
        left: usize,
        right: usize,
        pair: KeyPair,
    ) -> Result<usize, Refusal> {
        self.sheet.join(&Join {
            join_type,
            null_equality: NullEquality::NullEqualsNothing,
            left,
            right,
            on: &[pair],
        })
    }

    /// Joins a table to the node that has those before it in an order.
    fn join_next(
        &mut self,
        order: &Order,
        before: Result<usize, Refusal>,
        table: Table,
    ) -> Result<usize, Refusal> {
        let pair = order.pair_to(table);
        self.join_by(JoinType::Inner, before?, table.number(), pair)
    }

    /// Joins the tables in an order: the nodes of its three steps.
    fn join_all(&mut self, order: &Order) -> [Result<usize, Refusal>; 3] {
        let [first, second, third, fourth] = order.tables;
        let one = self.join_next(order, Ok(first.number()), second);
        let two = self.join_next(order, one, third);
        let three = self.join_next(order, two, fourth);
        [one, two, three]
    }

    /// Prints the rows of an order's steps and its cost, which is their sum, and
    /// leaves the four tables.
    fn print_order(&mut self, order: &Order) -> io::Result<Precision<u64>> {
        let [one, two, three] = self.join_all(order).map(|answer| self.rows_of(answer));
        let all = cost(&[one, two, three]);
        let [a, b, c, d] = order.tables;
        let texts = self.texts_of([one, two, three, all])?;
        println!(self.rt; "     {a:<9}{b:<9}{c:<9}{d:<9}{}", Cells(&texts))?;
        if let Err(refusal) = self.sheet.cut(Table::Lifts.number()) {
            self.print_refusal("cut", refusal)?;
        }
        Ok(all)
    }

    /// Prints every order, and gives the one with the fewest rows.
    fn print_orders(&mut self) -> io::Result<Order> {
        let all = orders();
        let costs = all.try_map(|order| self.print_order(&order))?;
        Ok(choose(&costs).map_or(all[0], |i| all[i]))
    }

    /// Lays the tables of the report, each with its label.
    fn lay_tables(&mut self) -> [(&'static str, Result<usize, Refusal>); 4] {
        let payments = [numbers(150, 760, 900), ColumnStatistics::unknown()];
        let members = [numbers(0, 900, 900), numbers(20, 640, 700)];
        let flats = [numbers(0, 700, 700), numbers(210, 12, 12)];
        let lifts = [numbers(0, 12, 12)];
        let exact = Precision::Exact;
        [
            (
                "payments of Alder Court",
                self.sheet.lay(exact(9600), exact(384000), &payments),
            ),
            (
                "members",
                self.sheet.lay(exact(900), exact(54000), &members),
            ),
            ("flats", self.sheet.lay(exact(700), NONE, &flats)),
            ("lifts", self.sheet.lay(exact(12), NONE, &lifts)),
        ]
    }

    /// Joins the tables in the chosen order, and prints each step.
    fn print_statement(&mut self, order: &Order) -> io::Result<Result<usize, Refusal>> {
        let [one, two, three] = self.join_all(order);
        let [_, second, third, fourth] = order.tables;
        self.print_node(second, one)?;
        self.print_node(third, two)?;
        self.print_node(fourth, three)?;
        Ok(three)
    }

    /// Who paid and who did not: together they are all members.
    fn print_payers(&mut self) -> io::Result<()> {
        let pair = KeyPair {
            left: KeySide::Column(0),
            right: KeySide::Column(0),
        };
        let (members, payments) = (Table::Members.number(), Table::Payments.number());
        let paid = self.join_by(JoinType::LeftSemi, members, payments, pair);
        self.print_node("who paid", paid)?;
        let unpaid = self.join_by(JoinType::LeftAnti, members, payments, pair);
        self.print_node("who did not", unpaid)?;
        let texts = self.texts_of([self.rows_of(paid).add(self.rows_of(unpaid))])?;
        println!(self.rt; "     {:<42}{}", "both together", Cells(&texts))
    }

    /// A page of the statement, the payments of each payer, and those of two houses.
    fn print_parts(&mut self, statement: Result<usize, Refusal>) -> io::Result<()> {
        if let Ok(statement) = statement {
            let page = self.sheet.limit(statement, 0, Some(100));
            self.print_node("its first page", page)?;
        }
        let payments = Table::Payments.number();
        let payers = self.sheet.group(&Grouping {
            mode: AggregateMode::Single,
            sets: 1,
            extras: 1,
            child: payments,
            by: &[KeySide::Column(0)],
        });
        self.print_node("a sum for each payer", payers)?;
        let other = [numbers(12, 300, 410), ColumnStatistics::unknown()];
        let house = self.sheet.lay(Precision::Inexact(4100), Precision::Inexact(164000), &other);
        self.print_node("payments of Birch Row", house)?;
        if let Ok(house) = house {
            let both = self.sheet.union(&[payments, house]);
            self.print_node("payments of both houses", both)?;
        }
        Ok(())
    }

    /// A call that is refused, and the sheet as before: the next node has the next
    /// number.
    fn print_refused(&mut self) -> io::Result<()> {
        let pair = KeyPair {
            left: KeySide::Column(7),
            right: KeySide::Column(0),
        };
        let (payments, members) = (Table::Payments.number(), Table::Members.number());
        let lost = self.join_by(JoinType::Inner, payments, members, pair);
        self.print_node("joined by its 8th column", lost)?;
        let page = self.sheet.limit(payments, 9000, None);
        self.print_node("payments after 9000", page)
    }
}

fn main(rt: HostRuntime) -> io::Result<()> {
    let chain = Chain {
        first: Widest,
        second: Product,
    };
    let mut report = Report {
        rt: &rt,
        sheet: Sheet::new(rt.alloc(), 64, 256, chain)?,
    };
    println!(rt; "= exact, ~ an estimate, - not known")?;
    println!(rt)?;
    println!(rt; "     tables                    operator             rows    bytes   figure")?;
    for (label, table) in report.lay_tables() {
        report.print_node(label, table)?;
    }
    println!(rt)?;
    println!(rt; "     orders                                 step 1   step 2   step 3     cost")?;
    let order = report.print_orders()?;
    let [a, b, c, d] = order.tables;
    println!(rt; "     chosen, since no order has fewer rows in all: {a}, {b}, {c}, {d}")?;
    println!(rt)?;
    println!(rt; "     the statement             operator             rows    bytes   figure")?;
    let statement = report.print_statement(&order)?;
    report.print_payers()?;
    report.print_parts(statement)?;
    println!(rt)?;
    report.print_refused()
}
