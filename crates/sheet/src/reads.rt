//! Reading a node.
ghost use Rattle.std.specs.Prelude.{◌≡◌};
ghost use Rattle.sheet.specs.Sheets.{sheet_of};
ghost use Rattle.sheet.specs.Views.{seen};
ghost use Rattle.sheet.specs.Steps.{checked};
ghost use Rattle.sheet.specs.Reads.{read_refusal, read_answer, shown};

use crate::checks::refuse_unless;
use crate::views::{View, block_of};
use crate::{Head, Node, Operator, Refusal};
use keys::Key;
use questions::Figure;
use stats::{ColumnStatistics, Precision};

/// What a node says of its table.
#[derive(Clone, Copy, PartialEq, Eq, Debug)]
pub struct NodeView<'a, K> {
    pub rows: Precision<u64>,
    pub bytes: Precision<u64>,
    pub figure: Option<Figure>,
    pub operator: Operator,
    pub columns: &'a [ColumnStatistics<K>],
}

impl<'a, K: Key> View<'a, K> {
    /// Whether a node can be read.
    fn check_read(&self, n: usize) -> Result<(), Refusal>
        ensures { result ≡ checked (read_refusal K.relation (seen self.now) n) }
    {
        let readable = self.head.used <= self.columns.len() && self.is_block_inside(&self.node(n));
        refuse_unless(self.head.count <= self.nodes.len(), Refusal::NodeMemory)?;
        refuse_unless(self.is_fit_child(n), Refusal::Child)?;
        refuse_unless(readable, Refusal::ColumnMemory)
    }
}

/// Reads a node.
pub(crate) fn read_on<'a, K: Key>(
    head: &Head,
    nodes: &[Node],
    columns: &'a [ColumnStatistics<K>],
    n: usize,
) -> Result<NodeView<'a, K>, Refusal>
    ensures { shown result ≡ read_answer K.relation (sheet_of head.now nodes.now columns.now) n }
{
    let view = View {
        head: *head,
        nodes,
        columns,
    };
    view.check_read(n)?;
    let node = view.node(n);
    Ok(NodeView {
        rows: node.rows,
        bytes: node.bytes,
        figure: node.figure,
        operator: node.operator,
        columns: block_of(columns, &node),
    })
}
