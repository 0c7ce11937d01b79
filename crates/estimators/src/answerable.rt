//! Questions that have a figure at all.
ghost use Rattle.std.specs.Prelude.{◌≡◌, ◌*◌, ◌≤◌, true, is_some, IfSome};
ghost use Rattle.std.specs.Option.{option_map, option_zip};
ghost use Rattle.stats.specs.Limits.{max_count};
ghost use Rattle.stats.specs.Precisions.{known};
ghost use Rattle.questions.specs.Questions.{asked, input};
ghost use Rattle.estimators.specs.Answerable.{input_sound, answerable};

use keys::Key;
use questions::{JoinInput, JoinQuestion, MAX_PAIRS, are_pairs_inside};
use stats::{MAX_COUNT, all_sound};

fn is_input_sound<K: Key>(table: &JoinInput<'_, K>) -> bool
    ensures { result ≡ input_sound K.relation (input table.now) }
{
    table.num_rows.is_at_most(MAX_COUNT) && all_sound(table.columns)
}

/// Whether a question has at most 16 key pairs, keys inside its tables, counts
/// inside the limits, and lawful columns.
pub fn is_answerable<K: Key>(question: &JoinQuestion<'_, '_, '_, K>) -> bool
    ensures { result ≡ answerable K.relation (asked question.now) }
{
    question.on.len() <= MAX_PAIRS
        && are_pairs_inside(
            question.left.columns.len(),
            question.right.columns.len(),
            question.on,
        )
        && is_input_sound(&question.left)
        && is_input_sound(&question.right)
}

/// A question that has a figure.
#[derive(Drop)]
pub(crate) struct Answerable<'q, K: Key> {
    pub(crate) question: &'q JoinQuestion<'q, 'q, 'q, K>,
    ghost checked: { answerable K.relation (asked question.now) ≡ true },
}

/// The rows of both tables, where both are known.
#[derive(Clone, Copy)]
pub(crate) struct TableRows {
    pub(crate) left: u64,
    pub(crate) right: u64,
    ghost left_few: { left ≤ max_count },
    ghost right_few: { right ≤ max_count },
}

impl<'q, K: Key> Answerable<'q, K> {
    /// The question, if it is answerable.
    pub(crate) fn new(question: &'q JoinQuestion<'_, '_, '_, K>) -> Option<Answerable<'q, K>>
        ensures variant { answerable K.relation (asked question.now) ≡ is_some result }
        ensures question { IfSome result (λ a. a.question.now ≡ question.now) }
    {
        if is_answerable(question) {
            Some(Answerable { question })
        } else {
            None
        }
    }

    /// The rows of both tables, if both are known.
    pub(crate) fn table_rows(&self) -> Option<TableRows>
        ensures { option_map (λ r. (r.left, r.right)) result ≡ option_zip (known self.now.question.now.left.num_rows) (known self.now.question.now.right.num_rows) }
    {
        let left = self.question.left.num_rows.get_value()?;
        let right = self.question.right.num_rows.get_value()?;
        Some(TableRows { left, right })
    }
}

impl TableRows {
    /// How many pairs of a row of each there are.
    pub(crate) fn pairs(self) -> u64
        ensures { result ≡ self.left * self.right }
    {
        self.left * self.right
    }
}
