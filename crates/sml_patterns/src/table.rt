//! The columns of the rules of a match, by which the rules that may match a shape with another one are found.

ghost use Rattle.std.specs.Prelude.{◌≡◌, List, [], ◌∷◌, ◌++◌, length, IfOk, OnOk, IfSome};
ghost use Rattle.sml_narrowing.specs.Plain.{Plain, Wild};
ghost use Rattle.sml_narrowing.specs.Views.{plain_of};
ghost use Rattle.sml_patterns.specs.CodeTasks.{near};
ghost use Rattle.sml_patterns.specs.CodeColumns.{picked, Knows, KnowsEach};

use crate::column::Column;
use sml_lex::fault::Memory;
use sml_narrowing::pattern::Pattern;
use sml_tree::bare::Ident;
use std::alloc::Global;

/// So many labels of rows are columns at most.
const MOST_COLUMNS: usize = 8;

#[derive(Drop)]
pub struct Table {
    columns: Vec<Column>,
}

/// A column for each of the first labels.
fn label_columns(alloc: Global, labels: &[Ident]) -> Result<Vec<Column>, Memory>
    ensures { IfOk result (λ columns. KnowsEach [] columns.items) }
{
    let mut columns = Vec::new(alloc);
    for index in 0..labels.len().min(MOST_COLUMNS) {
        columns.push(Column::new(alloc, Some(labels[index].clone()?)))?;
    }
    Ok(columns)
}

impl Table {
    /// The table for rules whose patterns are like this one, with none noted.
    pub fn new(alloc: Global, pattern: &Pattern) -> Result<Table, Memory>
        ensures { IfOk result (λ table. KnowsEach [] table.columns.items) }
    {
        if let Pattern::Row { labels, .. } = pattern {
            let columns = label_columns(alloc, labels)?;
            return Ok(Table { columns });
        }
        let mut columns = Vec::new(alloc);
        columns.push(Column::new(alloc, None))?;
        Ok(Table { columns })
    }

    /// Notes the next rule's pattern, and its index.
    pub fn note(&mut self, any: &Pattern, pattern: &Pattern, index: usize) -> Result<(), Memory>
        requires { plain_of any.now ≡ Wild }
        ensures { (above : List Plain) → KnowsEach above self.old.columns.items → index ≡ length above → OnOk result (KnowsEach (above ++ plain_of pattern.now ∷ []) self.new.columns.items) }
    {
        for number in 0..self.columns.len() {
            note_in(&mut self.columns[number], any, pattern, index)?;
        }
        Ok(())
    }

    /// The indices of rules above among which are all that may match a shape with this pattern, where a column tells them and
    /// they are so many at most.
    fn among(
        &self,
        any: &Pattern,
        pattern: &Pattern,
        most: usize,
    ) -> Result<Option<Vec<usize>>, Memory>
        requires { plain_of any.now ≡ Wild }
        ensures { (above : List Plain) → KnowsEach above self.now.columns.items → IfOk result (λ r. IfSome r (λ indices. near (plain_of pattern.now) (picked above indices.items) ≡ near (plain_of pattern.now) above)) }
    {
        for column in &self.columns {
            if let Some(key) = column.key(any, pattern)? {
                let found = column.candidates(&key, most)?;
                if found.is_some() {
                    return Ok(found);
                }
            }
        }
        Ok(None)
    }

    /// The same for the fewest that a column tells, up to a factor of 16; where none tells fewer than there are rules above, none.
    pub fn find(
        &self,
        any: &Pattern,
        pattern: &Pattern,
        above: usize,
    ) -> Result<Option<Vec<usize>>, Memory>
        requires { plain_of any.now ≡ Wild }
        ensures { (above : List Plain) → KnowsEach above self.now.columns.items → IfOk result (λ r. IfSome r (λ indices. near (plain_of pattern.now) (picked above indices.items) ≡ near (plain_of pattern.now) above)) }
    {
        for most in [16_usize, 256, 4_096, 65_536] {
            if above <= most {
                return Ok(None);
            }
            let found = self.among(any, pattern, most)?;
            if found.is_some() {
                return Ok(found);
            }
        }
        Ok(None)
    }
}

fn note_in(
    column: &mut Column,
    any: &Pattern,
    pattern: &Pattern,
    index: usize,
) -> Result<(), Memory>
    requires { plain_of any.now ≡ Wild }
    ensures { (above : List Plain) → Knows above column.old → index ≡ length above → OnOk result (Knows (above ++ plain_of pattern.now ∷ []) column.new) }
{
    let key = column.key(any, pattern)?;
    column.note(key, index)
}
