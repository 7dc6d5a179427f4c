// Costs by two numbers, as a junction and a set, or two junctions.
ghost use Rattle.std.specs.Prelude.{◌≡◌, ◌+◌, ◌*◌, ◌^◌, ◌<◌, set as put, None, IfOk, slice_index_or, vec_len};
ghost use Rattle.oracle.specs.Costs.{lesser_of};

use crate::costs::{at, lower};
use network::Cost;
use std::alloc::{AllocError, Global};

// Where `column` stands in a row of rows, each of `width`.
pub(crate) fn cell(row: usize, width: usize, column: usize) -> usize
    ensures { row * width + column < 2 ^ 64 → result ≡ row * width + column }
{
    row.saturating_mul(width).saturating_add(column)
}

#[derive(Drop)]
pub struct Table<K> {
    pub width: usize,
    // What stands at a row and a column, at row × width + column.
    pub costs: Vec<Option<K>>,
}

impl<K: Cost> Table<K> {
    // So many rows of `width` places, at each of which `cost` stands.
    pub fn filled(
        heap: Global,
        rows: usize,
        width: usize,
        cost: Option<K>,
    ) -> Result<Table<K>, AllocError>
        ensures width { IfOk result (λ t. t.width ≡ width) }
        ensures places { rows * width < 2 ^ 64 → IfOk result (λ t. vec_len t.costs ≡ rows * width) }
    {
        let costs = vec![in heap; cost; rows.saturating_mul(width)]?;
        Ok(Table { width, costs })
    }

    // What stands there, and none past the end.
    pub fn at(&self, row: usize, column: usize) -> Option<K>
        ensures { row * self.now.width + column < 2 ^ 64 → result ≡ slice_index_or self.now.costs.items (row * self.now.width + column) None }
    {
        at(&self.costs, cell(row, self.width, column))
    }

    // The lesser of what stands there and `cost` stands there; nothing changes past the end.
    pub fn lower(&mut self, row: usize, column: usize, cost: Option<K>)
        ensures width { self.new.width ≡ self.old.width }
        ensures lowered { row * self.old.width + column < 2 ^ 64 → self.new.costs.items ≡
            put self.old.costs.items (row * self.old.width + column) (lesser_of K.Cost.kind (slice_index_or self.old.costs.items (row * self.old.width + column) None) cost) }
    {
        lower(&mut self.costs, cell(row, self.width, column), cost);
    }
}
