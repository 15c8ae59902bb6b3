//! Tables whose nodes all have a row.

ghost use Rattle.std.specs.Prelude.{◌<◌, ◌↔◌, IsTrue, All};
ghost use Rattle.graph_walks.specs.Tables.{IsClosed, rows_of};

/// Whether each node to which one leads has a row. Takes time linear in the table.
pub fn is_closed(table: &[Vec<u32>]) -> bool
    ensures closed { IsTrue result → IsClosed (rows_of table.now) }
    ensures only { IsClosed (rows_of table.now) → IsTrue result }
{
    for row in table {
        if !are_below(row, table.len()) {
            return false;
        }
    }
    true
}

// Whether each number is below the count.
fn are_below(numbers: &[u32], count: usize) -> bool
    ensures { IsTrue result ↔ All (λ n. n < count) numbers.now }
{
    numbers.iter().all(|number| (*number as usize) < count)
}
