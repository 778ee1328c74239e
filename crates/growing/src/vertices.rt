// Vertices with numbers in a row.
ghost use Rattle.std.specs.Prelude.{◌≡◌, ◌+◌, ◌≤◌, ◌++◌, length};
ghost use Rattle.pattern.specs.Step.{range};
ghost use Rattle.rings.specs.Rows.{row_vertices};

use rings::row::Row;

// Puts `amount` vertices more behind those of the list, numbered from `next` on.
pub(crate) fn push_range<const CAP: usize>(list: &mut Row<CAP>, amount: u32, next: u32)
    requires room { length (row_vertices list.old) + amount ≤ CAP }
    requires free { next + amount ≤ 4294967295 }
    ensures { row_vertices list.new ≡ row_vertices list.old ++ range next amount }
{
    for vertex in next..next + amount {
        list.push(vertex);
    }
}
