// Large tables, on the heap.
ghost use Rattle.std.specs.Prelude.{◌≡◌, length};

use std::alloc::{AllocError, Global};

/// A table of N rows, on the heap.
#[derive(Drop)]
pub struct Table<T, const N: usize> {
    rows: Vec<T>,
    ghost full: { length rows.items ≡ N },
}

impl<T: Copy, const N: usize> Table<T, N> {
    /// N times this row.
    pub fn new(alloc: Global, row: T) -> Result<Table<T, N>, AllocError> {
        let rows = vec![in alloc; row; N]?;
        Ok(Table { rows })
    }

    pub fn rows(&mut self) -> &mut [T; N] {
        let Some(rows) = self.rows.as_mut_array() else {
            unreachable!()
        };
        rows
    }
}
