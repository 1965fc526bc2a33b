// A table of rows of one type, in memory of a fixed size.
ghost use Rattle.std.specs.Prelude.{◌≡◌, ◌+◌, ◌-◌, ◌<◌, ◌≤◌, length, take, replicate, slice_index_or, slice_set};

// Memory is fixed, so a table is a count beside an array, and no Vec.
/// A table of at most `N` rows; the first `count` of `rows` are there.
#[derive(Clone, Copy, Debug, PartialEq, Eq)]
pub struct Table<T, const N: usize> {
    pub count: usize,
    pub rows: [T; N],
}

impl<T: Copy, const N: usize> Table<T, N> {
    /// No rows yet.
    pub(crate) fn new(blank: T) -> Table<T, N>
        ensures { result ≡ record { count = 0; rows = replicate N blank } }
    {
        Table {
            count: 0,
            rows: [blank; N],
        }
    }

    /// The rows that are there.
    pub fn as_slice(&self) -> &[T]
        ensures is { result.now ≡ take self.now.count self.now.rows }
        ensures all { self.now.count ≤ N → length result.now ≡ self.now.count }
    {
        &self.rows[..self.count.min(N)]
    }

    /// One row more.
    pub(crate) fn push(&mut self, row: T)
        requires { self.now.count < N }
        ensures { self.new ≡ record { count = self.old.count + 1; rows = slice_set self.old.rows self.old.count row } }
    {
        self.rows[self.count] = row;
        self.count += 1;
    }

    /// The row that was added last; while there is none, the row at 0 as it began, and the blank one where there is no
    /// such row.
    pub(crate) fn last_or(&self, blank: T) -> T
        ensures { result ≡ slice_index_or self.now.rows (self.now.count - 1) blank }
    {
        self.rows
            .get(self.count.saturating_sub(1))
            .copied()
            .unwrap_or(blank)
    }
}
