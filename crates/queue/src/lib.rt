//! A queue that owns its cells, for every kind of entry and every number of cells.
#![tactic(auto)]

ghost use Rattle.std.specs.Prelude.{◌≡◌, ◌<◌, ◌≤◌, true, false, [], ◌∷◌, ◌++◌, length, nat_lt};
ghost use Rattle.queue.specs.Ring.{first, rest, pushed, over, next, spot};

use std::marker::Model;

// A ring of its own: std's VecDeque and the kit's circular buffers allocate, and the core has no heap.
/// At most N entries: `count` of them lie in the cells from `head` on, round the end.
#[derive(Clone, Drop)]
pub struct Queue<X, const N: usize> {
    cells: [X; N],
    head: usize,
    count: usize,
}

// Clauses see the entries, oldest first.
impl<X, const N: usize> Model for Queue<X, N> {
    ghost use Rattle.std.specs.Prelude.{◌<◌, ◌≤◌, List};
    ghost use Rattle.queue.specs.Ring.{entries};

    ghost Value = { List X };

    ghost view = { λ q. entries q.head q.count q.cells };

    // the head is one of the cells, where there is one
    ghost invariant = { λ q. record { few : q.count ≤ N; head : 0 < N → q.head < N } };
}

impl<X: Copy, const N: usize> Queue<X, N> {
    /// An empty queue; the blank fills the cells until entries come.
    #[tactic(auto, unfolding(crate::specs::Ring::entries))]
    pub fn new(blank: X) -> Self
        ensures { result ≡ [] }
    {
        Queue {
            cells: [blank; N],
            head: 0,
            count: 0,
        }
    }

    /// How many entries there are.
    #[tactic(auto, using(crate::proofs::Rings::counted))]
    pub fn count(&self) -> usize
        ensures is { result ≡ length self.now }
        ensures few { result ≤ N }
    {
        self.count
    }

    /// The oldest entry.
    #[tactic(auto, using(crate::proofs::Rings::counted, crate::proofs::Rings::oldest_is), unfolding(crate::specs::Ring::entries))]
    pub fn oldest(&self) -> Option<X>
        ensures { result ≡ first self.now }
    {
        if self.count == 0 {
            None
        } else {
            Some(self.cells[self.head])
        }
    }

    #[tactic(auto, unfolding(crate::specs::Ring::entries))]
    pub fn clear(&mut self)
        ensures { self.new ≡ [] }
    {
        self.count = 0;
    }

    /// One entry more; false where every cell is taken.
    pub fn push(&mut self, x: X) -> bool
        ensures room { result ≡ nat_lt (length self.old) N }
        ensures is { self.new ≡ pushed N self.old x }
    {
        if self.is_full() {
            return false;
        }
        self.put(x);
        true
    }

    /// Takes the oldest entry.
    pub fn pop(&mut self) -> Option<X>
        ensures took { result ≡ first self.old }
        ensures left { self.new ≡ rest self.old }
    {
        let x = self.oldest();
        self.drop_oldest();
        x
    }

    /// One entry more; where every cell is taken the oldest entry gives way.
    pub fn push_over(&mut self, x: X)
        requires { 0 < N }
        ensures { self.new ≡ over N self.old x }
    {
        if self.is_full() {
            self.replace_oldest(x);
        } else {
            self.put(x);
        }
    }

    /// Whether every cell is taken.
    #[tactic(auto, using(crate::proofs::Rings::counted))]
    fn is_full(&self) -> bool
        ensures full { result ≡ true → length self.now ≡ N }
        ensures room { result ≡ false → length self.now < N }
    {
        self.count == N
    }

    /// Drops the oldest entry, where there is one.
    #[tactic(auto, using(crate::proofs::Rings::counted, crate::proofs::Rings::others_are), unfolding(crate::specs::Ring::entries))]
    fn drop_oldest(&mut self)
        ensures { self.new ≡ rest self.old }
    {
        if self.count > 0 {
            self.head = after(self.head, N);
            self.count -= 1;
        }
    }

    /// The oldest of N entries gives way, and another comes last: it takes the same cell.
    #[tactic(auto, using(crate::proofs::Rings::counted, crate::proofs::Rings::over_oldest))]
    fn replace_oldest(&mut self, x: X)
        requires some { 0 < N }
        requires full { length self.old ≡ N }
        ensures { self.new ≡ rest self.old ++ x ∷ [] }
    {
        self.cells[self.head] = x;
        self.head = after(self.head, N);
    }

    /// One entry more, where there is room.
    #[tactic(auto, using(crate::proofs::Rings::counted, crate::proofs::Rings::put_at))]
    fn put(&mut self, x: X)
        requires room { length self.old < N }
        ensures { self.new ≡ self.old ++ x ∷ [] }
    {
        self.cells[place(self.head, self.count, N)] = x;
        self.count += 1;
    }
}

/// The cell n on from h, round the end z.
fn place(h: usize, n: usize, z: usize) -> usize
    requires { (h < z) × (n ≤ z) }
    ensures { result ≡ spot h n z }
{
    if n < z - h { h + n } else { n - (z - h) }
}

/// The cell after i of n, round the end.
fn after(i: usize, n: usize) -> usize
    requires { i < n }
    ensures is { result ≡ next i n }
    ensures within { result < n }
{
    if i + 1 == n { 0 } else { i + 1 }
}
