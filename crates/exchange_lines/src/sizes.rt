// A block's size, as a size line gives it.
ghost use Rattle.std.specs.Prelude.{◌≤◌};
ghost use Rattle.common.specs.Refusals.{most_entries};

// 1,024 rows and columns at most.
#[derive(Clone, Copy)]
pub struct Sizes {
    pub rows: usize,
    pub columns: usize,
    ghost within: { (rows ≤ most_entries) × (columns ≤ most_entries) },
}
