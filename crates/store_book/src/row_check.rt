//! What checks the rows of a table.
ghost use Rattle.std.specs.Prelude.{◌++◌, [], ◌∷◌, IfOk, IfSome, IsSome, IsTrue, List};

use std::alloc::{AllocError, Global};
use store_columns::Columns;

/// What checks the rows of a table, one after the other.
pub trait RowCheck<C: Columns>: Drop {
    /// What is kept of a table whose rows all passed.
    type Kept: Drop;

    // From the first on it came to the second by these rows, each of which passed.
    ghost Passed: { Self → Self → List C.Row → Type 0 };

    // What these rows are, as this is kept of them, where they passed from here on.
    ghost IsWhole: { Self → List C.Row → Self.Kept → Type 0 };

    // These rows, from here on, are a book's table.
    ghost AreAll: { Self → List C.Row → Type 0 };

    /// Whether the next row passes, as it does where those before it, it and others behind it are a book's table. Behind one that
    /// does not, nothing is said of the others.
    ///
    /// # Errors
    ///
    /// Where there is no memory for what is kept of it.
    fn passes(&mut self, row: &C::Row) -> Result<bool, AllocError>
        ensures passed { IfOk result (λ passes. IsTrue passes → (first : Self) (rows : List C.Row) → Passed first self.old rows
            → Passed first self.new (rows ++ row.now ∷ [])) }
        ensures fine { IfOk result (λ passes. (first : Self) (rows rest : List C.Row) → Passed first self.old rows
            → AreAll first (rows ++ row.now ∷ rest) → IsTrue passes) };

    /// What is kept of the rows that passed, behind the last one, if they are a whole table, as all rows of a book are.
    ///
    /// # Errors
    ///
    /// Where there is no memory to tell.
    fn finish(self, alloc: Global) -> Result<Option<Self::Kept>, AllocError>
        ensures whole { IfOk result (λ kept. IfSome kept (λ kept. (first : Self) (rows : List C.Row) → Passed first self rows
            → IsWhole first rows kept)) }
        ensures fine { IfOk result (λ kept. (first : Self) (rows : List C.Row) → Passed first self rows → AreAll first rows → IsSome kept) };

    // A row like the last one may have come in its place.
    ghost passed_alike: { (first now : Self) (rows : List C.Row) (row other : C.Row) → C.AreAlike row other → Passed first now (rows ++ row ∷ [])
        → Passed first now (rows ++ other ∷ []) };

    // In a book's table a row like one of its own may stand in that one's place.
    ghost all_alike: { (first : Self) (rows rest : List C.Row) (row other : C.Row) → C.AreAlike other row → AreAll first (rows ++ row ∷ rest)
        → AreAll first (rows ++ other ∷ rest) };
}
