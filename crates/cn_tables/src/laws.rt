ghost use Rattle.std.specs.Prelude.{◌≡◌, ◌+◌, ◌∷◌, [], ℕ, List, Ok, Err};
ghost use Rattle.cn_tables.specs.Table.{Fields, Step, read_rows};
ghost use Rattle.cn_tables.specs.declared.fault.RowKind.{RowKind as Kind};

/// How the rows of a table are read into a list, one after the other: a law of the definitions.
pub fn rows_are_read<R>()
    // no row is left
    ensures end { (step : Step (List R)) (number : ℕ) (found : List R) (rows : List Fields) → rows ≡ [] → read_rows step number found rows ≡ Ok found }
    // the next row has no fault
    ensures more { (step : Step (List R)) (number : ℕ) (found next : List R) (rows : List Fields) (fields : Fields) (rest : List Fields) →
        rows ≡ fields ∷ rest → step number found fields ≡ Ok next → read_rows step number found rows ≡ read_rows step (number + 1) next rest }
    // the next row has one
    ensures bad { (step : Step (List R)) (number : ℕ) (found : List R) (kind : Kind) (rows : List Fields) (fields : Fields) (rest : List Fields) →
        rows ≡ fields ∷ rest → step number found fields ≡ Err kind → read_rows step number found rows ≡ Err (number, kind) }
{}
