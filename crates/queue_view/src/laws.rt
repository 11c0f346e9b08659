//! What a removal of records does to all tables. No call is made: the clause speaks of the definitions.

ghost use Rattle.std.specs.Prelude.{◌≡◌, ◌≤◌, ◌-◌, ℕ, List, map, take, drop};
ghost use Rattle.queue_view.specs.Tables.{Table};
ghost use Rattle.queue_view.specs.Added.{Added, AreTablesOf, AreLowAfter, cut_to};

/// Where the first k records of a list are removed, and each table is cut at its queue's number of removed ones, the tables are
/// those of the rest.
pub fn tables_that_are_cut_are_those_of_the_rest()
    ensures { (low later : List ℕ → ℕ → ℕ) (added : List Added) (n k : ℕ) (tables : List Table) → AreTablesOf low added n tables → k ≤ n
        → AreLowAfter low (take k added) later → AreTablesOf later (drop k added) (n - k) (map (cut_to later) tables) }
{}
