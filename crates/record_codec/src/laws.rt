//! What holds of layouts and of properties. No call is made: the clauses speak of the definitions that `encode` and `test` are proved to
//! meet.

ghost use Rattle.std.specs.Prelude.{◌≡◌, ◌≢◌, ◌++◌, List, ℕ, [], true, None, Some, drop, reverse};
ghost use Rattle.mq_bytes.specs.Bytes.{AreBytes};
ghost use Rattle.record_codec.specs.Entry.{Entry};
ghost use Rattle.record_codec.specs.LaxProps.{with_all};
ghost use Rattle.record_codec.specs.Props.{value_of, with_prop, without, are_distinct};
ghost use Rattle.record_codec.specs.Layout.{layout, size, IsRecord};
ghost use Rattle.record_codec.specs.Parsed.{parsed};

/// Each record has one layout, and no layout begins another.
pub fn layouts_are_apart()
    ensures { (r s : Entry) (rest : List ℕ) → IsRecord r → IsRecord s → layout r ++ rest ≡ layout s → (r ≡ s) × (rest ≡ []) }
{}

/// What is written is read again, whatever follows it.
pub fn layouts_read_back()
    ensures { (r : Entry) (rest : List ℕ) → IsRecord r → parsed (layout r ++ rest) ≡ Some r }
{}

/// What is read is written as it stood.
pub fn records_write_back()
    ensures { (bytes : List ℕ) (r : Entry) → AreBytes bytes → parsed bytes ≡ Some r → IsRecord r
        × (bytes ≡ layout r ++ drop (size r) bytes) }
{}

/// Of properties that are put one after another, the last value of a name counts, and no name stands twice. A name that is dropped
/// has no value. What is put or dropped changes no other name's value.
pub fn last_properties_count()
    ensures last { (name : List ℕ) (ps : List (List ℕ × List ℕ)) → value_of name (with_all [] ps) ≡ value_of name (reverse ps) }
    ensures distinct { (ps : List (List ℕ × List ℕ)) → are_distinct (with_all [] ps) ≡ true }
    ensures put { (name value : List ℕ) (ps : List (List ℕ × List ℕ)) → value_of name (with_prop name value ps) ≡ Some value }
    ensures others { (name value other : List ℕ) (ps : List (List ℕ × List ℕ)) → other ≢ name
        → value_of other (with_prop name value ps) ≡ value_of other ps }
    ensures dropped { (name : List ℕ) (ps : List (List ℕ × List ℕ)) → value_of name (without name ps) ≡ None }
    ensures kept { (name other : List ℕ) (ps : List (List ℕ × List ℕ)) → other ≢ name
        → value_of other (without name ps) ≡ value_of other ps }
{}
