//! What holds of the first fault of a row, and of values found by name. No call is made: the clauses speak of the
//! definitions.

ghost use Rattle.std.specs.Prelude.{◌≡◌, ◌↔◌, ◌++◌, List, ◌∷◌, ℕ, Some, None, true, false, All};
ghost use Rattle.remoting_frame.specs.Head.{IsInOrder};
ghost use Rattle.record_codec.specs.Props.{value_of};
ghost use Rattle.request_fields.specs.Kinds.{Kind, is_of};
ghost use Rattle.request_fields.specs.Faults.{Row, IsThere, IsOfKind, first_fault};
ghost use Rattle.request_fields.specs.declared.fault.RequestFault.TheVariants.{Missing, BadNumber};

/// An absent field is the first fault where each required one before it is there and of its kind.
pub fn the_first_absent_field_is_missing()
    ensures { (row : Row) (before after : List (List ℕ × Kind)) (name : List ℕ) (kind : Kind) (ext : List (List ℕ × List ℕ))
        → row.required ≡ before ++ (name, kind) ∷ after → All (IsThere ext) before → value_of name ext ≡ None
        → first_fault row ext ≡ Some (Missing (record { name = name })) }
{}

/// So is a required field that is not of its kind.
pub fn the_first_required_field_of_another_kind_is_bad()
    ensures { (row : Row) (before after : List (List ℕ × Kind)) (name : List ℕ) (kind : Kind) (ext : List (List ℕ
        × List ℕ)) (value : List ℕ)
        → row.required ≡ before ++ (name, kind) ∷ after → All (IsThere ext) before
        → value_of name ext ≡ Some value → is_of kind value ≡ false
        → first_fault row ext ≡ Some (BadNumber (record { name = name })) }
{}

/// An optional field that is not of its kind is the first fault where each required one is there and of its kind, and
/// each optional one before it is absent or of its kind.
pub fn the_first_optional_field_of_another_kind_is_bad()
    ensures { (row : Row) (before after : List (List ℕ × Kind)) (name : List ℕ) (kind : Kind) (ext : List (List ℕ
        × List ℕ)) (value : List ℕ)
        → row.optional ≡ before ++ (name, kind) ∷ after → All (IsThere ext) row.required → All (IsOfKind ext) before
        → value_of name ext ≡ Some value → is_of kind value ≡ false
        → first_fault row ext ≡ Some (BadNumber (record { name = name })) }
{}

/// There is no fault exactly where each required field is there, and each field that is there is of its kind.
pub fn fields_of_their_kinds_have_no_fault()
    ensures { (row : Row) (ext : List (List ℕ × List ℕ))
        → (first_fault row ext ≡ None) ↔ (All (IsThere ext) row.required × All (IsOfKind ext) row.optional) }
{}

/// Where names are distinct and in order, as a header's are, each pair's value is found by its name.
pub fn each_value_is_found_by_its_name()
    ensures { (before after : List (List ℕ × List ℕ)) (name value : List ℕ) → IsInOrder (before ++ (name, value) ∷ after)
        → value_of name (before ++ (name, value) ∷ after) ≡ Some value }
{}
