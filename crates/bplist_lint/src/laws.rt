//! Laws about the definitions in specs/. Each law is the contract of a function that does nothing.

ghost use Rattle.bplist_objects.specs.declared.fault.Fault.{Fault as fault};
ghost use Rattle.std.specs.Prelude.{◌≡◌, ◌↔◌, ◌⊎◌, ℕ, ◌≤◌, List, length, slice_index};
ghost use Rattle.bplist_lint.specs.Prelude.{Frame as frame, Value, IsFrame, Content, Spells, FileHolds, Reach, Founded};
ghost use Rattle.bplist_lint.specs.Prelude.{refs_at, IsValid, Reaches, Ends, AreLeast, IsCircleOf, StandLeast};
ghost use Rattle.bplist_lint.specs.Prelude.{AreLeastHeights, IsWellFormed, KeepReached, key_rules, IsCircle};
ghost use Rattle.bplist_lint.specs.Prelude.{IsFileFault, IsFileCircle, reach_rules};

/// A file has valid heights exactly if it is well formed.
pub fn valid_iff_well_formed()
    ensures { (f : List ℕ) (F : frame) → ((heights : List ℕ) × IsValid f F heights) ↔ IsWellFormed f F }
{}

/// A file holds a value exactly if it is well formed.
pub fn holds_iff_well_formed()
    ensures { (f : List ℕ) → ((v : Value) × FileHolds f v) ↔ ((F : frame) × IsWellFormed f F) }
{}

/// A file is well formed exactly if its reached objects keep rules 14 to 22 and 31 and its top is founded.
pub fn well_formed_iff_kept()
    ensures { (f : List ℕ) (F : frame) → IsWellFormed f F
        ↔ (IsFrame f F × KeepReached f F reach_rules F.objects × KeepReached f F (key_rules None) F.objects × Founded f F F.top.0) }
{}

/// In a well formed file the least heights are valid and there is one list of them. A table that gives each reached
/// object a height 1 above those of its references agrees with that list.
pub fn least_heights_are_valid()
    ensures valid { (f : List ℕ) (F : frame) (heights : List ℕ) → IsWellFormed f F → AreLeastHeights f F heights → IsValid f F heights }
    ensures one { (f : List ℕ) (F : frame) (heights others : List ℕ) → IsWellFormed f F → AreLeastHeights f F heights
        → AreLeastHeights f F others → heights ≡ others }
    ensures reached { (f : List ℕ) (F : frame) (heights others : List ℕ) → IsWellFormed f F → StandLeast f F heights
        → StandLeast f F others → (n : ℕ) → Reach f F n → slice_index heights n ≡ slice_index others n }
{}

/// An object that valid heights reach is founded, and its height is at least the least height.
pub fn least_is_least()
    ensures { (f : List ℕ) (F : frame) (heights least : List ℕ) → IsValid f F heights → StandLeast f F least
        → (n : ℕ) → Reach f F n → Founded f F n × (slice_index least n ≤ slice_index heights n) }
{}

/// A file has at most one first fault, with one rule, one object and one place, or with one circle.
pub fn one_file_fault()
    ensures fault { (f : List ℕ) (a b : fault) → IsFileFault f a → IsFileFault f b → a ≡ b }
    ensures circle { (f : List ℕ) (a b : List ℕ) → IsFileCircle f a → IsFileCircle f b → a ≡ b }
    ensures either { (f : List ℕ) (a : fault) (circle : List ℕ) → IsFileFault f a → IsFileCircle f circle → ⊥ }
{}

/// A file with a first fault holds no value.
pub fn fault_has_no_value()
    ensures fault { (f : List ℕ) (a : fault) (v : Value) → IsFileFault f a → FileHolds f v → ⊥ }
    ensures circle { (f : List ℕ) (circle : List ℕ) (v : Value) → IsFileCircle f circle → FileHolds f v → ⊥ }
{}

/// A file with a first fault has no valid heights, so each certificate of it is refused.
pub fn fault_is_final()
    ensures fault { (f : List ℕ) (F : frame) (a : fault) (heights : List ℕ) → IsFileFault f a → IsValid f F heights → ⊥ }
    ensures circle { (f : List ℕ) (F : frame) (circle heights : List ℕ) → IsFileCircle f circle → IsValid f F heights → ⊥ }
{}

/// Each file holds a value, or its first fault is a broken rule or a circle. By `one_file_fault` and
/// `fault_has_no_value` exactly one of the three is the case.
pub fn value_or_fault()
    ensures { (f : List ℕ) → ((v : Value) × FileHolds f v) ⊎ (((a : fault) × IsFileFault f a)
        ⊎ ((circle : List ℕ) × IsFileCircle f circle)) }
{}

/// If the reached objects keep rules 14 to 20 and 31, either the top is founded, or the walk from it along the first
/// references that are not founded comes to a circle. Never both.
pub fn circle_iff_not_founded()
    ensures either { (f : List ℕ) (F : frame) → IsFrame f F → KeepReached f F reach_rules F.objects
        → Founded f F F.top.0 ⊎ ((circle : List ℕ) × IsCircle f F circle) }
    ensures never { (f : List ℕ) (F : frame) (circle : List ℕ) → IsCircle f F circle → Founded f F F.top.0 → ⊥ }
{}

/// What the graph of a file's references says agrees with what the objects spell by the definitions.
pub fn graph_is_of_file()
    ensures reach { (f : List ℕ) (F : frame) (n : ℕ) → Reaches (refs_at f F) F.top.0 n ↔ Reach f F n }
    ensures founded { (f : List ℕ) (F : frame) → ((n : ℕ) → Reach f F n → (c : Content) × Spells f F n c)
        → (n : ℕ) → Reach f F n → Ends (refs_at f F) n ↔ Founded f F n }
    ensures circle { (f : List ℕ) (F : frame) → ((n : ℕ) → Reach f F n → (c : Content) × Spells f F n c)
        → (circle : List ℕ) → IsCircleOf (refs_at f F) F.top.0 circle ↔ IsCircle f F circle }
    ensures least { (f : List ℕ) (F : frame) → ((n : ℕ) → Reach f F n → (c : Content) × Spells f F n c)
        → (heights : List ℕ) → length heights ≡ F.objects → AreLeast (refs_at f F) F.top.0 heights → Founded f F F.top.0
        → AreLeastHeights f F heights }
{}
