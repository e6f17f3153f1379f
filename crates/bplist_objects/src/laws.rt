//! Laws of the definitions. Each is the contract of a function that does nothing.

ghost use Rattle.bplist_objects.specs.declared.fault.Fault.{Fault as fault};
ghost use Rattle.bplist_objects.specs.declared.head.Kind.{Kind as kind};
ghost use Rattle.std.specs.Prelude.{◌≡◌, ◌↔◌, ◌⊎◌, ℕ, ◌+◌, ◌*◌, ◌^◌, ◌<◌, ◌≤◌, true, List, [], ◌∷◌, length};
ghost use Rattle.std.specs.Prelude.{slice_index, Option};
ghost use Rattle.bplist_objects.specs.Prelude.{Frame as frame, ObjectNo as object_no, Head as head, Rule as rule};
ghost use Rattle.bplist_objects.specs.Prelude.{Keeps, frame_rules, IsFrame, Value, boolean, array, value, no_values};
ghost use Rattle.bplist_objects.specs.Prelude.{dict, pair, no_pairs, Content, refs, content_at, HasShape, Spells};
ghost use Rattle.bplist_objects.specs.Prelude.{IsHeadOf, Holds, FileHolds, KeepsAll, nth_number, Breaks, IsFrameFault};
ghost use Rattle.bplist_objects.specs.Prelude.{part, off, IsFront, HasHead, KeepsByObject, BreaksByObject, shape_rules};
ghost use Rattle.bplist_objects.specs.Prelude.{object_rules, IsObjectFault, ref_count, IsSafe, IsSafeFrame, IsSafeHead};
ghost use Rattle.bplist_objects.specs.Prelude.{Chain, Founded, small_file};
ghost use Rattle.bplist_objects.specs.Value.{leaf};

/// The bytes of an object announce at most one head, and each front there announces one.
pub fn one_announced_head()
    ensures one { (f : List ℕ) (F : frame) (n : ℕ) (a b : head) → HasHead f F n a → HasHead f F n b → a ≡ b }
    ensures found { (f : List ℕ) (F : frame) (n : ℕ) (k : kind) (count : ℕ) (front : List ℕ) → IsFront k count front
        → part f (off f F n) (length front) ≡ front
        → (a : head) × HasHead f F n a × (a.kind ≡ k) × (a.count ≡ count) × (a.body ≡ off f F n + length front) }
{}

/// Marker and count give at most one head.
pub fn one_shape()
    ensures { (f : List ℕ) (F : frame) (n : ℕ) (a b : head) → HasShape f F n a → HasShape f F n b → a ≡ b }
{}

/// An object spells at most one content.
pub fn one_head()
    ensures { (f : List ℕ) (F : frame) (n : ℕ) (c d : Content) → Spells f F n c → Spells f F n d → c ≡ d }
{}

/// An object holds at most one value.
pub fn one_value()
    ensures { (f : List ℕ) (F : frame) (n : ℕ) (v w : Value) → Holds f F n v → Holds f F n w → v ≡ w }
{}

/// A file holds at most one value.
pub fn one_value_of_file()
    ensures { (f : List ℕ) (v w : Value) → FileHolds f v → FileHolds f w → v ≡ w }
{}

/// A file keeps rules 1 to 13 if and only if it has a frame.
pub fn keeps_iff_frame()
    ensures { (f : List ℕ) → KeepsAll (Keeps f) frame_rules ↔ ((F : frame) × IsFrame f F) }
{}

/// Marker and count announce a head and the object keeps rules 14 to 17 if and only if the object has that head. It
/// keeps rules 14 to 20 if and only if it also spells what the body of that head means.
pub fn kept_iff_head()
    ensures shape { (f : List ℕ) (F : frame) → IsFrame f F → (n : ℕ) → n < F.objects
        → (a : head) → (HasHead f F n a × KeepsAll (KeepsByObject f F n) shape_rules) ↔ HasShape f F n a }
    ensures whole { (f : List ℕ) (F : frame) → IsFrame f F → (n : ℕ) → n < F.objects
        → (a : head) → (HasHead f F n a × KeepsAll (KeepsByObject f F n) object_rules) ↔ IsHeadOf f F n a }
{}

/// An object keeps rules 14 to 20 if and only if it spells a content.
pub fn keeps_iff_spells()
    ensures { (f : List ℕ) (F : frame) → IsFrame f F → (n : ℕ) → n < F.objects
        → KeepsAll (KeepsByObject f F n) object_rules ↔ ((c : Content) × Spells f F n c) }
{}

/// None of rules 1 to 20 is both kept and broken.
pub fn kept_is_not_broken()
    ensures file { (f : List ℕ) (r : rule) (object : Option object_no) (place : ℕ) → Keeps f r → Breaks f r object place → ⊥ }
    ensures object { (f : List ℕ) (F : frame) (n : ℕ) (r : rule) (place : ℕ)
        → KeepsByObject f F n r → BreaksByObject f F n r place → ⊥ }
{}

/// A file has at most one first fault by rules 1 to 13, with its object and place. An object has at most one by its
/// rules.
pub fn one_first_fault()
    ensures file { (f : List ℕ) (a b : fault) → IsFrameFault f a → IsFrameFault f b → a ≡ b }
    ensures object { (f : List ℕ) (F : frame) (n : ℕ) (rules : List rule) (a b : fault)
        → IsObjectFault f F n rules a → IsObjectFault f F n rules b → a ≡ b }
{}

/// If one of rules 1 to 13 is broken, the file has no frame. If one of rules 14 to 17 is broken, the object has no
/// head. If one of rules 14 to 20 is broken, it spells nothing.
pub fn fault_excludes()
    ensures frame { (f : List ℕ) (F : frame) (a : fault) → IsFrameFault f a → IsFrame f F → ⊥ }
    ensures shape { (f : List ℕ) (F : frame) (n : ℕ) (a : fault) (h : head) → IsObjectFault f F n shape_rules a → HasShape f F n h → ⊥ }
    ensures content { (f : List ℕ) (F : frame) → IsFrame f F → (n : ℕ) → n < F.objects
        → (a : fault) (c : Content) → IsObjectFault f F n object_rules a → Spells f F n c → ⊥ }
{}

/// A file has a frame, or a first fault by rules 1 to 13. If there is a frame, an object spells a content, or has a
/// first fault by rules 14 to 20.
pub fn kept_or_fault()
    ensures file { (f : List ℕ) → ((F : frame) × IsFrame f F) ⊎ ((a : fault) × IsFrameFault f a) }
    ensures object { (f : List ℕ) (F : frame) → IsFrame f F → (n : ℕ) → n < F.objects
        → ((c : Content) × Spells f F n c) ⊎ ((a : fault) × IsObjectFault f F n object_rules a) }
{}

/// The references of a body are the numbers in it, one by one.
pub fn references_by_index()
    ensures count { (f : List ℕ) (F : frame) (h : head) → length (refs (content_at f F h)) ≡ ref_count h.kind h.count }
    ensures each { (f : List ℕ) (F : frame) (h : head) (i : ℕ) → i < ref_count h.kind h.count
        → slice_index (refs (content_at f F h)) i ≡ nth_number f h.body F.ref_size i }
{}

/// Frames and heads of a file are safe (`IsSafeFrame`, `IsSafeHead`). A safe head's references end before the table. In
/// a source of fewer than 2^64 bytes, it also has fewer than 2^64 references, and a count below 2^64.
pub fn references_fit()
    ensures frames { (f : List ℕ) (F : frame) → IsFrame f F → IsSafeFrame (length f) F }
    ensures heads { (f : List ℕ) (F : frame) (n : ℕ) (h : head) → HasShape f F n h → IsSafeHead F h }
    ensures places { (F : frame) (h : head) → IsSafeHead F h → (i : ℕ) → i < ref_count h.kind h.count
        → h.body + (i + 1) * F.ref_size ≤ F.table }
    ensures counts { (len : ℕ) (F : frame) (h : head) → IsSafe len F → len < 2 ^ 64 → IsSafeHead F h
        → (ref_count h.kind h.count < 2 ^ 64) × (h.count < 2 ^ 64) }
{}

/// No chain of references leads from a founded object to itself.
pub fn founded_has_no_circle()
    ensures { (f : List ℕ) (F : frame) (n : ℕ) → Founded f F n → Chain f F n n → ⊥ }
{}

/// Three small files hold their values: true, an array that has the same object twice, and a dictionary that maps `a`
/// to true.
pub fn rows_hold()
    ensures true_row { FileHolds (small_file (9 ∷ []) (8 ∷ [])) (leaf (boolean true)) }
    ensures array_row { FileHolds (small_file (162 ∷ 1 ∷ 1 ∷ 9 ∷ []) (8 ∷ 11 ∷ []))
        (array (value (leaf (boolean true)) (value (leaf (boolean true)) no_values))) }
    ensures dict_row { FileHolds (small_file (209 ∷ 1 ∷ 2 ∷ 81 ∷ 97 ∷ 9 ∷ []) (8 ∷ 11 ∷ 13 ∷ []))
        (dict (pair (97 ∷ []) (leaf (boolean true)) no_pairs)) }
{}
