//! Laws of leaves and of the order of units. Each is the contract of a function that does nothing.

ghost use Rattle.std.specs.Prelude.{◌≡◌, ◌↔◌, ℕ, ◌≤◌, List, ℤ};
ghost use Rattle.bplist_objects.specs.Prelude.{Less, Equal, ordering_reverse, part, Frame as frame, Head as head};
ghost use Rattle.bplist_objects.specs.Prelude.{integer, num_at, int, real, date, bytes, text, uid, content_at, Spells};
ghost use Rattle.bplist_objects.specs.Prelude.{IsTextKind, units_of, compare_units};
ghost use Rattle.bplist_objects.specs.declared.head.Kind.TheVariants as kinds;
ghost use Rattle.bplist_objects.specs.Heads.{leaf};

/// If a body means a leaf, the calls that read leaves return that leaf. The low 32 bits of a UID that an object spells
/// are the whole UID.
pub fn leaves_by_parts()
    ensures int { (f : List ℕ) (F : frame) (h : head) (i : ℤ) → leaf (int i) ≡ content_at f F h
        → (h.kind ≡ kinds.Int) × (i ≡ integer (part f h.body h.count)) }
    ensures real { (f : List ℕ) (F : frame) (h : head) (l : List ℕ) → leaf (real l) ≡ content_at f F h
        → (h.kind ≡ kinds.Real) × (l ≡ part f h.body h.count) }
    ensures date { (f : List ℕ) (F : frame) (h : head) (l : List ℕ) → leaf (date l) ≡ content_at f F h
        → (h.kind ≡ kinds.Date) × (l ≡ part f h.body h.count) }
    ensures bytes { (f : List ℕ) (F : frame) (h : head) (l : List ℕ) → leaf (bytes l) ≡ content_at f F h
        → (h.kind ≡ kinds.Bytes) × (l ≡ part f h.body h.count) }
    ensures uid { (f : List ℕ) (F : frame) (h : head) (x : ℕ) → leaf (uid x) ≡ content_at f F h
        → (h.kind ≡ kinds.Uid) × (x ≡ num_at f h.body h.count) }
    ensures uid_low { (f : List ℕ) (F : frame) (n x : ℕ) → Spells f F n (leaf (uid x)) → x ≤ 4294967295 }
    ensures text { (f : List ℕ) (F : frame) (h : head) (us : List ℕ) → leaf (text us) ≡ content_at f F h
        → IsTextKind h.kind × (us ≡ units_of f h) }
    ensures units { (f : List ℕ) (F : frame) (h : head) → IsTextKind h.kind → content_at f F h ≡ leaf (text (units_of f h)) }
{}

/// The order of units is total: only equal units compare as equal, swapping two lists reverses the result, and if one
/// list is less than a second and the second less than a third, the first is less than the third.
pub fn units_are_ordered()
    ensures equal { (us vs : List ℕ) → (compare_units us vs ≡ Equal) ↔ (us ≡ vs) }
    ensures reverse { (us vs : List ℕ) → compare_units vs us ≡ ordering_reverse (compare_units us vs) }
    ensures less { (us vs ws : List ℕ) → compare_units us vs ≡ Less → compare_units vs ws ≡ Less → compare_units us ws ≡ Less }
{}
