//! Laws about the definitions in specs/. Each law is the contract of a function that does nothing.

ghost use Rattle.std.specs.Prelude.{◌≡◌, ◌⊎◌, ℕ, ◌<◌, List, length, slice_index, Option};
ghost use Rattle.bplist_octets.specs.declared.source.ReadFault.{ReadFault};
ghost use Rattle.bplist_cert.specs.Prelude.{OnlyReads, Fault as fault, Frame as frame, Head as head, Value, Content};
ghost use Rattle.bplist_cert.specs.Prelude.{Spells, Holds, Chain, Reach, Refs, Lists, IsCertificate, octets_of, refs};
ghost use Rattle.bplist_cert.specs.Prelude.{IsVouchedBy, IsValid, HoldsOneValue, SpellsText, IsSorted, IsAccepted};
ghost use Rattle.bplist_cert.specs.Prelude.{KeysAreTexts, KeysDiffer, AreInOrder, IsPairFault, CheckedFile, meaning_of};
ghost use Rattle.bplist_cert.specs.Prelude.{IsSound, IsFrame, AllByRecursion};

/// Certificates with the same bytes are the same.
pub fn one_certificate()
    ensures { (a b : Lists) → IsCertificate a → IsCertificate b → octets_of a ≡ octets_of b → a ≡ b }
{}

/// Under valid heights each vouched object holds exactly one value, and so does the file.
pub fn vouched_values()
    ensures object { (f : List ℕ) (F : frame) (heights : List ℕ) → IsValid f F heights → (n : ℕ) → IsVouchedBy heights n
        → (v : Value) × Holds f F n v × ((w : Value) → Holds f F n w → w ≡ v) }
    ensures file { (f : List ℕ) (F : frame) (heights : List ℕ) → IsValid f F heights → HoldsOneValue f }
{}

/// A file with valid heights is sound.
pub fn valid_is_sound()
    ensures { (f : List ℕ) (F : frame) (heights : List ℕ) → IsValid f F heights → IsSound f }
{}

/// A sound file holds exactly one value. Under its frame each reference in an object that the top reaches is the number
/// of an object, and the top reaches no circle.
pub fn sound_files()
    ensures one_value { (f : List ℕ) → IsSound f → HoldsOneValue f }
    ensures references { (f : List ℕ) (F : frame) → IsSound f → IsFrame f F → (n : ℕ) → Reach f F n
        → (c : Content) × Spells f F n c × AllByRecursion (λ m. m < F.objects) (refs c) }
    ensures no_circle { (f : List ℕ) (F : frame) → IsSound f → IsFrame f F → (n : ℕ) → Reach f F n → Chain f F n n → ⊥ }
{}

/// Under valid heights each object that the top reaches is vouched for and spells a content, its references are numbers
/// of objects, and no chain of references leads from it back to itself.
pub fn reached_objects()
    ensures vouched { (f : List ℕ) (F : frame) (heights : List ℕ) → IsValid f F heights → (n : ℕ) → Reach f F n → IsVouchedBy heights n }
    ensures content { (f : List ℕ) (F : frame) (heights : List ℕ) → IsValid f F heights → (n : ℕ) → Reach f F n
        → (c : Content) × Spells f F n c }
    ensures references { (f : List ℕ) (F : frame) (heights : List ℕ) → IsValid f F heights → (n m : ℕ) → Reach f F n → Refs f F n m
        → m < F.objects }
    ensures no_circle { (f : List ℕ) (F : frame) (heights : List ℕ) → IsValid f F heights → (n : ℕ) → Reach f F n → Chain f F n n → ⊥ }
{}

/// Under valid heights the references of a vouched object are vouched for and lower.
pub fn vouched_references()
    ensures { (f : List ℕ) (F : frame) (heights : List ℕ) → IsValid f F heights → (n m : ℕ) → IsVouchedBy heights n → Refs f F n m
        → IsVouchedBy heights m × (slice_index heights m < slice_index heights n) }
{}

/// The keys of a key list that has them in order differ.
pub fn ordered_keys_differ()
    ensures { (f : List ℕ) (F : frame) (h : head) (list : List ℕ) → KeysAreTexts f F h h.count → AreInOrder f F h list h.count
        → KeysDiffer f F h h.count }
{}

/// A dictionary with a repeated key has no sorted key list.
pub fn repeated_key_has_no_list()
    ensures { (f : List ℕ) (F : frame) (ks positions : List ℕ) (i j : ℕ) (us : List ℕ) → i < j → j < length ks
        → SpellsText f F (slice_index ks i) us → SpellsText f F (slice_index ks j) us → IsSorted f F ks positions → ⊥ }
{}

/// If a file and a certificate have a fault, the certificate is not one of the file.
pub fn pair_fault_excludes()
    ensures { (f : List ℕ) (F : frame) (certificate : Lists) (a : fault) → IsPairFault f certificate a → IsAccepted f F certificate → ⊥ }
{}

/// A file and a certificate have at most one first fault, with one rule, one object and one place.
pub fn one_pair_fault()
    ensures { (f : List ℕ) (certificate : Lists) (a b : fault) → IsPairFault f certificate a → IsPairFault f certificate b → a ≡ b }
{}

/// A file and a certificate have either a yes or a first fault. By `pair_fault_excludes` and `one_pair_fault` they have
/// exactly one of the two.
pub fn yes_or_fault()
    ensures { (f : List ℕ) (certificate : Lists) → ((F : frame) × IsAccepted f F certificate)
        ⊎ ((a : fault) × IsPairFault f certificate a) }
{}

/// A call that only reads a checked file keeps its frame and its certificate, and only reads its source.
pub fn checked_stays()
    ensures { (failed : Option ReadFault) (old new : CheckedFile) → OnlyReads failed (meaning_of old) (meaning_of new)
        → OnlyReads failed old.source new.source × (new.frame ≡ old.frame) × (new.certificate ≡ old.certificate) }
{}
