//! Laws about the definitions in specs/. Each law is the contract of a function that does nothing. The bodies of this
//! crate rest on those that are private to it: about tables by object, and about the text of a value in two parts.

ghost use Rattle.std.specs.Prelude.{◌≡◌, ◌≤◌, ◌↔◌, ◌+◌, ◌*◌, length, ℕ, ◌<◌, List, [], ◌∷◌, Ok, Err, Option, Some, None, Contains, slice_index};
ghost use Rattle.bplist_cursor.specs.Prelude.{Frame as frame, IsFrame, Value, Content, Spells, refs, Holds, Refs};
ghost use Rattle.bplist_cursor.specs.Prelude.{IsNoPath, IsPathOf, stepped, IsTaken, LeadTo, HasTextKeys, why_of, cap};
ghost use Rattle.bplist_cursor.specs.Prelude.{nodes, Measured, value_text, IsFormed, plain, IsFormless, Formed};
ghost use Rattle.bplist_cursor.specs.Prelude.{form_at, form_of, Form, array, set, dict, named, member_reference, node_of};
ghost use Rattle.bplist_cursor.specs.Prelude.{Keyed, path_bytes, OnlyReadsFile};
ghost use Rattle.bplist_octets.specs.declared.source.ReadFault.{ReadFault as read_fault};
ghost use Rattle.bplist_cert.specs.CheckedFile.{CheckedFile};
ghost use Rattle.bplist_objects.specs.Value.{Pairs, keys, dict as dict_value};

/// A path text spells exactly one list of steps.
pub fn one_path()
    ensures { (text : List ℕ) (a b : List (List ℕ)) → IsPathOf text a → IsPathOf text b → a ≡ b }
{}

/// A text that is not a path text is wrong at exactly one byte.
pub fn one_place()
    ensures { (text : List ℕ) (p q : ℕ) → IsNoPath text p → IsNoPath text q → p ≡ q }
{}

/// A step of a value can be taken exactly if it takes a reference of the object that holds the value. The object of
/// that reference holds what the step leads to.
pub fn steps_follow_references()
    ensures taken { (f : List ℕ) (F : frame) → IsFrame f F → (n : ℕ) (v : Value) (step : List ℕ) (m : ℕ) → Holds f F n v
        → LeadTo f F n (step ∷ []) m → (w : Value) × (stepped v step ≡ Ok w) × Holds f F m w }
    ensures goes_on { (f : List ℕ) (F : frame) (n : ℕ) (v : Value) (step : List ℕ) (w : Value) → Holds f F n v
        → stepped v step ≡ Ok w → (m : ℕ) × LeadTo f F n (step ∷ []) m × Holds f F m w }
{}

/// The reference for each member: that for member `i` of an array or a set is its reference `i`. In a dictionary, the
/// one for member `2 * j` is that to key `j`, and the one for member `2 * j + 1` that to value `j`. From the number of
/// references on there is none.
pub fn members_by_number()
    ensures array { (ms : List ℕ) (i : ℕ) → i < length ms
        → named (member_reference (array ms) i) ≡ Some (node_of (slice_index ms i)) }
    ensures set { (ms : List ℕ) (i : ℕ) → i < length ms
        → named (member_reference (set ms) i) ≡ Some (node_of (slice_index ms i)) }
    ensures key { (f : List ℕ) (F : frame) (n : ℕ) (ks ms : List ℕ) (j : ℕ) → Spells f F n (dict ks ms) → j < length ks
        → named (member_reference (dict ks ms) (2 * j)) ≡ Some (node_of (slice_index ks j)) }
    ensures value { (f : List ℕ) (F : frame) (n : ℕ) (ks ms : List ℕ) (j : ℕ) → Spells f F n (dict ks ms) → j < length ms
        → named (member_reference (dict ks ms) (2 * j + 1)) ≡ Some (node_of (slice_index ms j)) }
    ensures none { (f : List ℕ) (F : frame) (n i : ℕ) (content : Content) → Spells f F n content → length (refs content) ≤ i
        → named (member_reference content i) ≡ None }
{}

/// If a source counts no failed read after a call, the call returned no read fault. A slice never counts one.
pub fn none_failed()
    ensures { (fault : Option read_fault) (old new : CheckedFile) → OnlyReadsFile fault old new → new.source.failures ≡ 0
        → fault ≡ None }
{}

/// With key lists, to look up a key of 4 units in a dictionary of 1,000 pairs asks for at most 476 bytes.
pub fn one_key_of_a_thousand()
    ensures { (keyed : Keyed) (ps : Pairs) (step : List ℕ) → length (keys ps) ≡ 1000 → length step ≡ 4
        → path_bytes (Some keyed) (dict_value ps) (step ∷ []) ≡ 476 }
{}

/// An object that holds a value spells a content. If a step takes none of its references, the step can't be taken; if
/// it takes one, that is a reference of the object.
pub(crate) fn references_decide_steps()
    ensures content { (f : List ℕ) (F : frame) (n : ℕ) (v : Value) → Holds f F n v → (c : Content) × Spells f F n c × HasTextKeys f F c }
    ensures not_taken { (f : List ℕ) (F : frame) (n : ℕ) (v : Value) (step : List ℕ) (c : Content) → Holds f F n v → Spells f F n c
        → ((m : ℕ) → IsTaken f F c step m → ⊥) → stepped v step ≡ Err (why_of c) }
    ensures reference { (f : List ℕ) (F : frame) (n : ℕ) (v : Value) (step : List ℕ) (m : ℕ) (c : Content) → Holds f F n v → Spells f F n c
        → IsTaken f F c step m → Contains (refs c) m × (m < F.objects) }
{}

/// Let vouched objects refer to vouched ones only, and let a table give each of them one more than the sum of its
/// references' entries. Then the table holds the number of nodes of each value's tree.
pub(crate) fn measured_is_nodes()
    ensures { (f : List ℕ) (F : frame) (H M : List ℕ) → ((n : ℕ) → 1 ≤ slice_index H n → Measured f F M n)
        → ((n m : ℕ) → 1 ≤ slice_index H n → Refs f F n m → 1 ≤ slice_index H m)
        → (n : ℕ) (v : Value) → 1 ≤ slice_index H n → Holds f F n v → slice_index M n ≡ cap (nodes v) }
{}

/// A value has a text exactly if it is formed, and then the text is its plain text.
pub(crate) fn text_in_parts()
    ensures { (v : Value) (t : List ℕ) → (value_text v ≡ Some t) ↔ (IsFormed v × (plain v ≡ t)) }
{}

/// If an object holds a value without a text, exactly one object is the first whose kind has no form.
pub fn one_formless()
    ensures found { (f : List ℕ) (F : frame) (n : ℕ) (v : Value) → Holds f F n v → value_text v ≡ None → (x : ℕ) × IsFormless f F n v x }
    ensures only { (f : List ℕ) (F : frame) (n : ℕ) (v : Value) (x : ℕ) → IsFormless f F n v x → value_text v ≡ None }
    ensures one { (f : List ℕ) (F : frame) (n : ℕ) (v : Value) (x y : ℕ) → IsFormless f F n v x → IsFormless f F n v y → x ≡ y }
{}

/// Let vouched objects refer to vouched ones only, and let a table give each of them the form that its references'
/// forms make. Then the table holds the form of each value.
pub(crate) fn formed_is_form()
    ensures { (f : List ℕ) (F : frame) (H : List ℕ) (T : List Form) → ((n : ℕ) → 1 ≤ slice_index H n → Formed f F T n)
        → ((n m : ℕ) → 1 ≤ slice_index H n → Refs f F n m → 1 ≤ slice_index H m)
        → (n : ℕ) (v : Value) → 1 ≤ slice_index H n → Holds f F n v → form_at T n ≡ form_of v }
{}
