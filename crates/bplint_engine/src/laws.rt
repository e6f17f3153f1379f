//! Laws about the definitions. Each law is the contract of a function with an empty body.

ghost use Rattle.std.specs.Prelude.{◌≡◌, ◌∷◌, ℕ, List, Ok};
ghost use Rattle.std.specs.List.{flat_map};
ghost use Rattle.hex.specs.Hex.{IsBytes};
ghost use Rattle.bplist_objects.specs.Frame.{IsFrame};
ghost use Rattle.bplist_objects.specs.declared.frame.Frame.{Frame as frame};
ghost use Rattle.bplint_lines.specs.declared.texts.Style.{Style};
ghost use Rattle.bplint_engine.specs.Ls.{named_line};
ghost use Rattle.bplint_engine.specs.Prelude.{Holds, IsLeaf, Value, listed};
ghost use Rattle.bplint_engine.specs.Told.{HasShownKeys};
ghost use Rattle.bplint_engine.specs.Tree.{joined_lines, named_members, tree_lines};
ghost use Rattle.bplint_lines.specs.declared.texts.Style.TheVariants.{Utf8};

/// A recursive listing consists of the lines of `ls` at each container. The value's own line comes first. Then each
/// line of `ls` follows, together with the lines of everything inside that member. For a leaf both listings are the
/// same.
pub fn tree_of_ls()
    ensures tree { (style : Style) (name : List ℕ) (w : Value) → tree_lines style name w
        ≡ named_line style name w ∷ flat_map (λ m. tree_lines style m.0 m.1) (named_members style name w) }
    ensures ls { (style : Style) (name : List ℕ) (w : Value) → (IsLeaf w → ⊥)
        → listed style name (Ok w) ≡ flat_map (λ m. named_line style m.0 m.1) (named_members style name w) }
    ensures leaf { (style : Style) (name : List ℕ) (w : Value) → IsLeaf w → listed style name (Ok w) ≡ joined_lines (tree_lines style name w) }
{}

/// Recursive listings in UTF-8 tell values apart. Let two files hold values in which all keys can be shown. If the
/// listings of both values under one name have the same lines, the values are equal: integers by value, texts by units.
pub fn listings_tell_values()
    ensures { (f g : List ℕ) (F G : frame) (m n : ℕ) (v w : Value) (name : List ℕ) → IsBytes f → IsBytes g → IsFrame f F
        → IsFrame g G → Holds f F m v → Holds g G n w → HasShownKeys v → HasShownKeys w
        → tree_lines Utf8 name v ≡ tree_lines Utf8 name w → v ≡ w }
{}
