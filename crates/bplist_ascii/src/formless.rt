//! Finds the first object that keeps a value from having a text.

ghost use Rattle.std.specs.Prelude.{◌≡◌, ◌↔◌, ◌<◌, ◌+◌, ℕ, Some, None, slice_index, IfOk, IfSome, IsTrue, MatchOption};
ghost use Rattle.bplist_ascii.specs.Prelude.{HonestlyChecked, Value, Content, Spells, content_at, IsSafeHead};
ghost use Rattle.bplist_ascii.specs.Prelude.{GivesRead, read_failed, OnlyReadsFile, AreMeasures, form_in};
ghost use Rattle.bplist_ascii.specs.Prelude.{NoForm, value_text, IsFormless, IsHeld, IsContainer, HasSameFormless};

use bplist_cert::Checked;
use bplist_cursor::{Form, Measures, Node, Unread, member_by_head, node_head};
use bplist_objects::{Head, Kind, ObjectNo};
use bplist_octets::Source;

fn has_no_form(measures: &Measures, n: ObjectNo) -> bool
    ensures { IsTrue result ↔ (form_in measures.now n.0 ≡ Some NoForm) }
{
    matches!(measures.form(n), Some(Form::NoForm))
}

fn first_without_text<S: Source>(
    checked: &mut Checked<S>,
    measures: &Measures,
    head: &Head,
) -> Result<Node, Unread>
    requires head { IsSafeHead checked.old.frame head.now }
    requires container { IsContainer head.now.kind }
    requires measured { HonestlyChecked checked.old
        (λ f F. AreMeasures f F checked.old.certificate.heights measures.now) }
    ensures reads { OnlyReadsFile (read_failed result) checked.old checked.new }
    ensures exact { HonestlyChecked checked.old (λ f F. (n : ℕ) (v : Value) → IsHeld checked.old n v → value_text v ≡ None
        → ((c : Content) → Spells f F n c → c ≡ content_at f F head.now)
        → GivesRead (λ node. HasSameFormless checked.old n v node.object.0 × (slice_index checked.old.certificate.heights node.object.0
        < slice_index checked.old.certificate.heights n)) result) }
{
    let _bounds = (checked.frame(), head.end);
    let mut i = 0u64;
    while let Some(node) = member_by_head(checked, head, i)? {
        if has_no_form(measures, node.object) {
            return Ok(node);
        }
        i += 1;
    }
    Err(Unread::Changed)
}

/// Returns `None` if the kind of the object itself has no form.
fn next_formless<S: Source>(
    checked: &mut Checked<S>,
    measures: &Measures,
    node: Node,
) -> Result<Option<Node>, Unread>
    requires measured { HonestlyChecked checked.old
        (λ f F. AreMeasures f F checked.old.certificate.heights measures.now) }
    ensures reads { OnlyReadsFile (read_failed result) checked.old checked.new }
    ensures exact { HonestlyChecked checked.old (λ f F. (v : Value) → IsHeld checked.old node.object.0 v → value_text v ≡ None
        → GivesRead (λ next. MatchOption next (IsFormless f F node.object.0 v node.object.0)
        (λ m. HasSameFormless checked.old node.object.0 v m.object.0)) result) }
    ensures lower { IfOk result (λ next. IfSome next (λ m. slice_index checked.old.certificate.heights m.object.0
        < slice_index checked.old.certificate.heights node.object.0)) }
{
    let head = node_head(checked, node)?;
    let _bounds = checked.frame();
    match head.kind {
        Kind::Array | Kind::Dict => {
            let part = first_without_text(checked, measures, &head)?;
            if checked.height(part.object) >= checked.height(node.object) {
                return Err(Unread::Changed);
            }
            Ok(Some(part))
        }
        _ => Ok(None),
    }
}

/// The order is that of writing. The value of the node must have no text.
pub(crate) fn first_formless<S: Source>(
    checked: &mut Checked<S>,
    measures: &Measures,
    node: Node,
) -> Result<ObjectNo, Unread>
    requires measured { HonestlyChecked checked.old
        (λ f F. AreMeasures f F checked.old.certificate.heights measures.now) }
    ensures reads { OnlyReadsFile (read_failed result) checked.old checked.new }
    ensures exact { HonestlyChecked checked.old (λ f F. (v : Value) → IsHeld checked.old node.object.0 v → value_text v ≡ None
        → GivesRead (λ m. IsFormless f F node.object.0 v m.0) result) }
{
    let mut part = node;
    while let Some(next) = next_formless(checked, measures, part)? {
        part = next;
    }
    Ok(part.object)
}
