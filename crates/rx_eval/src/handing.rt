//! What an element begins and hands on (RDFa Core 1.1, section 7.5, steps 8, 10 and 13).
ghost use Rattle.std.specs.Prelude.{◌≡◌, [], ◌∷◌, ◌++◌, Some, OnOk, IfOk, nat_eq, length};
ghost use Rattle.rx_model.specs.Common.{same_node, node_seen};
ghost use Rattle.rx_lists.specs.Owners.{owned};
ghost use Rattle.rx_eval.specs.Handing.{begun_number, owner_added};

use rx_lists::{Lists, Owner};
use rx_terms::{NoMemory, Node};

/// Whether the two are one node.
#[inline(always)]
pub(crate) fn is_same(a: &Node, b: &Node) -> bool
    ensures { result ≡ same_node nat_eq (node_seen a.now) (node_seen b.now) }
{
    *a == *b
}

/// A new owner of lists with the subject, where that isn't the other node.
#[inline(never)]
pub(crate) fn begin(
    lists: &mut Lists,
    subject: &Node,
    other: &Node,
) -> Result<Option<Owner>, NoMemory>
    ensures lists { OnOk result (lists.new ≡ owner_added subject.now other.now lists.old) }
    ensures owner { IfOk result (λ owner. owner ≡ begun_number subject.now other.now (length lists.old)) }
{
    if is_same(subject, other) {
        return Ok(None);
    }
    Ok(Some(start(lists, subject)?))
}

/// A new owner of lists with the subject; apart from the way of most elements, which begin none.
#[inline(never)]
fn start(lists: &mut Lists, subject: &Node) -> Result<Owner, NoMemory>
    ensures lists { OnOk result (lists.new ≡ lists.old ++ Some (owned subject.now []) ∷ []) }
    ensures owner { IfOk result (λ owner. owner.0 ≡ length lists.old) }
{
    lists.start(subject.try_clone()?)
}
