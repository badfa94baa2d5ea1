//! What is told an evaluator.
ghost use Rattle.std.specs.Prelude.{◌≡◌, ◌<◌, false, [], ◌∷◌, length, IfOk, OnOk};
ghost use Rattle.rx_rdfa.specs.Common.{chars, base_by, seen_slice};
ghost use Rattle.rx_curie.specs.Seen.{facts_seen};
ghost use Rattle.rx_eval.specs.Opened.{Opens, MayOpen};
ghost use Rattle.rx_eval.specs.Ending.{Closes};
ghost use Rattle.rx_walk.specs.Leading.{Led, Leads};
ghost use Rattle.rx_walk.specs.Stages.{MayBe, MayFollow, call_seen, queue_seen};

use crate::calls::Call;
use crate::origins::Origin;
use rx_base::base;
use rx_curie::Facts;
use rx_eval::Eval;
use rx_terms::{Iri, NoMemory};

/// Opens an element. Where no numbers are left for its blank nodes there is no memory for them either.
pub(crate) fn enter(eval: &mut Eval, facts: &Facts) -> Result<(), NoMemory>
    requires level { length eval.old.frames < eval.old.levels }
    requires root { eval.old.ended ≡ false }
    ensures { OnOk result (MayOpen eval.old (facts_seen facts.now) × Opens eval.old (facts_seen facts.now) eval.new) }
{
    if !eval.has_numbers(facts) {
        return Err(NoMemory);
    }
    eval.enter(facts)
}

/// Tells one call.
fn tell(eval: &mut Eval, call: &Call) -> Result<(), NoMemory>
    requires { MayFollow (call_seen call.now) eval.old }
    ensures { OnOk result (Leads (call_seen call.now) eval.old eval.new) }
{
    match call {
        Call::Enter(facts) => enter(eval, facts),
        Call::Text(text) => eval.text(text.as_str()),
        Call::Leave => eval.leave(),
    }
}

/// Tells these calls.
fn replay(eval: &mut Eval, queue: &[Call]) -> Result<(), NoMemory>
    requires { MayFollow (queue_seen queue.now) eval.old }
    ensures { OnOk result (Leads (queue_seen queue.now) eval.old eval.new) }
{
    for call in queue {
        tell(eval, call)?;
    }
    Ok(())
}

/// An evaluator with the page's base, which has been told these calls.
pub(crate) fn evaluated(
    origin: &Origin,
    href: Option<&str>,
    queue: &[Call],
) -> Result<Eval, NoMemory>
    requires { MayBe origin.now.levels (queue_seen queue.now) }
    ensures { IfOk result (λ eval. Led (base_by (seen_slice href.entry) origin.now.address) origin.now.levels (queue_seen queue.now) eval) }
{
    let base = base(origin.alloc, &origin.address, href)?;
    let mut eval = Eval::new(origin.alloc, base, origin.levels)?;
    match replay(&mut eval, queue) {
        Ok(()) => Ok(eval),
        Err(error) => {
            drop(eval);
            Err(error)
        }
    }
}
