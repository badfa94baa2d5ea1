//! The triples of an element's start (RDFa Core 1.1, section 7.5, steps 2, 7, 9, 11 and 12).
ghost use Rattle.std.specs.Prelude.{◌≡◌, ◌≤◌, ◌+◌, ◌∷◌, [], OnOk, length, map, filter_map};
ghost use Rattle.rx_model.specs.Common.{node_seen, term_seen, spo};
ghost use Rattle.rx_lists.specs.Appends.{Appends};
ghost use Rattle.rx_eval.specs.Triples.{GainsFirst, completed_by};

use crate::contexts::IncompleteTriple;
use crate::values::node_term;
use rx_terms::{Iri, Iris, NoMemory, Node, Term, Triple, TripleList};

/// Adds the triples of the subject with the object, one for each predicate. The last one takes the object itself.
pub fn push_each(
    out: &mut TripleList,
    subject: &Node,
    predicates: &Iris,
    object: Term,
) -> Result<(), NoMemory>
    ensures { OnOk result (Appends out.old out.new (map (λ p. spo (node_seen subject.now) p (term_seen object)) predicates.now)) }
{
    let Some(last) = predicates.len().checked_sub(1) else {
        return Ok(());
    };
    if last == 0 {
        return push(out, subject, predicates.at(last), object);
    }
    push_several(out, subject, predicates, last, object)
}

/// The same for several predicates, the last one at a place; apart from the way of one, where the object isn't lent.
#[inline(never)]
fn push_several(
    out: &mut TripleList,
    subject: &Node,
    predicates: &Iris,
    last: usize,
    object: Term,
) -> Result<(), NoMemory>
    requires { last + 1 ≡ length predicates.now }
    ensures { OnOk result (Appends out.old out.new (map (λ p. spo (node_seen subject.now) p (term_seen object)) predicates.now)) }
{
    push_first(out, subject, predicates, last, &object)?;
    push(out, subject, predicates.at(last), object)
}

/// The same for the first predicates alone.
fn push_first(
    out: &mut TripleList,
    subject: &Node,
    predicates: &Iris,
    count: usize,
    object: &Term,
) -> Result<(), NoMemory>
    requires { count ≤ length predicates.now }
    ensures { OnOk result (GainsFirst count out.old out.new (λ p. spo (node_seen subject.now) p (term_seen object.now)) predicates.now) }
{
    for i in 0..count {
        push_copy(out, subject, predicates.at(i), object)?;
    }
    Ok(())
}

#[inline(always)]
fn push(out: &mut TripleList, subject: &Node, predicate: &Iri, object: Term) -> Result<(), NoMemory>
    ensures { OnOk result (Appends out.old out.new (spo (node_seen subject.now) predicate.now (term_seen object) ∷ [])) }
{
    out.push(Triple {
        subject: subject.try_clone()?,
        predicate: predicate.try_clone()?,
        object,
    })
}

fn push_copy(
    out: &mut TripleList,
    subject: &Node,
    predicate: &Iri,
    object: &Term,
) -> Result<(), NoMemory>
    ensures { OnOk result (Appends out.old out.new (spo (node_seen subject.now) predicate.now (term_seen object.now) ∷ [])) }
{
    push(out, subject, predicate, object.try_clone()?)
}

/// Adds the triples that wait, when an element with a subject completes them; lists that wait get an item elsewhere.
pub(crate) fn push_completed(
    out: &mut TripleList,
    waiting: &[IncompleteTriple],
    above: &Node,
    subject: &Node,
) -> Result<(), NoMemory>
    ensures { OnOk result (Appends out.old out.new (filter_map (completed_by (node_seen above.now) (node_seen subject.now)) waiting.now)) }
{
    for one in waiting {
        match one {
            IncompleteTriple::Forward(predicate) => push(
                out,
                above,
                predicate,
                node_term(subject)?,
            )?,
            IncompleteTriple::Reverse(predicate) => push(
                out,
                subject,
                predicate,
                node_term(above)?,
            )?,
            IncompleteTriple::InList(_owner, _predicate) => {}
        }
    }
    Ok(())
}
