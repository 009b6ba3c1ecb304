//! What all questions on a pair share.

ghost use Rattle.std.specs.Prelude.{◌≡◌, IfOk};
ghost use Rattle.pair_questions.specs.Questions.{CanBeAsked};
ghost use Rattle.pair_questions.specs.Shapes.{IsShapeOf};
ghost use Rattle.pair_questions.specs.Subjects.{IsSubject};

use crate::encodable::Encodable;
use pair_costs::{need, widest_of};
use points::{Bounds, Layout, Shape};
use std::alloc::Global;
use support::{NoMemory, Sequence};
use verdicts::RunPair;

/// A pair within bounds, what its points look like, both functions as they are encoded, and how many
/// words a tape of the source has.
pub struct Subject<'p, 'm> {
    pub pair: &'p RunPair<'m>,
    pub bounds: &'p Bounds,
    pub(crate) shape: Shape,
    pub(crate) source: Encodable<'m>,
    pub(crate) target: Encodable<'m>,
    pub(crate) need: u64,
}

// Dropped by one call: a derived drop is written out at each return.
impl<'p, 'm> Drop for Subject<'p, 'm> {
    fn drop(self) {
        let Subject {
            pair,
            bounds,
            shape,
            source,
            target,
            need,
        } = self;
    }
}

/// What the points of a pair look like.
fn shape_of(alloc: Global, pair: &RunPair, bounds: &Bounds) -> Result<Shape, NoMemory>
    requires { CanBeAsked pair.now bounds.now }
    ensures { IfOk result (IsShapeOf pair.now bounds.now) }
{
    let target = pair.target();
    Ok(Shape {
        parameters: Sequence::from_vec(target.parameters.as_slice().to_vec(alloc)?),
        layout: Layout {
            blocks: bounds.blocks,
            bytes: bounds.bytes,
        },
        words: need(target, bounds.turns)?,
        word_width: widest_of(target),
    })
}

impl<'p, 'm> Subject<'p, 'm> {
    /// What the questions on the pair within the bounds share.
    pub fn new(
        alloc: Global,
        pair: &'p RunPair<'m>,
        bounds: &'p Bounds,
    ) -> Result<Subject<'p, 'm>, NoMemory>
        requires { CanBeAsked pair.now bounds.now }
        ensures subject { IfOk result IsSubject }
        ensures pair { IfOk result (λ subject. subject.pair.now ≡ pair.now) }
        ensures bounds { IfOk result (λ subject. subject.bounds.now ≡ bounds.now) }
    {
        let shape = shape_of(alloc, pair, bounds)?;
        let source = Encodable::new(alloc, pair.source(), bounds.turns)?;
        let target = Encodable::new(alloc, pair.target(), bounds.turns)?;
        let need = need(source.of, bounds.turns)?;
        Ok(Subject {
            pair,
            bounds,
            shape,
            source,
            target,
            need,
        })
    }
}
