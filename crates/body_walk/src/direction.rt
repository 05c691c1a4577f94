// The walk over the image's values in their coding order (5.4.2), once for both directions.
ghost use Rattle.std.specs.Prelude.{◌≡◌, List, MatchResult};
ghost use Rattle.body.specs.Order.{order};
ghost use Rattle.body.specs.Order as coding;
ghost use Rattle.body_value.specs.declared.plan.Plan as plans;
ghost use Rattle.body_value.specs.Plan.{Inside};
ghost use Rattle.body_walk.specs.Rows.{one_place};
ghost use Rattle.body_walk.specs.Direction.{State, state_at, WalkLaws};

use super::rows::{row_at, row_count};
use body_value::Place;
use body_value::plan::Plan;

// What a direction does at a place.
pub trait Direction {
    // Its position in the file.
    type At;

    // What it fills: bytes or samples.
    type Item;

    // Why it stops.
    type Stop;

    ghost plan: { Self → plans.Plan };

    // The places may be walked.
    ghost ready: { Self → State Self.Item Self.At → List coding.Place → Type 0 };

    // They were, from one state to another.
    ghost part: { Self → State Self.Item Self.At → List coding.Place → State Self.Item Self.At → Type 0 };

    // The walk stops within them.
    ghost stops: { Self → State Self.Item Self.At → List coding.Place → Self.Stop → Type 0 };

    // The value at a place.
    fn value(
        &self,
        at: Self::At,
        scratch: &mut [i32],
        filled: &mut [Self::Item],
        place: Place,
    ) -> Result<Self::At, Self::Stop>
        requires { ready self.now (state_at scratch.old filled.old at) (one_place place) × Inside (plan self.now) place }
        ensures { MatchResult result
            (λ next. part self.now (state_at scratch.old filled.old at) (one_place place) (state_at scratch.new filled.new next))
            (λ why. stops self.now (state_at scratch.old filled.old at) (one_place place) why) };

    // Parts one after the other are the walk of their places together; where one stops, all stop.
    ghost laws: { (d : Self) → WalkLaws (ready d) (part d) (stops d) };
}

// Row after row, in each column after column, in each band after band.
pub fn walk<D: Direction>(
    d: &D,
    p: Plan,
    at: D::At,
    scratch: &mut [i32],
    filled: &mut [D::Item],
) -> Result<D::At, D::Stop>
    requires plan { D.plan d.now ≡ p }
    requires ready { D.ready d.now (state_at scratch.old filled.old at) (order p.settings.image) }
    ensures { MatchResult result
        (λ end. D.part d.now (state_at scratch.old filled.old at) (order p.settings.image) (state_at scratch.new filled.new end))
        (λ why. D.stops d.now (state_at scratch.old filled.old at) (order p.settings.image) why) }
{
    let count = row_count(p);
    let nx = p.nx;
    let mut next = at;
    for n in 0..count {
        let row = row_at(p, n);
        for x in 0..nx {
            let t = row.y * nx + x;
            for z in row.from..row.to {
                let place = Place { z, t, x };
                next = d.value(next, &mut *scratch, &mut *filled, place)?;
            }
        }
    }
    Ok(next)
}
