// Orders as evidence.
ghost use Rattle.std.specs.Prelude.{◌≡◌, true};
ghost use Rattle.models.specs.Tells.{Tells};
ghost use Rattle.semantics.specs.Contents.{places_of, initial_of};
ghost use Rattle.semantics.specs.Events.{events_of};
ghost use Rattle.semantics.specs.HappensBefore.{Allowed};
ghost use Rattle.semantics.specs.Orders.{Fulfils};
ghost use Rattle.semantics.specs.Program.{Complete};

use models::Model;
use semantics::Test;

// Said in full, as `Test::fulfils` says it, so that the promise is read where it is given.
// Whether an order shows that the outcome of a complete test is allowed under a model: it does if it fulfils the
// outcome, and then there is an admitted choice without a cycle.
pub fn witnesses<M: Model>(test: &Test, model: &M, order: &[usize]) -> bool
    ensures told { Tells result (Complete (places_of test.now) × Fulfils (events_of (places_of test.now) (initial_of test.now) (M.Model.meaning model.now)) order.now) }
    ensures allowed { result ≡ true → Allowed (events_of (places_of test.now) (initial_of test.now) (M.Model.meaning model.now)) }
{
    test.fulfils(model, order)
}
