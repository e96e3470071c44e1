// Theorems on the law, each on a contract of its own.
ghost use Rattle.history.specs.Model.{ModelLawful};
ghost use Rattle.history.specs.Determined.{Determined};
ghost use Rattle.history.specs.Wrong.{RightRun, WrongStores};

use kind::Kind;

// Whatever the calls, the model that prunes has the law.
pub fn model_is_lawful<K: Kind>()
    ensures { ModelLawful K.ops }
{}

// The law decides what is said, but for rows that tell the same, the order in Held and the times in Kept; and the history after it.
pub fn outcomes_are_determined<K: Kind>()
    ensures { Determined K.ops }
{}

// Stores that go wrong in the usual ways are excluded, and a run that goes right is not.
pub fn wrong_stores_fall()
    ensures right { RightRun }
    ensures wrong { WrongStores }
{}
