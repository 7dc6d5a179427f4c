// The mathematics of the planner: one small function for each theorem.
#![tactic(auto)]

ghost use Rattle.theory.specs.Theorems.{Decomposes, Drawn, Gathers, DerivesSets, FrontBounds, Settles, TurnKeeps, Begins, Best, Floor, Hopeless, SettledLeast, IsDreyfusWagner, Light};

use network::Cost;

// What joins a junction with outlets costs at least some derivation.
pub fn decomposes<K: Cost>()
    ensures { Decomposes K.kind }
{}

// The runs of a derivation, each taken once, join and cost no more.
pub fn drawn<K: Cost>()
    ensures { Drawn K.kind }
{}

// The runs of a derivation can be taken once each.
pub fn gathers<K: Cost>()
    ensures { Gathers K.kind }
{}

// A derivation is of a set of outlets that is not empty.
pub fn derives_sets<K: Cost>()
    ensures { DerivesSets K.kind }
{}

// A derivation that is not settled is no cheaper than some waiting label.
pub fn front_bounds<K: Cost>()
    ensures { FrontBounds K.kind }
{}

// The waiting label that is least, with its bound, is as cheap as can be.
pub fn settles<K: Cost>()
    ensures { Settles K.kind }
{}

// A turn at the least waiting label keeps what holds between turns.
pub fn turn_keeps<K: Cost>()
    ensures { TurnKeeps K.kind }
{}

// A search that starts with the outlets holds what it must, and each label has its derivation.
pub fn begins<K: Cost>()
    ensures { Begins K.kind }
{}

// Where the root with all others is settled, its cost is the least, and its runs cost just that.
pub fn best<K: Cost>()
    ensures { Best K.kind }
{}

// While the root with all others is not settled, the least key that waits bounds every joining set.
pub fn floor<K: Cost>()
    ensures { Floor K.kind }
{}

// Where nothing waits and the root with all others is not settled, nothing joins the outlets.
pub fn hopeless<K: Cost>()
    ensures { Hopeless K.kind }
{}

// A settled cost is the least of any derivation, and the least cost of joining.
pub fn settled_least<K: Cost>()
    ensures { SettledLeast K.kind }
{}

// The least cost of a derivation is the Dreyfus–Wagner cost.
pub fn is_dreyfus_wagner<K: Cost>()
    ensures { IsDreyfusWagner K.kind }
{}

// Where runs have the costs that the questions let in, sets of runs and least costs are light.
pub fn light<K: Cost>()
    ensures { Light K.kind }
{}
