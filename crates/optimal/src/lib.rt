// That the labelling solves the problem: one small function for each theorem.
#![tactic(auto)]

ghost use Rattle.optimal.specs.Theorems.{Exact, SettlesRight, FinishesBest, StopsBelow, NoneJoins, Suffices, Counts};

use network::Cost;

// No sum inside a labelling is ever none.
pub fn exact<K: Cost>()
    ensures { Exact K.kind }
{}

// Each settled label has the Dreyfus–Wagner cost, the least cost of joining.
pub fn settles_right<K: Cost>()
    ensures { SettlesRight K.kind }
{}

// A labelling that finished has found a plan that is best, and its ways back draw it.
pub fn finishes_best<K: Cost>()
    ensures { FinishesBest K.kind }
{}

// The floor of a labelling that was stopped bounds whatever joins the outlets.
pub fn stops_below<K: Cost>()
    ensures { StopsBelow K.kind }
{}

// Where none waits at the end, nothing joins the outlets.
pub fn none_joins<K: Cost>()
    ensures { NoneJoins K.kind }
{}

// With enough turns a labelling is never stopped.
pub fn suffices<K: Cost>()
    ensures { Suffices K.kind }
{}

// There are as many turns as settled labels.
pub fn counts<K: Cost>()
    ensures { Counts K.kind }
{}
