// The call that a line makes on its district.
ghost use Rattle.std.specs.Prelude.{◌≡◌};
ghost use Rattle.requests.specs.Attempts.{up_to, spanned, allowance_of, attempt_of};

use crate::figured::Figured;
use crate::tools::Tools;
use commands::{Call, EstimatorChoice, PlanWords};
use network::Cost;
use replay::{Allowance, Call as Attempt};

// The places for distances that an estimator takes for each junction.
const PLACES: u64 = 12;

// A number that a line says, up to `most`, or `most`.
fn up_to(said: Option<u64>, most: u64) -> u64
    ensures { result ≡ up_to said most }
{
    said.unwrap_or(most).min(most)
}

// For how many junctions an estimator may be prepared, by the places for distances that a line brings.
fn spanned(estimator: EstimatorChoice, places: Option<u64>) -> u64
    ensures { result ≡ spanned estimator places }
{
    match estimator {
        EstimatorChoice::Silent => u64::MAX,
        EstimatorChoice::Farthest | EstimatorChoice::Larger => up_to(places, u64::MAX) / PLACES,
    }
}

fn allowance_of(said: PlanWords) -> Allowance
    ensures { result ≡ allowance_of said }
{
    Allowance {
        limit: up_to(said.limit, u32::MAX as u64) as u32,
        labels: up_to(said.labels, u64::MAX) as usize,
        codes: up_to(said.room, u64::MAX) as usize,
        junctions: spanned(Tools::named(said).estimator, said.places) as usize,
    }
}

// None for what is no call on a district, or says a cost of another kind.
pub fn attempt_of<K: Cost + Figured>(call: Call) -> Option<Attempt<K>>
    ensures { result ≡ attempt_of K.Figured.written call }
{
    match call {
        Call::Lay { a, b, cost } => {
            let cost = K::from_figure(cost)?;
            Some(Attempt::Lay { a, b, cost })
        }
        Call::Reprice { run, cost } => {
            let cost = K::from_figure(cost)?;
            Some(Attempt::Reprice { run, cost })
        }
        Call::Close { run } => Some(Attempt::Close { run }),
        Call::Open { run } => Some(Attempt::Open { run }),
        Call::Mark { junction } => Some(Attempt::Mark { junction }),
        Call::Unmark { junction } => Some(Attempt::Unmark { junction }),
        Call::Plan(said) => Some(Attempt::Plan(allowance_of(said))),
        Call::Dug { cost: _ } => None,
    }
}
