// The calls of a sheet, tried with each pair of tools that its plans name.
ghost use Rattle.std.specs.Prelude.{◌≡◌, true, IfOk, MatchOption, OnOk};
ghost use Rattle.sheets.specs.Trials.{named_in, Added, GrownBy, GrownFor, Named, Trials, reporting, NoneReports};

use crate::sheet::{Sheet, Trial};
use commands::{EstimatorChoice, QueueChoice};
use network::Cost;
use requests::{Figured, Request, Tools};
use std::alloc::{AllocError, Global};

// Whether a plan names these tools.
fn is_named<K: Cost>(requests: &[Request<K>], tools: Tools) -> bool
    ensures { result ≡ named_in tools requests.now }
{
    requests.iter().any(|request| request.tools == Some(tools))
}

// What the calls got with these tools, beside what they got with others.
// (The clauses tell of the trials before and after, so they stay beside the sheet.)
fn add_trial<K: Cost + Figured>(
    heap: Global,
    sheet: &Sheet<K>,
    tools: Tools,
    trials: &mut Vec<Trial<K>>,
) -> Result<(), AllocError>
    ensures { OnOk result (Added K.Cost.kind sheet.now tools trials.old.items trials.new.items) }
{
    let trial = sheet.try_with(heap, tools)?;
    trials.push(trial)?;
    Ok(())
}

// The same where a plan names these tools.
fn add_named<K: Cost + Figured>(
    heap: Global,
    sheet: &Sheet<K>,
    tools: Tools,
    trials: &mut Vec<Trial<K>>,
) -> Result<(), AllocError>
    ensures { OnOk result (GrownBy K.Cost.kind sheet.now tools trials.old.items trials.new.items) }
{
    if is_named(&sheet.requests, tools) {
        add_trial(heap, sheet, tools, trials)
    } else {
        Ok(())
    }
}

// With one queue and each estimator that a plan names with it.
fn add_queue<K: Cost + Figured>(
    heap: Global,
    sheet: &Sheet<K>,
    queue: QueueChoice,
    trials: &mut Vec<Trial<K>>,
) -> Result<(), AllocError>
    ensures { OnOk result (GrownFor K.Cost.kind sheet.now queue trials.old.items trials.new.items) }
{
    for estimator in [
        EstimatorChoice::Silent,
        EstimatorChoice::Farthest,
        EstimatorChoice::Larger,
    ] {
        add_named(heap, sheet, Tools { queue, estimator }, trials)?;
    }
    Ok(())
}

// The trials with all tools that plans name.
fn try_named<K: Cost + Figured>(heap: Global, sheet: &Sheet<K>) -> Result<Vec<Trial<K>>, AllocError>
    ensures { IfOk result (λ v. Named K.Cost.kind sheet.now v.items) }
{
    let mut trials = Vec::new(heap);
    add_queue(heap, sheet, QueueChoice::Row, &mut trials)?;
    add_queue(heap, sheet, QueueChoice::Heap, &mut trials)?;
    Ok(trials)
}

// Tries the calls with all tools that plans name, and with heap and farthest where there is no plan.
pub fn try_sheet<K: Cost + Figured>(
    heap: Global,
    sheet: &Sheet<K>,
) -> Result<Vec<Trial<K>>, AllocError>
    ensures { IfOk result (λ v. Trials K.Cost.kind sheet.now v.items) }
{
    let mut trials = try_named(heap, sheet)?;
    if trials.is_empty() {
        let usual = Tools {
            queue: QueueChoice::Heap,
            estimator: EstimatorChoice::Farthest,
        };
        add_trial(heap, sheet, usual, &mut trials)?;
    }
    Ok(trials)
}

// Whether what was tried with these tools reports what a call got.
fn reports(tools: Option<Tools>, tried: Tools) -> bool
    ensures { result ≡ reporting tools tried }
{
    tools.is_none_or(|named| named == tried)
}

// Where to find what a call got: a plan by its own tools, any other call by whichever.
pub fn find_trial<K: Cost>(trials: &[Trial<K>], tools: Option<Tools>) -> Option<&Trial<K>>
    ensures { MatchOption result (NoneReports tools trials.now) (λ t. reporting tools t.now.tools ≡ true) }
{
    trials.iter().find(|trial| reports(tools, trial.tools))
}
