// What the lines of a district ask for, and the turns by which it is tried.
ghost use Rattle.std.specs.Prelude.{◌≡◌, ◌-◌, ◌*◌, ◌^◌, ◌≤◌, min, map, IfOk};
ghost use Rattle.requests.specs.Requests.{named_by, request_of, asked_of, shape, row_of, marks_in, labels_for};

use crate::attempts::attempt_of;
use crate::figured::Figured;
use crate::tools::Tools;
use commands::Call;
use network::Cost;
use replay::{Allowance, Call as Attempt, Turn};
use std::alloc::{AllocError, Global};

// The most junctions and runs that a district may have.
const MOST_JUNCTIONS: u64 = 1024;

const MOST_RUNS: u64 = 4096;

#[derive(Clone, Copy)]
pub struct Request<K> {
    pub call: Attempt<K>,
    // With what a plan is made; none for any other call.
    pub tools: Option<Tools>,
    // How long its answer row is.
    pub row: usize,
}

fn tools_of(call: Call) -> Option<Tools>
    ensures { result ≡ named_by call }
{
    match call {
        Call::Plan(said) => Some(Tools::named(said)),
        _ => None,
    }
}

// The row that a plan's line brings, or a place for each of the calls before it, any of which may have laid a run.
fn row_for(call: Call, before: usize) -> usize
    ensures { result ≡ row_of call before }
{
    match call {
        Call::Plan(said) => said.row.unwrap_or(before as u64).min(MOST_RUNS) as usize,
        _ => 0,
    }
}

// What a line asks for after so many calls; none where it makes no call.
pub fn request_of<K: Cost + Figured>(call: Call, before: usize) -> Option<Request<K>>
    ensures { result ≡ request_of K.Figured.written call before }
{
    let attempt = attempt_of(call)?;
    Some(Request {
        call: attempt,
        tools: tools_of(call),
        row: row_for(call, before),
    })
}

// What is tried with `tools`: a plan that names others may take nothing, so it is refused and changes nothing.
fn asked_of<K: Cost>(request: &Request<K>, tools: Tools) -> (Attempt<K>, usize)
    ensures { result ≡ asked_of tools request.now }
{
    if request.tools.is_none_or(|named| named == tools) {
        (request.call, request.row)
    } else {
        let nothing = Allowance {
            limit: 0,
            labels: 0,
            codes: 0,
            junctions: 0,
        };
        (Attempt::Plan(nothing), 0)
    }
}

// A turn that has not been tried.
fn turn_of<K: Cost>(heap: Global, request: &Request<K>, tools: Tools) -> Result<Turn<K>, AllocError>
    ensures { IfOk result (λ t. shape t ≡ asked_of tools request.now) }
{
    let (call, row) = asked_of(request, tools);
    Ok(Turn {
        call,
        answer: None,
        row: vec![in heap; 0u8; row]?,
    })
}

pub fn turns_for<K: Cost>(
    heap: Global,
    requests: &[Request<K>],
    tools: Tools,
) -> Result<Vec<Turn<K>>, AllocError>
    ensures { IfOk result (λ v. map shape v.items ≡ map (asked_of tools) requests.now) }
{
    // A loop, since no clause of `try_collect` gives the list as a whole.
    let mut turns = Vec::new(heap);
    for request in requests {
        let turn = turn_of(heap, request, tools)?;
        turns.push(turn)?;
    }
    Ok(turns)
}

// How many of them mark an outlet, up to twelve.
fn marks_in<K: Cost>(requests: &[Request<K>]) -> usize
    ensures { result ≡ min (marks_in requests.now) 12 }
{
    let marks = requests
        .iter()
        .filter(|request| matches!(request.call, Attempt::Mark { .. }));
    marks.count().min(12)
}

// How many labels their plans can need on so many junctions, of which a district has at most 1,024.
pub fn labels_for<K: Cost>(junctions: u64, requests: &[Request<K>]) -> usize
    ensures { result ≡ labels_for (min junctions 1024) requests.now }
{
    let others = marks_in(requests).saturating_sub(1);
    junctions.min(MOST_JUNCTIONS) as usize * (1 << others)
}
