// The lines of one district, and what they ask for.
ghost use Rattle.std.specs.Prelude.{◌≡◌, min, IfOk, None, Ok, Err, vec_len, OnOk, MatchResult};
ghost use Rattle.requests.specs.Requests.{request_of};
ghost use Rattle.sheets.specs.Sheets.{Fresh, Noted, other_entry, entry_of, SheetTried};
ghost use Rattle.sheets.specs.declared.sheet.Entry.TheVariants.{NotUnderstood};

use crate::tries::{Room, try_turns};
use commands::Call;
use network::{Cost, Refusal};
use replay::Turn;
use requests::{Figured, Request, Tools, labels_for, request_of, turns_for};
use std::alloc::{AllocError, Global};

// One place more than any district may have.
const MOST_PLACES: u64 = 4097;

const MOST_JUNCTIONS: u64 = 1024;

const DISTANCES: usize = 12;

// What a line got, or where to find it.
#[derive(Clone, Copy)]
pub enum Entry<K> {
    // A call, by its place among the requests.
    Asked { line: u64, at: usize },
    Dug { line: u64, cost: K },
    NotUnderstood { line: u64 },
}

#[derive(Drop)]
pub struct Sheet<K> {
    pub junctions: u64,
    pub capacity: u64,
    pub entries: Vec<Entry<K>>,
    pub requests: Vec<Request<K>>,
}

// Turns that were not tried, since the making was refused.
#[derive(Drop)]
pub struct Untried<K> {
    pub why: Refusal,
    pub turns: Vec<Turn<K>>,
}

// What the calls of a sheet got with these tools, or the refusal of the making.
#[derive(Drop)]
pub struct Trial<K> {
    pub tools: Tools,
    pub turns: Result<Vec<Turn<K>>, Untried<K>>,
}

// Turns that were tried, unless the making was refused.
fn tried<K: Cost>(
    made: Result<(), Refusal>,
    turns: Vec<Turn<K>>,
) -> Result<Vec<Turn<K>>, Untried<K>>
    ensures { MatchResult made (λ _. result ≡ Ok turns) (λ why. result ≡ Err (record { why = why; turns = turns })) }
{
    match made {
        Ok(()) => Ok(turns),
        Err(why) => Err(Untried { why, turns }),
    }
}

impl<K: Cost + Figured> Sheet<K> {
    // A district with no lines yet.
    pub fn new(heap: Global, junctions: u64, capacity: u64) -> Sheet<K>
        ensures { Fresh junctions capacity result }
    {
        Sheet {
            junctions,
            capacity,
            entries: Vec::new(heap),
            requests: Vec::new(heap),
        }
    }

    // One line more, which was not understood.
    pub fn skip(&mut self, line: u64) -> Result<(), AllocError>
        ensures { OnOk result (Noted self.old self.new (NotUnderstood line) None) }
    {
        self.entries.push(Entry::NotUnderstood { line })?;
        Ok(())
    }

    // One line more, which calls for something.
    pub fn note(&mut self, line: u64, call: Call) -> Result<(), AllocError>
        ensures { OnOk result (Noted self.old self.new (entry_of K.Figured.written line call (vec_len self.old.requests)) (request_of K.Figured.written call (vec_len self.old.requests))) }
    {
        let at = self.requests.len();
        match request_of(call, at) {
            None => self.note_other(line, call),
            Some(request) => {
                self.entries.push(Entry::Asked { line, at })?;
                self.requests.push(request)?;
                Ok(())
            }
        }
    }

    // A line that makes no call: what was dug, in this district's kind of cost, or nothing that is understood here.
    fn note_other(&mut self, line: u64, call: Call) -> Result<(), AllocError>
        ensures { OnOk result (Noted self.old self.new (other_entry K.Figured.written line call) None) }
    {
        let Call::Dug { cost } = call else {
            return self.skip(line);
        };
        let Some(cost) = K::from_figure(cost) else {
            return self.skip(line);
        };
        self.entries.push(Entry::Dug { line, cost })?;
        Ok(())
    }

    // Places for the runs that the district may have, and one more where it asks for more than any may have.
    fn places(&self) -> usize
        ensures { result ≡ min self.now.capacity 4097 }
    {
        self.capacity.min(MOST_PLACES) as usize
    }

    // Makes the district and tries every call with these tools.
    pub fn try_with(&self, heap: Global, tools: Tools) -> Result<Trial<K>, AllocError>
        ensures { IfOk result (λ t. SheetTried K.Cost.kind self.now tools t) }
    {
        let mut turns = turns_for(heap, &self.requests, tools)?;
        let room = Room {
            labels: labels_for(self.junctions, &self.requests),
            distances: self.junctions.min(MOST_JUNCTIONS) as usize * DISTANCES,
        };
        let made = try_turns(heap, self.junctions, self.places(), &mut turns, room, tools)?;
        let turns = tried(made, turns);
        Ok(Trial { tools, turns })
    }
}
