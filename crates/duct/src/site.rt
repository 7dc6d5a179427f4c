// The district at hand, and the cost of its latest plan.
ghost use Rattle.std.specs.Prelude.{◌≡◌, IfOk};
ghost use Rattle.network.specs.Money.{money_kind, of_amount};
ghost use Rattle.district.specs.Model.{lay_answer, after_lay, mark_answer, after_mark};
ghost use Rattle.duct.specs.Sites.{model, compared, cost_said, Started, Answered};

use crate::answer::Answer;
use crate::planner::plan_view;
use district::district::{District, Memory};
use network::{Money, Refusal, Run, RunNumber};
use std::alloc::{AllocError, Global};
use text::{Call, PlanWords};

// One place more than any district may have.
const MOST_PLACES: u64 = 4097;

#[derive(Drop)]
pub struct Site {
    district: District<Money>,
    // None before the first plan, and after one that was refused.
    planned: Option<u64>,
}

// What was paid for a trench, beside what was planned. (`morning` compares too, in any kind of cost, and counts.)
fn compare(planned: Option<u64>, cost: u64) -> Answer
    ensures { result ≡ compared planned cost }
{
    match planned {
        None => Answer::NotPlanned(cost),
        Some(planned) if planned == cost => Answer::Agrees(cost),
        Some(planned) => Answer::Differs { cost, planned },
    }
}

impl Site {
    // A fresh district, over rows of its own. A Result in a Result, since a refusal is what the line gets and only memory ends the program:
    // one enum of both would be taken apart again by its only caller.
    pub fn make(
        heap: Global,
        junctions: u64,
        capacity: u64,
    ) -> Result<Result<Site, Refusal>, AllocError>
        ensures { IfOk result (λ s. Started junctions capacity s) }
    {
        let places = capacity.min(MOST_PLACES) as usize;
        let run = Run {
            a: 0,
            b: 0,
            cost: Money { amount: 0 },
        };
        let memory = Memory {
            runs: vec![in heap; run; places]?,
            open: vec![in heap; false; places]?,
        };
        match District::make(junctions, memory) {
            Ok(district) => Ok(Ok(Site {
                district,
                planned: None,
            })),
            Err(unmade) => Ok(Err(unmade.why)),
        }
    }

    pub fn answer(&mut self, heap: Global, call: Call) -> Result<Answer, AllocError>
        ensures { IfOk result (λ a. Answered self.old call a self.new) }
    {
        match call {
            Call::Lay { a, b, cost } => match self.lay(a, b, cost) {
                Ok(run) => Ok(Answer::Laid(run)),
                Err(why) => Ok(Answer::Refused(why)),
            },
            Call::Mark { junction } => match self.mark(junction) {
                Ok(()) => Ok(Answer::Marked(junction)),
                Err(why) => Ok(Answer::Refused(why)),
            },
            Call::Plan(said) => self.plan(heap, said),
            Call::Dug { cost } => Ok(compare(self.planned, cost)),
        }
    }

    fn lay(&mut self, a: u64, b: u64, cost: u64) -> Result<RunNumber, Refusal>
        ensures answers { result ≡ lay_answer money_kind (model self.old) a b (of_amount cost) }
        ensures writes { model self.new ≡ after_lay money_kind (model self.old) a b (of_amount cost) }
        ensures keeps { self.new.planned ≡ self.old.planned }
    {
        self.district.lay(a, b, Money { amount: cost })
    }

    fn mark(&mut self, junction: u64) -> Result<(), Refusal>
        ensures answers { result ≡ mark_answer (model self.old) junction }
        ensures writes { model self.new ≡ after_mark (model self.old) junction }
        ensures keeps { self.new.planned ≡ self.old.planned }
    {
        self.district.mark(junction)
    }

    fn plan(&mut self, heap: Global, said: PlanWords) -> Result<Answer, AllocError>
        ensures keeps { model self.new ≡ model self.old }
        ensures notes { IfOk result (λ a. self.new.planned ≡ cost_said a) }
    {
        self.planned = None;
        match plan_view(heap, &self.district.view(), said)? {
            Ok(drawing) => {
                let cost = drawing.plan.cost.amount;
                let count = drawing.plan.count;
                self.planned = Some(cost);
                let row = drawing.row;
                Ok(Answer::Planned { cost, row, count })
            }
            Err(why) => Ok(Answer::Unplanned(why)),
        }
    }
}
