// The lines of one district, whichever its kind of cost.
ghost use Rattle.std.specs.Prelude.{Some, None, OnOk};
ghost use Rattle.sheets.specs.Pages.{FreshPage, PageNoted};

use crate::sheet::Sheet;
use commands::{Call, CostKind};
use network::{CrossingsFirst, Money};
use std::alloc::{AllocError, Global};

#[derive(Drop)]
pub enum Page {
    Money(Sheet<Money>),
    Crossings(Sheet<CrossingsFirst>),
}

impl Page {
    // A district with no lines yet.
    pub fn new(heap: Global, junctions: u64, capacity: u64, kind: CostKind) -> Page
        ensures { FreshPage junctions capacity kind result }
    {
        match kind {
            CostKind::Money => Page::Money(Sheet::new(heap, junctions, capacity)),
            CostKind::Crossings => Page::Crossings(Sheet::new(heap, junctions, capacity)),
        }
    }

    // One line more, which was not understood.
    pub fn skip(&mut self, line: u64) -> Result<(), AllocError>
        ensures { OnOk result (PageNoted self.old self.new line None) }
    {
        match self {
            Page::Money(sheet) => sheet.skip(line),
            Page::Crossings(sheet) => sheet.skip(line),
        }
    }

    // One line more, which calls for something.
    pub fn note(&mut self, line: u64, call: Call) -> Result<(), AllocError>
        ensures { OnOk result (PageNoted self.old self.new line (Some call)) }
    {
        match self {
            Page::Money(sheet) => sheet.note(line, call),
            Page::Crossings(sheet) => sheet.note(line, call),
        }
    }
}
