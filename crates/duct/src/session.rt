// A text, answered line by line.
ghost use Rattle.std.specs.Prelude.{IfOk};
ghost use Rattle.duct.specs.Replies.{Opened, Replied};
ghost use Rattle.text.specs.Commands.{understood};

use crate::answer::Answer;
use crate::site::Site;
use console::Fault;
use std::alloc::{AllocError, Global};
use text::{Command, Lines, read_line};

// What a line gets.
#[derive(Drop)]
enum Reply {
    Silence,
    Said(Answer),
    NoDistrict,
    NotUnderstood,
}

#[derive(Drop)]
struct Session {
    heap: Global,
    site: Option<Site>,
}

impl Session {
    fn reply(&mut self, line: &[u8]) -> Result<Reply, AllocError>
        ensures { IfOk result (λ p. Replied (understood line.now) self.old.site p self.new.site) }
    {
        let Some(command) = read_line(line) else {
            return Ok(Reply::NotUnderstood);
        };
        match command {
            Command::Nothing => Ok(Reply::Silence),
            Command::District {
                junctions,
                capacity,
            } => Ok(Reply::Said(self.start(junctions, capacity)?)),
            Command::Call(call) => match &mut self.site {
                None => Ok(Reply::NoDistrict),
                Some(site) => Ok(Reply::Said(site.answer(self.heap, call)?)),
            },
        }
    }

    // Another district, from its beginning; none where it is refused.
    fn start(&mut self, junctions: u64, capacity: u64) -> Result<Answer, AllocError>
        ensures { IfOk result (λ a. Opened junctions capacity a self.new.site) }
    {
        self.site = None;
        match Site::make(self.heap, junctions, capacity)? {
            Ok(site) => {
                self.site = Some(site);
                Ok(Answer::Made {
                    junctions,
                    capacity,
                })
            }
            Err(why) => Ok(Answer::Refused(why)),
        }
    }
}

// Prints what a line gets, and says whether it was taken.
fn say(rt: &HostRuntime, number: u64, reply: &Reply) -> Result<bool, Fault> {
    match reply {
        Reply::Silence => Ok(true),
        Reply::Said(answer) => {
            println!(rt; "{answer}")?;
            Ok(true)
        }
        Reply::NoDistrict => {
            println!(rt; "line {number}: no district")?;
            Ok(false)
        }
        Reply::NotUnderstood => {
            println!(rt; "line {number}: not understood")?;
            Ok(false)
        }
    }
}

pub fn answer_all(rt: &HostRuntime, text: &[u8]) -> Result<(), Fault> {
    let heap = rt.alloc();
    let mut session = Session { heap, site: None };
    let mut all_taken = true;
    for (number, line) in (1..).zip(Lines::of(text)) {
        let reply = session.reply(line)?;
        all_taken &= say(rt, number, &reply)?;
    }
    if all_taken {
        Ok(())
    } else {
        Err(Fault::Skipped)
    }
}
