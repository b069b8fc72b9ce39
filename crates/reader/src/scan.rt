// What stands at an offset, and the judgement of one record there.
ghost use Rattle.std.specs.Prelude.{◌≤◌, length};
ghost use Rattle.reader.specs.Turns.{Stands, Turned};

use crate::reached::Reached;
use crate::steps;
use book::{Fault, Phase};

// A record's first four bytes: the length of its body, and its kind's number.
#[derive(Clone, Copy)]
pub struct Head {
    pub len: usize,
    pub kind: u64,
}

// The head of the record at an offset, or none at the end of the book.
fn head_at(s: &[u8], at: usize) -> Result<Option<Head>, Fault>
    ensures { Stands s.now at result }
{
    let n = s.len();
    if n <= at {
        return Ok(None);
    }
    if n - at < 4 {
        return Err(Fault::CutOff);
    }
    let len = octets::u16_at(s, at) as usize;
    if n - (at + 4) < len {
        return Err(Fault::CutOff);
    }
    let kind = octets::u16_at(s, at + 2);
    Ok(Some(Head { len, kind }))
}

// Where judging the record at a place leads, or none at the end of the book.
pub(crate) fn turn_at(s: &[u8], here: Reached) -> Result<Option<Reached>, Fault>
    requires { here.at ≤ length s.now }
    ensures { Turned s.now here.at here.st result }
{
    let Some(head) = head_at(s, here.at)? else {
        return match here.st.phase {
            // An empty book is cut off.
            Phase::AtStart => Err(Fault::CutOff),
            _ => Ok(None),
        };
    };
    let body = here.at + 4;
    let end = body + head.len;
    let st = steps::record_step(here.st, head.kind, &s[body..end])?;
    Ok(Some(Reached { st, at: end }))
}
