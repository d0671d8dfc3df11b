// The values of one message, fed one after another.
use crate::files::Call;
use crate::words;
use program_system::room;
use resolve_record::Carried;
use resolve_run::Resolution;
use std::io;
use std::rt::Runtime;

// How many entries were used and skipped.
#[derive(Clone, Copy)]
pub struct Counts {
    pub used: usize,
    pub skipped: usize,
}

// What is known after some values: what is carried, and the counts of all that were accepted, or, while none is, the number of the
// last that was refused.
#[derive(Clone, Copy)]
pub struct Message {
    pub carried: Carried,
    pub counts: Result<Counts, u8>,
}

// One answer more.
fn with(counts: Result<Counts, u8>, a: Resolution) -> Result<Counts, u8> {
    if a.refusal != 0 {
        return counts.or(Err(a.refusal));
    }
    let before = counts.unwrap_or(Counts {
        used: 0,
        skipped: 0,
    });
    Ok(Counts {
        used: before.used.saturating_add(usize::from(a.used)),
        skipped: before.skipped.saturating_add(usize::from(a.skipped)),
    })
}

// One value more: word i. Nothing if it cannot be read. A refused one is told on standard error: the message may be answered
// all the same.
fn fed<R: Runtime>(call: &Call<R>, t: &[u8], m: Message, i: usize) -> io::Result<Option<Message>> {
    let mut value = room();
    let Some(v) = call.value(i, &mut value) else {
        return Ok(None);
    };
    let f = resolve_library::feed(t, m.carried, v);
    let a = f.answer;
    if a.refusal != 0 {
        let number = i.saturating_sub(2);
        print!(&call.system.err; "value {number}: ")?;
        words::refused(&call.system.err, a.refusal)?;
    }
    Ok(Some(Message {
        carried: f.carried,
        counts: with(m.counts, a),
    }))
}

// The message whose values are the words from 3 on; nothing if one cannot be read.
pub fn all_of<R: Runtime>(call: &Call<R>, t: &[u8]) -> io::Result<Option<Message>> {
    let mut m = Message {
        carried: resolve_record::fresh(),
        counts: Err(0),
    };
    for i in 3..call.words {
        match fed(call, t, m, i)? {
            Some(next) => m = next,
            None => return Ok(None),
        }
    }
    Ok(Some(m))
}
