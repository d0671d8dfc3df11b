// Sample values by a table, one a line.
use crate::files::Call;
use crate::numbers::number;
use crate::words;
use program_system::path_room;
use sample_seed::Seed;
use std::io;
use std::rt::Runtime;

// The next value from the seed, with a line end.
fn next(out: &impl Print, t: &[u8], seed: &mut Seed) -> io::Result<()> {
    let mut buf = [0u8; 4096];
    let n = sample_library::make(t, seed, &mut buf).unwrap_or(0);
    match buf.get(..n) {
        Some(value) => {
            out.write_all(value)?;
            out.print("\n")
        }
        None => Ok(()),
    }
}

// The number that word i is.
fn word<R: Runtime>(call: &Call<R>, i: usize) -> Option<u32> {
    let mut text = path_room();
    number(call.word(i, &mut text))
}

// As many values as word 4 says, from the seed that word 3 is.
pub fn print<R: Runtime>(call: &Call<R>, t: &[u8]) -> io::Result<()> {
    let refusal = machine_library::refusal(t);
    if refusal != 0 {
        return words::refused(&call.system.rt, refusal);
    }
    let Some(x) = word(call, 3) else {
        return call
            .system
            .err
            .print("SEED is a number from 0 to 4294967295\n");
    };
    let count = word(call, 4).unwrap_or(0);
    if count == 0 {
        return call
            .system
            .err
            .print("COUNT is a number from 1 to 4294967295\n");
    }
    let mut seed = Seed { x };
    for _ in 0..count {
        next(&call.system.rt, t, &mut seed)?;
    }
    Ok(())
}
