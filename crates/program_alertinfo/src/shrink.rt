// The smallest machine that does the same as an image.
use crate::files::Call;
use crate::words;
use program_system::room;
use std::io;
use std::rt::Runtime;

// How many of the states and the bytes are saved where so many are left.
fn report(
    out: &impl Print,
    states: usize,
    classes: usize,
    bytes: usize,
    left: usize,
) -> io::Result<()> {
    let fewer = states.saturating_sub(classes);
    let less = bytes.saturating_sub(left);
    print!(out; "saved {fewer} of {states} states, {less} of {bytes} bytes\n")
}

// The small image of these classes goes to the file that word 4 names.
fn write<R: Runtime>(call: &Call<R>, t: &[u8], m: &[u8], classes: &[u8]) -> io::Result<()> {
    let mut image = room();
    let b = small_library::write(t, m, classes, &mut image);
    if b.refusal != 0 {
        return words::refused(&call.system.rt, b.refusal);
    }
    if let Some(small) = image.get(..b.len) {
        if call.write(4, small)? {
            report(
                &call.system.rt,
                classes.len(),
                small_classes::states::highest_class(classes) + 1,
                m.len(),
                b.len,
            )?;
        }
    }
    Ok(())
}

// The machine of word 3 for this table, as small as it can be.
pub fn shrink<R: Runtime>(call: &Call<R>, t: &[u8]) -> io::Result<()> {
    let mut image = room();
    let Some(m) = call.file(3, &mut image) else {
        return Ok(());
    };
    let mut classes = [0u8; 256];
    let b = small_library::propose(t, m, &mut classes);
    if b.refusal != 0 {
        return words::refused(&call.system.rt, b.refusal);
    }
    match classes.get(..b.len) {
        Some(proposed) => write(call, t, m, proposed),
        None => Ok(()),
    }
}
