//! Videos through their reader, and pictures that are written.
ghost use Rattle.std.specs.Prelude.{◌≡◌, length, true};
ghost use Rattle.h263_types.specs.Sizes.{size_of_picture};
ghost use Rattle.h263_outside.specs.Memory.{memory_outside};
ghost use Rattle.h263_outside.specs.declared.desk.Role.TheVariants.{Video};

use crate::case::{Case, Outcome};
use crate::desks::{compare_desk, desk_with};
use h263_outside::{MemoryDesk, Role};
use h263_planes::PictureRef;
use h263_types::{Format, Mark};
use y4m::{Y4mReader, write_frame, write_head};

/// The mark of this name.
pub fn mark_of(word: &str) -> Mark {
    match word {
        "exact" => Mark::Exact,
        "patched" => Mark::Patched,
        _ => Mark::Held,
    }
}

fn format_of(word: &str) -> Format {
    match word {
        "sub-qcif" => Format::SubQcif,
        "qcif" => Format::Qcif,
        _ => Format::Cif,
    }
}

// Puts bytes on the desk.
fn put_more(desk: &mut MemoryDesk, bytes: &[u8], out: &mut Outcome)
    ensures { (memory_outside desk.new).attached ≡ (memory_outside desk.old).attached }
{
    if desk.put(Role::Video, bytes).is_err() {
        out.why = "no memory";
    }
}

// Reads a frame, which is put on the desk anew each time, this often.
fn skip_frames(
    desk: &mut MemoryDesk,
    reader: &mut Y4mReader,
    frame: &[u8],
    picture: &mut [u8],
    count: u64,
    out: &mut Outcome,
)
    requires attached { (memory_outside desk.old).attached Video ≡ true }
    requires size { length picture.old ≡ size_of_picture reader.old.format }
    ensures attached { (memory_outside desk.new).attached Video ≡ true }
    ensures same { reader.new.format ≡ reader.old.format }
    ensures size { length picture.new ≡ length picture.old }
{
    'frames: for _ in 0..count {
        put_more(desk, frame, out);
        if reader.frame(desk, picture) != Ok(true) {
            out.why = "a frame to be skipped that isn't there";
        }
    }
}

// The answers of the next frames, up to the first that is none.
fn tell_frames(
    desk: &mut MemoryDesk,
    reader: &mut Y4mReader,
    picture: &mut [u8],
    frames: u64,
    out: &mut Outcome,
)
    requires attached { (memory_outside desk.old).attached Video ≡ true }
    requires size { length picture.old ≡ size_of_picture reader.old.format }
    ensures attached { (memory_outside desk.new).attached Video ≡ true }
    ensures same { reader.new.format ≡ reader.old.format }
    ensures size { length picture.new ≡ length picture.old }
{
    'frames: for _ in 0..frames {
        let answer = reader.frame(desk, picture);
        out.say(&answer);
        out.add(b"\n");
        if answer != Ok(true) {
            return;
        }
    }
}

// What the frames of a video are. With `skip`, that many were read before; with `then`, these bytes
// come after the end.
fn read_frames(case: &Case<'_>, desk: &mut MemoryDesk, reader: &mut Y4mReader, out: &mut Outcome)
    requires attached { (memory_outside desk.old).attached Video ≡ true }
{
    let skip = case.number_or("skip", "0", out);
    let frames = case.number_or("frames", "0", out);
    let frame = case.bytes("frame", out);
    let then = case.bytes("then", out);
    let format = reader.format();
    let Ok(mut picture) = vec![in out.alloc; 0; format.size() as usize] else {
        return;
    };
    skip_frames(desk, reader, &frame, &mut picture, skip, out);
    tell_frames(desk, reader, &mut picture, frames, out);
    if !then.is_empty() {
        put_more(desk, &then, out);
        tell_frames(desk, reader, &mut picture, frames, out);
        case.compare("planes", &picture, out);
    }
}

/// What the head of a video says, and what its frames are.
pub fn read_video(case: &Case<'_>, out: &mut Outcome) {
    if let Some(mut desk) = desk_with(case, Role::Video, out) {
        match Y4mReader::head(&mut desk) {
            Ok(mut reader) => {
                out.say(&reader.format());
                out.add(b"\n");
                read_frames(case, &mut desk, &mut reader, out);
            }
            Err(refusal) => {
                out.say(&refusal);
                out.add(b"\n");
            }
        }
    }
    case.compare_told("gives", out);
}

/// What writing a head and a picture answers, and writes.
pub fn write_video(case: &Case<'_>, out: &mut Outcome) {
    let format = format_of(case.text("format"));
    let mark = mark_of(case.text("mark"));
    let samples = case.bytes("samples", out);
    if samples.len() == format.size() as usize {
        if let Some(mut desk) = desk_with(case, Role::Pictures, out) {
            let head = write_head(&mut desk, format);
            let picture = write_frame(&mut desk, mark, PictureRef::new(format, &samples));
            out.say(&head);
            out.add(b" ");
            out.say(&picture);
            compare_desk(case, &desk, out);
        }
    }
    case.compare_told("gives", out);
}
