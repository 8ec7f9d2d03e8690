//! What a slot keeps, and pictures that are lent side by side.
ghost use Rattle.std.specs.Prelude.{◌≡◌, length};

use h263_planes::{PictureMut, PictureRef, Plane};
use h263_types::{Format, OutOfMemory};
use picture_store::PictureStore;
use std::alloc::Global;
use test_fixtures::answer::{Answer, WRONG};

// Whether picture 0 is there before it is kept and after; whether picture 4 is, in the same slot of
// four; picture 0's first sample; and which of the two is there when picture 4 is kept.
fn keeps(alloc: Global) -> Result<(bool, bool, bool, u8, bool, bool), OutOfMemory> {
    let mut store = PictureStore::start(alloc, Format::SubQcif, 4, 1)?;
    let before = store.view(0).is_some();
    store.work(0).fill(7);
    store.keep(0, 0);
    let kept = store.view(0).is_some();
    let other = store.view(4).is_some();
    let sample = store.view(0).map_or(0, |p| p.bytes()[0]);
    store.keep(4, 0);
    let gone = store.view(0).is_some();
    let there = store.view(4).is_some();
    store.finish();
    Ok((before, kept, other, sample, gone, there))
}

fn set_first(bytes: &mut [u8], value: u8)
    requires { length bytes.old ≡ 18432 }
{
    let mut picture = PictureMut::new(Format::SubQcif, bytes);
    picture.set_row(Plane::Y, 0, 0, &[value]);
}

fn carry_first(read: &[u8], write: &mut [u8])
    requires read { length read.now ≡ 18432 }
    requires write { length write.old ≡ 18432 }
{
    let value = PictureRef::new(Format::SubQcif, read).sample(Plane::Y, 0, 0);
    set_first(write, value);
}

// A sample of 9 goes from the kept picture to a work picture, and from that one to another: what is
// there, and beside it.
fn lends(alloc: Global) -> Result<(u8, u8), OutOfMemory> {
    let mut store = PictureStore::start(alloc, Format::SubQcif, 2, 3)?;
    set_first(store.work(0), 9);
    store.keep(5, 0);
    let (reference, work) = store.pair(5, 1);
    carry_first(reference, work);
    let (seen, work) = store.works(1, 2);
    carry_first(seen, work);
    let second = store.work_seen(2).sample(Plane::Y, 0, 0);
    let other = store.work_seen(2).sample(Plane::Y, 1, 0);
    store.finish();
    Ok((second, other))
}

/// Answers a row of `picture_store.rows`: does the call of this name by the words after it.
pub fn answer(alloc: Global, call: &str, answer: &mut Answer) {
    match call {
        "keeps" => answer.say(&keeps(alloc)),
        "lends" => answer.say(&lends(alloc)),
        _ => answer.why = WRONG,
    }
}
