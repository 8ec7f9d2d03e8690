//! Frames in QCIF in which triangle waves move.
use h263_planes::PictureMut;
use h263_types::Format;
use make_input::frame;

// Appends a frame. Whether there was memory.
fn add_frame(seed: u32, number: u32, video: &mut Vec<u8>) -> bool {
    let mut samples = [0; 38_016];
    let mut picture = PictureMut::new(Format::Qcif, &mut samples);
    frame(Format::Qcif, seed, number, &mut picture);
    video.extend_from_slice(b"FRAME\n").is_ok() && video.extend_from_slice(&samples).is_ok()
}

/// Appends this many frames of a seed, each after its line. Whether there was memory.
pub fn add_frames(seed: u32, count: u32, video: &mut Vec<u8>) -> bool {
    let mut whole = true;
    for number in 0..count {
        whole &= add_frame(seed, number, video);
    }
    whole
}
