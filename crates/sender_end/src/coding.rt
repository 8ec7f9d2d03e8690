//! The sizes of the pictures that were coded.
ghost use Rattle.std.specs.Prelude.{◌≡◌, ◌≤◌, All, length};
ghost use Rattle.packet_cutter.specs.Cutting.{cutter_packets};
ghost use Rattle.call_model.specs.SenderStanding.{with_size};
ghost use Rattle.call_model.specs.Sending.{bytes_together};

use arrayvec::ArrayVec;
use packet_cutter::Cutter;

/// How many bytes the packets have together.
pub fn size_of(cutter: &Cutter) -> u32
    requires { All (λ p. length p ≤ 9000) (cutter_packets cutter.now) }
    ensures { result ≡ bytes_together (cutter_packets cutter.now) }
{
    let mut size = 0;
    for i in 0..cutter.count() {
        size += cutter.packet(i).len() as u32;
    }
    size
}

/// One size more: the oldest one goes where there are 16.
pub fn push_size(sizes: &mut ArrayVec<u32, 16>, size: u32)
    ensures { sizes.new.items ≡ with_size sizes.old.items size }
{
    if sizes.is_full() {
        sizes.remove(0);
    }
    sizes.push(size);
}
