//! A group with what its calls ask for.
ghost use Rattle.std.specs.Prelude.{◌≡◌, ◌≤◌, length};

use group_sender::Group;
use h263_types::Params;
use rate_control::SendPace;

/// A group, its parameters, and how many packets its last picture has.
pub struct KeptGroup {
    pub(crate) group: Group<SendPace>,
    pub(crate) params: Params,
    pub(crate) packets: u32,
    ghost same: { group.params ≡ params },
    ghost count: { packets ≡ length group.sender.packets },
    ghost low: { 1 ≤ params.quant },
    ghost high: { params.quant ≤ 31 },
}

impl Drop for KeptGroup {
    fn drop(self) {
        let KeptGroup {
            group,
            params: _,
            packets: _,
        } = self;
        group.finish();
    }
}
