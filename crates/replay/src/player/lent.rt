// What the host lends a replay. The line that is being read stays apart: it is played while the rest changes. A call that lends two
// fields takes each through a `let .. = &mut *self.x` first. Each method ensures `KeepsReferences`, without which its caller knows nothing of
// the bytes.
ghost use Rattle.std.specs.Prelude.{◌≤◌, length};
ghost use Rattle.evtchn_fifo.specs.DomainRecord.{domain_size};
ghost use Rattle.evtchn_fifo.specs.GuestRecord.{guest_size};

#[derive(Drop)]
pub(crate) struct Lent<'a> {
    pub(crate) domain: &'a mut [u8],
    pub(crate) ledger: &'a mut [u8],
    pub(crate) guest: &'a mut [u8],
    pub(crate) words: &'a mut [u32],
    pub(crate) block: &'a mut [u32],
    pub(crate) due: &'a mut [u8; 64],
    ghost domain_long: { domain_size ≤ length domain.now },
    ghost guest_long: { guest_size ≤ length guest.now },
}
