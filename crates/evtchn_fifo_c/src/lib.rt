// The functions of `evtchn_fifo` as C links them: each calls the one of its name there, and promises the same. They stand in a
// crate of their own, since a crate is a library or a static library.
#![tactic(auto)]

ghost use Rattle.std.specs.Prelude.{◌≡◌};
ghost use Rattle.evtchn_fifo.specs.DomainRecord.{layout_number};
ghost use Rattle.word.specs.Word.{link_bits};
ghost use Rattle.evtchn_fifo.specs.Ledger.{fresh_ledger_bytes};
ghost use Rattle.evtchn_fifo.specs.Encoded.{unpacked, wrote, carried, freshened};
ghost use Rattle.evtchn_fifo.specs.Hypervisor.{init_bytes, expand_bytes, bind_bytes, close_bytes, set_priority_bytes, raise_bytes, unmask_bytes, reply_bytes, due_bytes, fresh_domain_bytes};
ghost use Rattle.evtchn_fifo.specs.Guest.{service_bytes, mask_bytes, tell_bytes, fresh_guest_bytes};
ghost use Rattle.evtchn_fifo.specs.ClearMask.{clear_mask_bytes, guest_reply_bytes, guest_due_bytes};

use evtchn_fifo::encoded::PackedNext;

#[unsafe(no_mangle)]
pub extern "C" fn evtchn_fifo_layout() -> u32
    ensures { result ≡ layout_number }
{
    evtchn_fifo::layout::evtchn_fifo_layout()
}

#[unsafe(no_mangle)]
pub extern "C" fn evtchn_fifo_bytes_fresh_domain(domain: &mut [u8]) -> u32
    ensures { freshened result domain.new ≡ fresh_domain_bytes domain.old }
{
    evtchn_fifo::hypervisor::evtchn_fifo_bytes_fresh_domain(domain)
}

#[unsafe(no_mangle)]
pub extern "C" fn evtchn_fifo_bytes_init_control(
    domain: &mut [u8],
    vcpu: u64,
    frame: u64,
    frames: u64,
    offset: u64,
) -> PackedNext
    ensures { wrote (unpacked result) domain.new ≡ init_bytes link_bits domain.old vcpu frame frames offset }
{
    evtchn_fifo::hypervisor::evtchn_fifo_bytes_init_control(domain, vcpu, frame, frames, offset)
}

#[unsafe(no_mangle)]
pub extern "C" fn evtchn_fifo_bytes_expand_array(
    domain: &mut [u8],
    frame: u64,
    frames: u64,
) -> PackedNext
    ensures { wrote (unpacked result) domain.new ≡ expand_bytes link_bits domain.old frame frames }
{
    evtchn_fifo::hypervisor::evtchn_fifo_bytes_expand_array(domain, frame, frames)
}

#[unsafe(no_mangle)]
pub extern "C" fn evtchn_fifo_bytes_bind(
    domain: &mut [u8],
    ledger: &mut [u8],
    port: u64,
) -> PackedNext
    ensures { carried (unpacked result) domain.new ledger.new ≡ bind_bytes link_bits domain.old ledger.old port }
{
    evtchn_fifo::hypervisor::evtchn_fifo_bytes_bind(domain, ledger, port)
}

#[unsafe(no_mangle)]
pub extern "C" fn evtchn_fifo_bytes_close(
    domain: &mut [u8],
    ledger: &mut [u8],
    port: u64,
) -> PackedNext
    ensures { carried (unpacked result) domain.new ledger.new ≡ close_bytes link_bits domain.old ledger.old port }
{
    evtchn_fifo::hypervisor::evtchn_fifo_bytes_close(domain, ledger, port)
}

#[unsafe(no_mangle)]
pub extern "C" fn evtchn_fifo_bytes_set_priority(
    domain: &mut [u8],
    ledger: &mut [u8],
    port: u64,
    priority: u64,
) -> PackedNext
    ensures { carried (unpacked result) domain.new ledger.new ≡ set_priority_bytes link_bits domain.old ledger.old port priority }
{
    evtchn_fifo::hypervisor::evtchn_fifo_bytes_set_priority(domain, ledger, port, priority)
}

#[unsafe(no_mangle)]
pub extern "C" fn evtchn_fifo_bytes_raise(
    domain: &mut [u8],
    ledger: &mut [u8],
    port: u64,
) -> PackedNext
    ensures { carried (unpacked result) domain.new ledger.new ≡ raise_bytes link_bits domain.old ledger.old port }
{
    evtchn_fifo::hypervisor::evtchn_fifo_bytes_raise(domain, ledger, port)
}

#[unsafe(no_mangle)]
pub extern "C" fn evtchn_fifo_bytes_unmask(
    domain: &mut [u8],
    ledger: &mut [u8],
    port: u64,
) -> PackedNext
    ensures { carried (unpacked result) domain.new ledger.new ≡ unmask_bytes link_bits domain.old ledger.old port }
{
    evtchn_fifo::hypervisor::evtchn_fifo_bytes_unmask(domain, ledger, port)
}

#[unsafe(no_mangle)]
pub extern "C" fn evtchn_fifo_bytes_reply(
    domain: &mut [u8],
    ledger: &mut [u8],
    seen: u32,
) -> PackedNext
    ensures { carried (unpacked result) domain.new ledger.new ≡ reply_bytes link_bits domain.old ledger.old seen }
{
    evtchn_fifo::hypervisor::evtchn_fifo_bytes_reply(domain, ledger, seen)
}

#[unsafe(no_mangle)]
pub extern "C" fn evtchn_fifo_bytes_due(domain: &[u8]) -> PackedNext
    ensures { unpacked result ≡ due_bytes link_bits domain.now }
{
    evtchn_fifo::hypervisor::evtchn_fifo_bytes_due(domain)
}

#[unsafe(no_mangle)]
pub extern "C" fn evtchn_fifo_bytes_fresh_ledger(ledger: &mut [u8]) -> u32
    ensures { freshened result ledger.new ≡ fresh_ledger_bytes ledger.old }
{
    evtchn_fifo::ledger::evtchn_fifo_bytes_fresh_ledger(ledger)
}

#[unsafe(no_mangle)]
pub extern "C" fn evtchn_fifo_bytes_fresh_guest(guest: &mut [u8]) -> u32
    ensures { freshened result guest.new ≡ fresh_guest_bytes guest.old }
{
    evtchn_fifo::guest::evtchn_fifo_bytes_fresh_guest(guest)
}

#[unsafe(no_mangle)]
pub extern "C" fn evtchn_fifo_bytes_service(guest: &mut [u8]) -> PackedNext
    ensures { wrote (unpacked result) guest.new ≡ service_bytes link_bits guest.old }
{
    evtchn_fifo::guest::evtchn_fifo_bytes_service(guest)
}

#[unsafe(no_mangle)]
pub extern "C" fn evtchn_fifo_mask(port: u64, words: u64) -> PackedNext
    ensures { unpacked result ≡ mask_bytes link_bits port words }
{
    evtchn_fifo::guest::evtchn_fifo_mask(port, words)
}

#[unsafe(no_mangle)]
pub extern "C" fn evtchn_fifo_bytes_tell(guest: &mut [u8], words: u64) -> PackedNext
    ensures { wrote (unpacked result) guest.new ≡ tell_bytes guest.old words }
{
    evtchn_fifo::guest::evtchn_fifo_bytes_tell(guest, words)
}

#[unsafe(no_mangle)]
pub extern "C" fn evtchn_fifo_bytes_clear_mask(guest: &mut [u8], port: u64) -> PackedNext
    ensures { wrote (unpacked result) guest.new ≡ clear_mask_bytes link_bits guest.old port }
{
    evtchn_fifo::clear_mask::evtchn_fifo_bytes_clear_mask(guest, port)
}

#[unsafe(no_mangle)]
pub extern "C" fn evtchn_fifo_bytes_service_reply(guest: &mut [u8], seen: u32) -> PackedNext
    ensures { wrote (unpacked result) guest.new ≡ guest_reply_bytes link_bits guest.old seen }
{
    evtchn_fifo::clear_mask::evtchn_fifo_bytes_service_reply(guest, seen)
}

#[unsafe(no_mangle)]
pub extern "C" fn evtchn_fifo_bytes_service_due(guest: &[u8]) -> PackedNext
    ensures { unpacked result ≡ guest_due_bytes link_bits guest.now }
{
    evtchn_fifo::clear_mask::evtchn_fifo_bytes_service_due(guest)
}
