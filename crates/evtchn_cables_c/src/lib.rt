// The functions of `evtchn_cables` as C links them: each calls the one of its name there, and promises the same. They stand in a
// crate of their own, since a crate is a library or a static library.
#![tactic(auto)]

ghost use Rattle.std.specs.Prelude.{◌≡◌};
ghost use Rattle.word.specs.Word.{link_bits};
ghost use Rattle.evtchn_cables.specs.Encoded.{lay_bytes, laid_bytes, cut_call_bytes, was_cut, send_bytes, with_table, close_cables, reply_cables};
ghost use Rattle.evtchn_fifo.specs.Encoded.{unpacked, carried};

use evtchn_cables::joining::{Far, Laid};
use evtchn_fifo::encoded::PackedNext;

#[unsafe(no_mangle)]
pub extern "C" fn evtchn_cables_bytes_lay(
    table: &mut [u8],
    near: &[u8],
    near_ledger: &[u8],
    far: &[u8],
    far_ledger: &[u8],
    near_domain: u64,
    near_port: u64,
    far_domain: u64,
    far_port: u64,
) -> Laid
    ensures { laid_bytes result table.new ≡ lay_bytes link_bits table.old near.now near_ledger.now far.now far_ledger.now near_domain near_port far_domain far_port }
{
    evtchn_cables::joining::evtchn_cables_bytes_lay(
        table,
        near,
        near_ledger,
        far,
        far_ledger,
        near_domain,
        near_port,
        far_domain,
        far_port,
    )
}

#[unsafe(no_mangle)]
pub extern "C" fn evtchn_cables_bytes_cut(
    table: &mut [u8],
    domain: &[u8],
    ledger: &[u8],
    number: u64,
    port: u64,
) -> u32
    ensures { was_cut result table.new ≡ cut_call_bytes link_bits table.old domain.now ledger.now number port }
{
    evtchn_cables::joining::evtchn_cables_bytes_cut(table, domain, ledger, number, port)
}

#[unsafe(no_mangle)]
pub extern "C" fn evtchn_cables_bytes_send(
    table: &[u8],
    domain: &[u8],
    ledger: &[u8],
    number: u64,
    port: u64,
    hint: u32,
) -> Far
    ensures { result ≡ send_bytes link_bits table.now domain.now ledger.now number port hint }
{
    evtchn_cables::joining::evtchn_cables_bytes_send(table, domain, ledger, number, port, hint)
}

#[unsafe(no_mangle)]
pub extern "C" fn evtchn_cables_bytes_close(
    table: &mut [u8],
    domain: &mut [u8],
    ledger: &mut [u8],
    number: u64,
    port: u64,
) -> PackedNext
    ensures { with_table (carried (unpacked result) domain.new ledger.new) table.new ≡ close_cables link_bits table.old domain.old ledger.old number port }
{
    evtchn_cables::closing::evtchn_cables_bytes_close(table, domain, ledger, number, port)
}

#[unsafe(no_mangle)]
pub extern "C" fn evtchn_cables_bytes_reply(
    table: &mut [u8],
    domain: &mut [u8],
    ledger: &mut [u8],
    number: u64,
    seen: u32,
) -> PackedNext
    ensures { with_table (carried (unpacked result) domain.new ledger.new) table.new ≡ reply_cables link_bits table.old domain.old ledger.old number seen }
{
    evtchn_cables::closing::evtchn_cables_bytes_reply(table, domain, ledger, number, seen)
}
