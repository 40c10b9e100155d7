// Strict adds (document 02, M-105): the ordinary add, but that a packet with a padding byte other than zero is refused, last of all.
ghost use Rattle.std.specs.Prelude.{◌≡◌, [], false, ◌&&◌, ◌≤◌};
ghost use Rattle.collector.specs.Parts.{bare};
ghost use Rattle.repacketizer.specs.Adding.{added_strictly};
ghost use Rattle.repacketizer.specs.Parts.{has_dirt, why_dirty};

use crate::{Added, opus_repacketizer_cat_impl, stays_out};
use collector::{Head, OpusRepacketizer};
use opus_defines::Refusal;

// Whether a packet of at most 65,535 bytes has dirty padding. A longer one is left to the ordinary add, which refuses it.
fn has_dirt(data: &[u8], self_delimited: bool) -> bool
    ensures { result ≡ has_dirt self_delimited «data».now }
{
    if opus::MOST_PACKET < data.len() {
        return false;
    }
    padding::is_dirty(data, self_delimited)
}

// The same for a strict add; an ordinary one does not ask.
pub fn asks_dirt(strict: bool, data: &[u8], self_delimited: bool) -> bool
    ensures { result ≡ strict && has_dirt self_delimited «data».now }
{
    if strict {
        return has_dirt(data, self_delimited);
    }
    false
}

// Why such a packet is refused: what an ordinary add asks of it comes first.
pub fn dirty_refusal(h: Head, data: &[u8]) -> Refusal
    requires { h.nb_frames ≤ 48 }
    ensures { result ≡ why_dirty (bare h []) «data».now }
{
    if stays_out(h, data) {
        return Refusal::InvalidPacket;
    }
    Refusal::DirtyPadding
}

// Adds an ordinary packet, unless its padding is dirty.
pub fn opus_repacketizer_cat_strict(rp: OpusRepacketizer, data: &[u8], store: &mut [u8]) -> Added
    ensures answer { result ≡ (added_strictly false rp «data».now store.old).answer }
    ensures bytes { store.new ≡ (added_strictly false rp «data».now store.old).store }
{
    opus_repacketizer_cat_impl(rp, data, false, true, store)
}
