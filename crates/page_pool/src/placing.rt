ghost use Rattle.std.specs.Prelude.{◌≡◌, ◌+◌, ◌<◌, ◌≤◌, [], ◌∷◌, ◌++◌, length, take, drop, option_to_list};
ghost use Rattle.area_layout.specs.Layout.{IsLayout, least_size};
ghost use Rattle.board_face.specs.{NicCalls.{IsOpen}, NicEvents.{placed}, Tokens.{next_place, filled_by}};
ghost use Rattle.page_pool.specs.{Offer.{MayOffer}, Packing.{buffers_for}, Placing.{IsPart, pending_of_part, FillsFresh}};

use crate::pieces::PendingPieces;
use crate::{Offer, Pending};
use board_face::{NicFace, Own};
use zr_kinds::Note;

/// Places a part of a payload where the buffer's next bytes go. Its note is pending then.
pub(crate) fn place_part<F: NicFace>(
    face: &mut F,
    own: &mut Own,
    pieces: &mut PendingPieces,
    offer: &Offer<'_>,
    at: u32,
    len: u32,
)
    requires open { IsOpen (F.seen face.old) }
    requires out { (F.seen face.old).owns ≡ own.old ∷ [] }
    requires part { IsPart offer.now at len }
    requires fits { own.old.start + len ≤ own.old.size }
    requires room { length pieces.old < 64 }
    ensures view { F.seen face.new
        ≡ placed (F.seen face.old) own.old (take len (drop at offer.now.payload.now)) }
    ensures own { own.new ≡ filled_by own.old len }
    ensures pieces { pieces.new ≡ pieces.old
        ++ pending_of_part offer.now at (next_place own.old len) ∷ [] }
    ensures beside { F.beside face.new ≡ F.beside face.old }
{
    let bytes = &offer.payload[at as usize..(at + len) as usize];
    let piece = face.place(own, bytes);
    let note = Note {
        frame: offer.frame,
        flow: offer.flow,
        base: offer.base,
        seq: offer.seq,
        at,
        total: offer.payload.len() as u32,
        place: piece.place(),
        split: true,
        fin: offer.fin,
    };
    pieces.push_back(Pending {
        app: offer.app,
        note,
        piece,
    });
}

/// Fills fresh buffers with a payload, from their begin. It answers the last, which has room left or is full.
pub(crate) fn place_fresh<F: NicFace>(
    face: &mut F,
    pieces: &mut PendingPieces,
    offer: &Offer<'_>,
) -> Option<Own>
    requires offer { MayOffer (F.seen face.old) offer.now }
    requires out { ((F.seen face.old).owns ≡ []) × ((F.seen face.old).pieces ≡ [])
        × (pieces.old ≡ []) }
    requires sound { IsLayout (F.seen face.old).setting.layout }
    requires few { buffers_for (least_size (F.seen face.old).setting.layout)
        (length offer.now.payload.now) ≤ 64 }
    requires enough { buffers_for (least_size (F.seen face.old).setting.layout)
        (length offer.now.payload.now) ≤ length (F.seen face.old).cache }
    ensures places { FillsFresh offer.now (F.seen face.old) (F.seen face.new) pieces.new result }
    ensures out { (F.seen face.new).owns ≡ option_to_list result }
    ensures few { length pieces.new ≤ 64 }
    ensures beside { F.beside face.new ≡ F.beside face.old }
{
    let total = offer.payload.len() as u32;
    let mut at = 0;
    while at < total {
        let mut own = face.take()?;
        let len = own.size().min(total - at);
        place_part(face, &mut own, pieces, offer, at, len);
        at += len;
        if at == total {
            return Some(own);
        }
        face.shut(own);
    }
    None
}
