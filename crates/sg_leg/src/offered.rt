//! A call with an open offer.

ghost use Rattle.std.specs.Prelude.{◌≡◌, ◌≤◌, ◌<◌, ◌+◌, ℕ, List, Some, None, length, map, IfOk, IfErr, OnErr, MatchResult};
ghost use Rattle.std.specs.List.{All};
ghost use Rattle.sg_agreement.specs.Answers.{agreed_answer, answered_by, lines_of};
ghost use Rattle.sg_agreement.specs.CarriedTexts.{carried_text, ports_from};
ghost use Rattle.sg_agreement.specs.Generations.{sessions_from};
ghost use Rattle.sg_agreement.specs.Keyed.{media_agreed};
ghost use Rattle.sg_agreement.specs.Keying.{Offer};
ghost use Rattle.sg_agreement.specs.Offers.{agreed_offer};
ghost use Rattle.sg_keys.specs.Installing.{keys_of};
ghost use Rattle.sg_sdp.specs.declared.medium.Medium as descriptions;
ghost use Rattle.sg_session.specs.Ring.{Installed};
ghost use Rattle.sg_leg.specs.Answering.{Tells};
ghost use Rattle.sg_leg.specs.Open.{AreAddressed, IsAgreed, IsAnswerOf, IsAnswered, IsOpen, IsOpened, answer_of, answered_with, at_hand, media_of};
ghost use Rattle.sg_leg.specs.Planned.{ArePlanned, IsNext, planned, planned_sides};
ghost use Rattle.sg_leg.specs.Served.{IsServedIf};

use crate::answering::{
    Answered, actives_after, answered_by_own_lines, answered_by_peer_lines, answered_text,
    media_agreed, of_media, offered_text, other_side,
};
use crate::describing::describe;
use crate::keying::{Keying, keying_of};
use crate::media::AgreedMedium;
use crate::noting::note_all;
use crate::replying::{by_media_messages, by_response, by_session_message};
use crate::settling::settle;
use crate::{Books, Ended, Live, MediaSpec, SideSpec, Way};
use arrayvec::ArrayVec;
use sg_agreement::agreements_are_sound;
use sg_base::{Fault, NoMemory, Octets, Side};
use sg_mikey::{Items, message_law};
use sg_psk::PskBook;
use sg_sdes::crypto_lines_are_read_again;
use sg_sdp::Sdp;
use std::alloc::Global;
use std::marker::Model;

/// A call with an open offer; the generation before it, where there is one, works on.
#[derive(Drop)]
pub struct Offered {
    slot: u8,
    former: Option<Live>,
    side: Side,
    description: Sdp,
    keying: Keying,
}

impl Model for Offered {
    ghost use Rattle.std.specs.Prelude.{◌≤◌, length};
    ghost use Rattle.sg_leg.specs.Values.{OfferedValue};

    ghost Value = { OfferedValue };

    ghost view = { λ o. record { slot = o.slot; former = o.former; side = o.side; description = o.description; keying = o.keying } };

    ghost invariant = { λ o. length o.description.media ≤ 4 };
}

/// The number of media of the generation before.
fn media_of(former: &Option<Live>) -> Option<u8>
    ensures { result ≡ media_of former.now }
{
    match former {
        None => None,
        Some(live) => Some(live.media()),
    }
}

/// A call before its offer: its slot, and its generation, where it has one.
#[derive(Drop)]
pub(crate) struct Before {
    pub slot: u8,
    pub former: Option<Live>,
}

/// Takes an offer of a call. Memory is taken before the books change.
pub(crate) fn open(
    alloc: Global,
    before: Before,
    way: &Way,
    text: &[u8],
    noise: &[u8; 304],
    now: u64,
    books: &mut Books,
) -> Result<(Offered, Octets), Fault>
    requires moment { now ≤ 2085978495999 }
    ensures opened { IsOpened before.slot before.former (agreed_offer (at_hand before.slot (media_of before.former) noise.now now books.old) way.now text.now) result books.old books.new }
    ensures err { OnErr result (books.new ≡ books.old) }
{
    let Before { slot, former } = before;
    let side = way.side();
    let description = match describe(alloc, side, media_of(&former), text) {
        Ok(description) => description,
        Err(fault) => return Err(fault),
    };
    let opening = match keying_of(
        alloc,
        way,
        &description,
        noise,
        now,
        &books.psks,
        &books.seen,
    ) {
        Ok(opening) => opening,
        Err(fault) => {
            drop(description);
            drop(former);
            return Err(fault);
        }
    };
    let session = opening.session.as_slice();
    let Ok(out) = offered_text(alloc, slot, side, &description, session, &opening.media) else {
        drop(opening);
        drop(description);
        drop(former);
        return Err(Fault::NoMemory);
    };
    note_all(&opening.keying, &mut books.seen);
    let offered = Offered {
        slot,
        former,
        side,
        description,
        keying: opening.keying,
    };
    Ok((offered, out))
}

/// Adds what the sides of a medium are made of, behind so many keys, and tells how many keys there are then. Of an idle medium
/// nothing is added.
fn add_spec(
    medium: &Option<AgreedMedium>,
    m: u8,
    first: u32,
    count: u32,
    specs: &mut ArrayVec<MediaSpec, 4>,
) -> u32
    requires served { IsServedIf medium.now }
    requires first { first ≤ 65536 }
    requires count { count ≤ 48 }
    requires room { length specs.old.items < 4 }
    ensures next { IsNext m first medium.now (planned specs.old.items) count (planned specs.new.items) result }
    ensures few { result ≤ count + 16 }
    ensures one { length specs.new.items ≤ length specs.old.items + 1 }
{
    match medium {
        None => count,
        Some(medium) => {
            specs.push(medium.spec(m, first + count));
            count + medium.count()
        }
    }
}

/// What the sides of media are made of, where the first key has this number.
fn specs_of(media: &[Option<AgreedMedium>], first: u32) -> ArrayVec<MediaSpec, 4>
    requires few { length media.now ≤ 4 }
    requires first { first ≤ 65536 }
    requires served { All IsServedIf media.now }
    ensures { (call generation : ℕ) → ArePlanned (planned result.items) (sessions_from call generation 0 first media.now) }
{
    let mut specs = ArrayVec::new();
    let mut count = 0;
    for (m, medium) in media.iter().enumerate() {
        count = add_spec(medium, m as u8, first, count, &mut specs);
    }
    specs
}

impl Offered {
    /// The number of media.
    pub fn media(&self) -> u8
        ensures value { result ≡ length self.now.description.media }
        ensures most { result ≤ 4 }
    {
        self.description.media.len() as u8
    }

    /// The side that offered.
    pub fn side(&self) -> Side
        ensures { result ≡ self.now.side }
    {
        self.side
    }

    /// Settles the offer by the answer of the other side: tells the text for the side that offered, and what the sides of
    /// the new generation are made of; or gives the state back with the first cause why not, or out of memory, and then the
    /// books are as they were.
    pub fn settle(
        self,
        alloc: Global,
        text: &[u8],
        noise: &[u8; 304],
        books: &mut Books,
    ) -> Result<(Live, Octets, Vec<SideSpec>), (Offered, Fault)>
        requires open { (offer : Offer) × IsOpen books.old.psks self offer }
        ensures answer { (offer : Offer) (call generation : ℕ) (ring : List Installed) → IsOpen books.old.psks self offer → keys_of ring ≡ books.old.ring
            → IsAnswered (λ sides. planned_sides sides.items) self result books.new.ring (answered_with self.slot offer noise.now text.now call generation ring) }
        ensures few { IfOk result (λ r. length r.2.items ≤ 16) }
        ensures back { IfErr result (λ e. (e.0 ≡ self) × (books.new ≡ books.old)) }
        ensures others { (books.new.psks ≡ books.old.psks) × (books.new.seen ≡ books.old.seen) }
    {
        match self.new_generation(alloc, text, noise, books) {
            Ok((text, sides)) => {
                let live = Live::new(self.slot, self.media(), false);
                drop(self);
                Ok((live, text, sides))
            }
            Err(fault) => Err((self, fault)),
        }
    }

    /// The same, with what the sides are made of by medium, in a list of four at most, which lies on the stack: some 128 KB.
    pub fn answer(
        self,
        alloc: Global,
        text: &[u8],
        noise: &[u8; 304],
        books: &mut Books,
    ) -> Result<(Live, Octets, ArrayVec<MediaSpec, 4>), (Offered, Fault)>
        requires open { (offer : Offer) × IsOpen books.old.psks self offer }
        ensures answer { (offer : Offer) (call generation : ℕ) (ring : List Installed) → IsOpen books.old.psks self offer → keys_of ring ≡ books.old.ring
            → IsAnswered (λ specs. planned specs.items) self result books.new.ring (answered_with self.slot offer noise.now text.now call generation ring) }
        ensures back { IfErr result (λ e. (e.0 ≡ self) × (books.new ≡ books.old)) }
        ensures others { (books.new.psks ≡ books.old.psks) × (books.new.seen ≡ books.old.seen) }
    {
        match self.new_specs(alloc, text, noise, books) {
            Ok((text, specs)) => {
                let live = Live::new(self.slot, self.media(), false);
                drop(self);
                Ok((live, text, specs))
            }
            Err(fault) => Err((self, fault)),
        }
    }

    /// The text for the side that offered, and what the sides of the new generation are made of. Memory is taken before the
    /// ring changes.
    fn new_generation(
        &self,
        alloc: Global,
        text: &[u8],
        noise: &[u8; 304],
        books: &mut Books,
    ) -> Result<(Octets, Vec<SideSpec>), Fault>
        requires open { (offer : Offer) × IsOpen books.old.psks self.now offer }
        ensures given { (offer : Offer) (call generation : ℕ) (ring : List Installed) → IsOpen books.old.psks self.now offer → keys_of ring ≡ books.old.ring
            → IsAgreed (λ sides. planned_sides sides.items) result books.new.ring (answered_with self.now.slot offer noise.now text.now call generation ring) }
        ensures few { IfOk result (λ r. length r.1.items ≤ 16) }
        ensures err { OnErr result (books.new ≡ books.old) }
        ensures others { (books.new.psks ≡ books.old.psks) × (books.new.seen ≡ books.old.seen) }
    {
        let (text, media) = match self.read_answer(alloc, text, noise, &books.psks) {
            Ok(agreed) => agreed,
            Err(fault) => return Err(fault),
        };
        match settle(alloc, media.as_slice(), &mut books.ring) {
            Ok(sides) => Ok((text, sides)),
            Err(fault) => Err(fault),
        }
    }

    /// The same, by medium.
    fn new_specs(
        &self,
        alloc: Global,
        text: &[u8],
        noise: &[u8; 304],
        books: &mut Books,
    ) -> Result<(Octets, ArrayVec<MediaSpec, 4>), Fault>
        requires open { (offer : Offer) × IsOpen books.old.psks self.now offer }
        ensures given { (offer : Offer) (call generation : ℕ) (ring : List Installed) → IsOpen books.old.psks self.now offer → keys_of ring ≡ books.old.ring
            → IsAgreed (λ specs. planned specs.items) result books.new.ring (answered_with self.now.slot offer noise.now text.now call generation ring) }
        ensures err { OnErr result (books.new ≡ books.old) }
        ensures others { (books.new.psks ≡ books.old.psks) × (books.new.seen ≡ books.old.seen) }
    {
        let (text, media) = match self.read_answer(alloc, text, noise, &books.psks) {
            Ok(agreed) => agreed,
            Err(fault) => return Err(fault),
        };
        let first = books.ring.count();
        match settle(alloc, media.as_slice(), &mut books.ring) {
            Ok(sides) => {
                drop(sides);
                Ok((text, specs_of(media.as_slice(), first)))
            }
            Err(fault) => Err(fault),
        }
    }

    /// Reads the answer and decides: the text for the side that offered, and what is agreed of each medium, or the
    /// first cause why not. It isn't inlined, so that its frame is gone when keys are put into the ring.
    #[inline(never)]
    fn read_answer(
        &self,
        alloc: Global,
        text: &[u8],
        noise: &[u8; 304],
        psks: &PskBook,
    ) -> Result<(Octets, Items<Option<AgreedMedium>>), Fault>
        requires open { (offer : Offer) × IsOpen psks.now self.now offer }
        ensures agreed { (offer : Offer) → IsOpen psks.now self.now offer → IsAnswerOf (answer_of result) (agreed_answer self.now.slot offer noise.now text.now) }
        ensures few { IfOk result (λ r. length r.1 ≤ 4) }
        ensures served { IfOk result (λ r. All IsServedIf r.1) }
    {
        agreements_are_sound();
        let offered = self.description.media.as_slice();
        let side = other_side(self.side);
        let answer = match describe(alloc, side, Some(self.media()), text) {
            Ok(answer) => answer,
            Err(fault) => return Err(fault),
        };
        let active = actives_after(self.side, offered, answer.media.as_slice());
        let keyed = match self.keyed_media(alloc, noise, &answer, active.as_slice(), psks) {
            Ok(keyed) => keyed,
            Err(fault) => return Err(fault),
        };
        match self.text_and_media(alloc, &answer, active.as_slice(), &keyed) {
            Ok(agreed) => Ok(agreed),
            Err(NoMemory) => Err(Fault::NoMemory),
        }
    }

    /// How each medium of an answer is keyed, by what was kept of the offer's keying.
    fn keyed_media(
        &self,
        alloc: Global,
        noise: &[u8; 304],
        answer: &Sdp,
        active: &[bool],
        psks: &PskBook,
    ) -> Result<Answered, Fault>
        requires open { (offer : Offer) × IsOpen psks.now self.now offer }
        requires answers { length answer.now.media ≡ length self.now.description.media }
        requires actives { length active.now ≡ length self.now.description.media }
        ensures { (offer : Offer) → IsOpen psks.now self.now offer → Tells result (answered_by offer noise.now answer.now active.now offer.keying) }
    {
        crypto_lines_are_read_again();
        message_law();
        let media = answer.media.as_slice();
        let offered = self.description.media.as_slice();
        match &self.keying {
            Keying::PeerLines(lines) => {
                let media = answered_by_peer_lines(alloc, noise, active, lines.as_slice(), media);
                of_media(alloc, media)
            }
            Keying::OwnLines(lines) => {
                let media = answered_by_own_lines(alloc, active, lines.as_slice(), media);
                of_media(alloc, media)
            }
            Keying::PeerMessage(bundle) => {
                match by_session_message(alloc, psks, self.side, offered, media, bundle, active) {
                    Ok(answered) => Ok(answered),
                    Err(NoMemory) => Err(Fault::NoMemory),
                }
            }
            Keying::PeerMessages(bundles) => {
                match by_media_messages(alloc, psks, bundles.as_slice(), media, active) {
                    Ok(media) => of_media(alloc, Ok(media)),
                    Err(NoMemory) => Err(Fault::NoMemory),
                }
            }
            Keying::OwnMessage(waiting) => {
                by_response(alloc, psks, self.side, offered, answer, waiting, active)
            }
        }
    }

    /// The text for the side that offered, and what is agreed of each medium, once they are keyed.
    fn text_and_media(
        &self,
        alloc: Global,
        answer: &Sdp,
        active: &[bool],
        keyed: &Answered,
    ) -> Result<(Octets, Items<Option<AgreedMedium>>), NoMemory>
        requires answers { length answer.now.media ≡ length self.now.description.media }
        requires actives { length active.now ≡ length self.now.description.media }
        requires keyed { length keyed.now.media ≡ length self.now.description.media }
        requires addressed { AreAddressed self.now.description.media answer.now.media keyed.now.media }
        ensures text { IfOk result (λ r. r.0 ≡ carried_text (ports_from self.now.slot 0 self.now.side active.now) (map (λ (m : descriptions.Medium). m.profile) self.now.description.media)
            (record { session = keyed.now.session; media = map lines_of keyed.now.media }) answer.now) }
        ensures media { IfOk result (λ r. r.1 ≡ media_agreed self.now.side self.now.description.media answer.now.media keyed.now.media) }
    {
        let offered = self.description.media.as_slice();
        let text = answered_text(alloc, self.slot, self.side, offered, answer, active, keyed)?;
        let media = keyed.media.as_slice();
        let agreed = media_agreed(alloc, self.side, offered, answer.media.as_slice(), media)?;
        Ok((text, Items::from_vec(agreed)))
    }

    /// The offer is rejected: the call goes on under the generation before, or ends.
    pub fn reject(self) -> Result<Live, Ended>
        ensures { MatchResult result (λ live. self.former ≡ Some live) (λ _. self.former ≡ None) }
    {
        let Offered {
            former,
            description,
            keying,
            ..
        } = self;
        drop(keying);
        drop(description);
        match former {
            Some(live) => Ok(live),
            None => Err(Ended),
        }
    }

    /// The call ends.
    pub fn bye(self) -> Ended {
        drop(self);
        Ended
    }
}
