//! What the sides of a medium are made of, one by one.

ghost use Rattle.std.specs.Prelude.{◌≡◌, ◌≤◌, ◌<◌, ◌+◌, ◌++◌, ℕ, List, true, false, [], ◌∷◌, Some, length, vec_len, vec_capacity};
ghost use Rattle.sg_agreement.specs.Generations.{sessions_from};
ghost use Rattle.sg_keys.specs.declared.spec.SessionSpec.{SessionSpec};
ghost use Rattle.sg_leg.specs.Planned.{ArePlanned, IsMadeFor, Planned, planned_for, planned_sides};
ghost use Rattle.sg_leg.specs.Served.{IsServedMedium};

use crate::SideSpec;
use crate::media::AgreedMedium;
use sg_base::{Kind, WINDOW_MOST};
use sg_session::Direction;

impl AgreedMedium {
    /// Adds what its sides are made of, whose keys' numbers begin at `first`: those that open, then those that seal, RTP
    /// before RTCP. They are two or four.
    pub(crate) fn add_sides(&self, medium: u8, first: u32, sides: &mut Vec<SideSpec>)
        requires served { IsServedMedium self.now }
        requires numbers { first + length self.now.from_peer.keys ≤ 65600 }
        requires room { vec_len sides.old + 4 ≤ vec_capacity sides.old }
        ensures added { (these : List Planned) × (planned_sides sides.new.items ≡ planned_sides sides.old.items ++ these)
            × ((call generation : ℕ) → ArePlanned these (sessions_from call generation medium first (Some self.now ∷ []))) }
        ensures four { vec_len sides.new ≤ vec_len sides.old + 4 }
        ensures capacity { vec_capacity sides.new ≡ vec_capacity sides.old }
    {
        if self.has_rtcp {
            self.add_all(medium, first, sides);
        } else {
            self.add_rtp(medium, first, sides);
        }
    }

    fn add_all(&self, medium: u8, first: u32, sides: &mut Vec<SideSpec>)
        requires served { IsServedMedium self.now }
        requires numbers { first + length self.now.from_peer.keys ≤ 65600 }
        requires room { vec_len sides.old + 4 ≤ vec_capacity sides.old }
        requires rtcp { self.now.has_rtcp ≡ true }
        ensures added { (these : List Planned) × (planned_sides sides.new.items ≡ planned_sides sides.old.items ++ these)
            × ((call generation : ℕ) → ArePlanned these (sessions_from call generation medium first (Some self.now ∷ []))) }
        ensures four { vec_len sides.new ≡ vec_len sides.old + 4 }
        ensures capacity { vec_capacity sides.new ≡ vec_capacity sides.old }
    {
        let second = first + self.from_peer.count();
        self.add_opening(medium, Kind::Rtp, first, sides);
        self.add_opening(medium, Kind::Rtcp, first, sides);
        self.add_sealing(medium, Kind::Rtp, second, sides);
        self.add_sealing(medium, Kind::Rtcp, second, sides);
    }

    fn add_rtp(&self, medium: u8, first: u32, sides: &mut Vec<SideSpec>)
        requires served { IsServedMedium self.now }
        requires numbers { first + length self.now.from_peer.keys ≤ 65600 }
        requires room { vec_len sides.old + 4 ≤ vec_capacity sides.old }
        requires no_rtcp { self.now.has_rtcp ≡ false }
        ensures added { (these : List Planned) × (planned_sides sides.new.items ≡ planned_sides sides.old.items ++ these)
            × ((call generation : ℕ) → ArePlanned these (sessions_from call generation medium first (Some self.now ∷ []))) }
        ensures two { vec_len sides.new ≡ vec_len sides.old + 2 }
        ensures capacity { vec_capacity sides.new ≡ vec_capacity sides.old }
    {
        let second = first + self.from_peer.count();
        self.add_opening(medium, Kind::Rtp, first, sides);
        self.add_sealing(medium, Kind::Rtp, second, sides);
    }

    /// Adds the side that opens what the peer sends of this kind. What it is made of has some 8,000 octets, so it is made
    /// in a frame of its own.
    #[inline(never)]
    fn add_opening(&self, medium: u8, kind: Kind, first: u32, sides: &mut Vec<SideSpec>)
        requires served { IsServedMedium self.now }
        requires rtcp { kind ≡ Kind.Rtcp → self.now.has_rtcp ≡ true }
        requires numbers { first ≤ 65600 }
        requires room { vec_len sides.old < vec_capacity sides.old }
        ensures added { (spec : SessionSpec) × (planned_sides sides.new.items ≡ planned_sides sides.old.items ++ planned_for self.now medium Direction.Opening spec ∷ [])
            × IsMadeFor self.now.from_peer kind first self.now.window spec }
        ensures one { vec_len sides.new ≡ vec_len sides.old + 1 }
        ensures capacity { vec_capacity sides.new ≡ vec_capacity sides.old }
    {
        let spec = self.from_peer.spec(kind, first, self.window);
        sides.push_reserved(SideSpec {
            medium,
            direction: Direction::Opening,
            spec,
            secure: self.secure,
            plain: self.plain,
        });
    }

    /// Adds the side that seals what is sent to the peer of this kind, as `add_opening` does.
    #[inline(never)]
    fn add_sealing(&self, medium: u8, kind: Kind, first: u32, sides: &mut Vec<SideSpec>)
        requires served { IsServedMedium self.now }
        requires rtcp { kind ≡ Kind.Rtcp → self.now.has_rtcp ≡ true }
        requires numbers { first ≤ 65600 }
        requires room { vec_len sides.old < vec_capacity sides.old }
        ensures added { (spec : SessionSpec) × (planned_sides sides.new.items ≡ planned_sides sides.old.items ++ planned_for self.now medium Direction.Sealing spec ∷ [])
            × IsMadeFor self.now.to_peer kind first 1024 spec }
        ensures one { vec_len sides.new ≡ vec_len sides.old + 1 }
        ensures capacity { vec_capacity sides.new ≡ vec_capacity sides.old }
    {
        let spec = self.to_peer.spec(kind, first, WINDOW_MOST);
        sides.push_reserved(SideSpec {
            medium,
            direction: Direction::Sealing,
            spec,
            secure: self.secure,
            plain: self.plain,
        });
    }
}
