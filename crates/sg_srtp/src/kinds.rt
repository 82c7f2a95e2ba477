//! The two kinds of packets as types, and what is of one of them.

ghost use Rattle.std.specs.Prelude.{◌≡◌, ⊤, Some, IfOk};
ghost use Rattle.sg_base.specs.declared.addresses.Kind.{Kind};
ghost use Rattle.sg_base.specs.declared.addresses.Kind.TheVariants as kind;
ghost use Rattle.sg_srtp.specs.Bits.{HasBits};

use sg_base::{Kind, Pad};
use sg_states::{Stream, inbound, outbound};
use std::marker::{Model, PhantomData};

/// One of the two kinds.
pub trait OneKind: Drop {
    ghost kind: { Kind };

    /// The kind as a value.
    fn kind() -> Kind
        ensures { result ≡ kind };
}

/// SRTP.
#[derive(Drop)]
pub struct Rtp;

/// SRTCP.
#[derive(Drop)]
pub struct Rtcp;

impl OneKind for Rtp {
    ghost kind = { kind.Rtp };

    fn kind() -> Kind {
        Kind::Rtp
    }
}

impl OneKind for Rtcp {
    ghost kind = { kind.Rtcp };

    fn kind() -> Kind {
        Kind::Rtcp
    }
}

/// What may be of a kind.
pub trait HasKind {
    ghost is_of: { Kind → Self → Type 0 };
}

impl HasKind for Pad {
    ghost is_of = { λ k p. ⊤ };
}

impl HasKind for inbound::Headed {
    ghost is_of = { λ k h. h.kind ≡ k };
}

impl HasKind for inbound::Keyed {
    ghost is_of = { λ k s. s.headed.kind ≡ k };
}

impl HasKind for inbound::Placed {
    ghost is_of = { λ k p. (p.keyed.headed.kind ≡ k) × HasBits k (Some p.index) };
}

impl HasKind for inbound::Verified {
    ghost is_of = { λ k v. (v.keyed.headed.kind ≡ k) × HasBits k (Some v.index) };
}

impl HasKind for outbound::Headed {
    ghost is_of = { λ k h. h.kind ≡ k };
}

impl HasKind for outbound::Numbered {
    ghost is_of = { λ k n. n.headed.kind ≡ k };
}

impl HasKind for Stream {
    ghost is_of = { λ k s. (s.kind ≡ k) × HasBits k s.highest };
}

/// A state, or a stream, of one kind by its type, seen as the state alone. It can be dropped where the state can be.
#[derive(Drop)]
pub struct Typed<S: HasKind, K: OneKind> {
    pub(crate) state: S,
    pub(crate) kind: PhantomData<K>,
}

impl<S: HasKind, K: OneKind> Model for Typed<S, K> {
    ghost Value = { S };

    ghost view = { λ t. t.state };

    ghost invariant = { λ t. S.is_of K.kind t.state };
}

/// A state's answer, as that of the state of one kind.
pub(crate) fn of_kind<S: HasKind, K: OneKind, F>(answer: Result<S, F>) -> Result<Typed<S, K>, F>
    requires { IfOk answer (S.is_of K.kind) }
    ensures { result ≡ answer }
{
    match answer {
        Ok(state) => Ok(Typed {
            state,
            kind: PhantomData,
        }),
        Err(fault) => Err(fault),
    }
}
