//! Laws of heads, for callers' proofs: each function's contract is a law, and its body is empty.

ghost use Rattle.std.specs.Prelude.{◌≡◌, ℕ, ◌↔◌, ◌≤◌, List, Ok, length, take};
ghost use Rattle.sg_rtp.specs.Heads.{rtp_head, rtcp_head, IsRtpHead, IsRtcpHead};
ghost use Rattle.sg_rtp.specs.declared.heads.RtpHead.{RtpHead};
ghost use Rattle.sg_rtp.specs.declared.heads.RtcpHead.{RtcpHead};

/// An RTP head lies inside its packet, and it is read from the head's own octets alone.
pub fn rtp_head_law()
    ensures head { (o : List ℕ) (head : RtpHead) → (rtp_head o ≡ Ok head) ↔ IsRtpHead o head }
    ensures bounds { (o : List ℕ) (head : RtpHead) → rtp_head o ≡ Ok head
        → (12 ≤ head.length) × (head.length ≤ length o) }
    ensures prefix { (o p : List ℕ) (head : RtpHead) → rtp_head o ≡ Ok head
        → take head.length p ≡ take head.length o → rtp_head p ≡ Ok head }
{}

/// An RTCP head is read from the first 8 octets alone.
pub fn rtcp_head_law()
    ensures head { (o : List ℕ) (head : RtcpHead) → (rtcp_head o ≡ Ok head) ↔ IsRtcpHead o head }
    ensures bounds { (o : List ℕ) (head : RtcpHead) → rtcp_head o ≡ Ok head → 8 ≤ length o }
    ensures prefix { (o p : List ℕ) (head : RtcpHead) → rtcp_head o ≡ Ok head
        → take 8 p ≡ take 8 o → rtcp_head p ≡ Ok head }
{}
