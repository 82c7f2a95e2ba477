//! Laws of the definitions, for callers' proofs: each function's contract is a law, and its body is empty.

ghost use Rattle.std.specs.Prelude.{◌≡◌, ◌+◌, ℕ, List, Ok, length};
ghost use Rattle.sg_mikey.specs.declared.chain.Stage.{Stage};
ghost use Rattle.sg_mikey.specs.declared.message.Message.{Message};
ghost use Rattle.sg_mikey.specs.Reading.{chain_at, items_at, message_of};
ghost use Rattle.sg_mikey.specs.Spelling.{AreOctets, IsMessage, message_octets};

/// A message's octets are read as that message, and what is read is a message and spelled so.
pub fn message_law()
    ensures again { (m : Message) → IsMessage m → message_of (message_octets m) ≡ Ok m }
    ensures found { (octets : List ℕ) (m : Message) → AreOctets octets → message_of octets ≡ Ok m
        → IsMessage m × (octets ≡ message_octets m) }
{}

/// The definition counts its steps, and as many as there are octets are enough: more change nothing.
pub fn steps_law()
    ensures chain { (more kind : ℕ) (stage : Stage) (next : ℕ) (octets : List ℕ) → AreOctets octets
        → chain_at (length octets + 1 + more) kind stage next octets
        ≡ chain_at (length octets + 1) kind stage next octets }
    ensures items { (more room : ℕ) (octets : List ℕ)
        → items_at (room + more) room octets ≡ items_at room room octets }
{}
