//! The laws of session descriptions, over the definitions alone.

ghost use Rattle.std.specs.Prelude.{◌≡◌, ◌≤◌, ◌<◌, ℕ, List, length, false, Ok};
ghost use Rattle.std.specs.List.{AllByRecursion};
ghost use Rattle.sg_sdp.specs.Carrying.{carried, is_one_sided};
ghost use Rattle.sg_sdp.specs.Descriptions.{IsKept, IsSdp, IsShort, IsWithinLimits, Spells, all_lines, spelling};
ghost use Rattle.sg_sdp.specs.LineForm.{is_letter};
ghost use Rattle.sg_sdp.specs.Parts.{with_media_line, with_session_line};
ghost use Rattle.sg_sdp.specs.Reading.{description_of, description_within};
ghost use Rattle.sg_sdp.specs.declared.medium.Profile.{Profile};
ghost use Rattle.sg_sdp.specs.declared.sdp.Sdp.{Sdp};

/// A text has at most one value, and a value's printed spelling is one of its texts. So what is printed is
/// read as that value again, within the limits of what is read and beyond them.
pub fn descriptions_have_one_value()
    // What a text spells is read of it, where no line has more than so many octets.
    ensures again { (most : ℕ) (text : List ℕ) (s : Sdp) → IsSdp s → Spells (all_lines s) text
        → AllByRecursion (IsShort most) (all_lines s) → description_within most text ≡ Ok s }
    // What is read of a text is spelled by it.
    ensures takes { (most : ℕ) (text : List ℕ) (s : Sdp) → description_within most text ≡ Ok s
        → IsSdp s × Spells (all_lines s) text × AllByRecursion (IsShort most) (all_lines s) }
    ensures one { (text : List ℕ) (s t : Sdp) → IsSdp s → IsSdp t → Spells (all_lines s) text → Spells (all_lines t) text → s ≡ t }
    ensures printed { (s : Sdp) → Spells (all_lines s) (spelling s) }
    ensures printed_again { (s : Sdp) → IsSdp s → IsWithinLimits s (spelling s) → description_of (spelling s) ≡ Ok s }
{}

/// What is carried is a description again, but for the limits of its text and lines, and has none of the
/// attributes that hold for one side alone.
pub fn a_carried_text_is_a_description()
    ensures valid { (ports : List ℕ) (profiles : List Profile) (s : Sdp) → IsSdp s → AllByRecursion (λ port. port ≤ 65535) ports
        → IsSdp (carried ports profiles s) }
    ensures two_sided { (ports : List ℕ) (profiles : List Profile) (s : Sdp)
        → AllByRecursion (λ line. is_one_sided line ≡ false) (all_lines (carried ports profiles s)) }
{}

/// A line more leaves a description one, where it has the form of a line and is neither an `m=` line nor a
/// `c=` line.
pub fn a_description_stays_one()
    ensures session { (s : Sdp) (line : List ℕ) → IsSdp s → IsKept line → is_letter 99 line ≡ false → IsSdp (with_session_line line s) }
    ensures medium { (s : Sdp) (medium : ℕ) (line : List ℕ) → IsSdp s → IsKept line → is_letter 99 line ≡ false
        → IsSdp (with_media_line medium line s) }
{}
