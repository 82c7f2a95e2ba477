//! The laws on what is migrated: their clauses are facts about the definitions, and they call the laws that they rest on.

ghost use Rattle.std.specs.Prelude.{◌≡◌, ◌≤◌, ◌^◌, ℕ, List, length};
ghost use Rattle.sg_gateway.specs.Runs.{outcomes};
ghost use Rattle.sg_base.specs.declared.addresses.Address.{Address};
ghost use Rattle.sg_migrate.specs.Migrated.{IsOfVersionOne, migrated};
ghost use Rattle.sg_migrate.specs.VersionTwo.{IsVersionTwo, TicksFirst};
ghost use Rattle.sg_trace.specs.Trace.{replayed};

/// A script that doesn't begin with the line `srtpgw 2`, and what it is migrated to, are played alike where the latter has
/// at most 2^30 octets: whatever is drawn, their replays tell the same outcomes.
pub fn migrated_scripts_tell_the_same()
    ensures { (octets draws : List ℕ) → IsOfVersionOne octets → length (migrated octets) ≤ 2 ^ 30
        → outcomes (replayed (migrated octets) draws).events ≡ outcomes (replayed octets draws).events }
{
    sg_lines::lines_have_one_spelling();
    sg_lines::lines_are_framed();
    sg_gateway::a_moment_comes_once();
}

/// What is migrated is a script of version 2: where anything is written, it begins with the line `srtpgw 2`; and where it
/// has at most 2^30 octets, a replay finds no line of it outside the grammar, whatever is drawn. Of a script that begins
/// with that line already nothing is written: its first line is `Version`.
pub fn migrated_scripts_are_of_version_two()
    ensures { (octets : List ℕ) → IsVersionTwo octets }
{
    sg_lines::lines_have_one_spelling();
    sg_lines::lines_are_framed();
}

/// The moment of a datagram's line is a tick, and then the datagram comes as by a line of version 1.
pub fn moments_of_datagrams_are_ticks()
    ensures { (moment port : ℕ) (from : Address) (octets : List ℕ) → TicksFirst moment port from octets }
{}
