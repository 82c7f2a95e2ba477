//! The top call.

ghost use Rattle.std.specs.Prelude.{◌≡◌, ◌⊎◌, ◌≤◌, ◌+◌, ◌^◌, ℕ, List, length, map, string_bytes, None};
ghost use Rattle.sg_audit.specs.Pages.{AuditorsPages};
ghost use Rattle.sg_audit.specs.Seen.{seen_of};
ghost use Rattle.sg_base.specs.declared.addresses.Address.{Address};
ghost use Rattle.sg_base.specs.declared.addresses.CallId.{CallId};
ghost use Rattle.sg_trace.specs.CaptureHolds.{CaptureHolds};
ghost use Rattle.sg_trace.specs.Causes.{EndedBy, HasFailed};
ghost use Rattle.sg_trace.specs.Loop.{IsWant};
ghost use Rattle.sg_trace.specs.Trace.{replayed};
ghost use Rattle.sg_gateway.specs.Octets.{Octets};
ghost use Rattle.sg_gateway.specs.Runs.{outcomes};
ghost use Rattle.sg_gateway.specs.Step.{Event};
ghost use Rattle.sg_migrate.specs.Migrated.{IsOfVersionOne, migrated};
ghost use Rattle.sg_migrate.specs.VersionTwo.{IsVersionTwo, TicksFirst};
ghost use Rattle.sg_mux.specs.Lined.{IsToldWithLines};
ghost use Rattle.sg_mux.specs.Sharing.{SharesAsTold};
ghost use Rattle.sg_outcome.specs.declared.outcomes.Outcome.{Outcome};
ghost use Rattle.sg_pairs.specs.declared.outcomes.BridgeOutcome.{BridgeOutcome};
ghost use Rattle.sg_passages.specs.Headline.{Headline};
ghost use Rattle.sg_passages.specs.Passages.{Passage};
ghost use Rattle.sg_run.specs.LineWords.{SaysWhatABridgeTells, SaysWhatIsTold};
ghost use Rattle.sg_run.specs.Run.{HasRun, LeavesOthersAlone, PlaysInBatches};
ghost use Rattle.sg_words.specs.Commands.{IsNoCommand};

use crate::laws::{
    demonstrations_count_what_is_told, lines_say_what_is_told, migrations_write_what_is_migrated,
    runs_go_by_their_option,
};
use sg_audit::the_pages_hold;
use sg_bridge::{bridge, scripts_without_joins_are_replayed};
use sg_capture::capture;
use sg_demo::demo;
use sg_edge::{Clock, Link, Noise, Sink, Source};
use sg_lanes::Gate;
use sg_migrate::{
    migrate, migrated_scripts_are_of_version_two, migrated_scripts_tell_the_same,
    moments_of_datagrams_are_ticks,
};
use sg_mux::{
    legs_are_muxed_by_their_texts, ports_are_shared_as_told, shared_ports_are_faithful,
    told_texts_are_descriptions,
};
use sg_pairs::the_bridge_holds;
use sg_passages::{a_plain_run_is_faithful, the_headline_holds};
use sg_playback::{Workers, replay};
use sg_relay::{RelayOptions, relay, relay_joined};
use sg_trace::{Status, the_capture_holds};
use sg_words::{Command, CommandFault, read_command};
use std::alloc::Global;
use std::thread::Threads;

/// Runs the command that the words name. `replay` plays the script of the source, writes what it tells to the
/// sink, and draws the noise that its signals lack; the link and the clock aren't touched. `relay` handles
/// its lines likewise, and at a `tick` line it takes what the link receives and sends what goes out, until the clock
/// says that the moment has come, or its turns are spent. With `--mux` these two let RTP and RTCP share a port where offer
/// and answer agree on it (RFC 5761). With `--bridge` the calls of a relay may be joined, as those of a `bridge`. `bridge`
/// plays a script whose calls may be joined: what one of the two opens, the other seals, or it is told as lost. `demo` writes
/// the numbers of a demonstration. `migrate` writes the script of version 1 that the source holds as one of version 2.
/// `capture` plays a script and the capture behind it, whose datagrams come at the moments of their records. A status tells
/// whose failure ended the run; `NoMemory` may come anywhere. Words that are no command are answered `Usage`, or `NoMemory`
/// where there is none to read them, and then nothing is touched. Of the source at most 2^30 + 1 octets are read.
pub fn run<R: Threads + Sync, S: Source, K: Sink, L: Link, C: Clock, N: Noise, G: Gate + Sync>(
    rt: &R,
    alloc: Global,
    words: &[String],
    source: &mut S,
    sink: &mut K,
    link: &mut L,
    clock: &mut C,
    noise: &mut N,
    gate: &G,
) -> Status
    ensures ran { (events : List Event)
        × (passages : List Passage)
        × HasRun (map string_bytes words.now) result
        (record {
          left = S.left source.old;
          written = K.written sink.old;
          calls = L.told link.old;
          readings = C.given clock.old;
          drawn = N.given noise.old;
          failures = record { source = S.faults source.old; sink = K.faults sink.old; link = L.faults link.old; clock = C.faults clock.old; noise = N.faults noise.old };
        })
        (record {
          left = S.left source.new;
          written = K.written sink.new;
          calls = L.told link.new;
          readings = C.given clock.new;
          drawn = N.given noise.new;
          failures = record { source = S.faults source.new; sink = K.faults sink.new; link = L.faults link.new; clock = C.faults clock.new; noise = N.faults noise.new };
        })
        events passages
        × Headline events passages
        × AuditorsPages (map seen_of passages) }
    ensures given { (S.left source.new).count ≤ (S.left source.old).count + (2 ^ 30 + 1) }
    ensures usage { result ≡ Status.Usage → IsNoCommand (map string_bytes words.now) }
    ensures no_command { IsNoCommand (map string_bytes words.now) → ((result ≡ Status.Usage) ⊎ (result ≡ Status.NoMemory))
        × (source.new ≡ source.old) × (sink.new ≡ sink.old) × (link.new ≡ link.old) × (clock.new ≡ clock.old) × (noise.new ≡ noise.old) }
    ensures alone { LeavesOthersAlone (map string_bytes words.now)
        (record { source = source.old; sink = sink.old; link = link.old; clock = clock.old; noise = noise.old })
        (record { source = source.new; sink = sink.new; link = link.new; clock = clock.new; noise = noise.new }) }
    ensures migrated_alike { (octets draws : List ℕ) → IsOfVersionOne octets → length (migrated octets) ≤ 2 ^ 30
        → outcomes (replayed (migrated octets) draws).events ≡ outcomes (replayed octets draws).events }
    ensures migrated_two { (octets : List ℕ) → IsVersionTwo octets }
    ensures captures { (octets draws : List ℕ) → CaptureHolds octets draws }
    ensures shares { (before : List Event) (port : ℕ) (from : Address) (octets : Octets) → SharesAsTold before port from octets }
    ensures texts { (before : List Event) (id : CallId) (noise answer : List ℕ) → IsToldWithLines before id noise answer }
    ensures says { (told : Outcome) → SaysWhatIsTold told }
    ensures bridge_says { (told : BridgeOutcome) → SaysWhatABridgeTells told }
    ensures datagrams_tick { (moment port : ℕ) (from : Address) (octets : List ℕ) → TicksFirst moment port from octets }
    ensures read { EndedBy (result ≡ Status.Read) (PlaysInBatches (map string_bytes words.now) × IsWant result) (S.faults source.old) (S.faults source.new) (S.failed source.new) }
    ensures write { HasFailed (result ≡ Status.Write) (K.faults sink.old) (K.faults sink.new) (K.failed sink.new) }
    ensures link { HasFailed (result ≡ Status.Link) (L.faults link.old) (L.faults link.new) None }
    ensures clock { HasFailed (result ≡ Status.Clock) (C.faults clock.old) (C.faults clock.new) (C.failed clock.new) }
    ensures noise { HasFailed (result ≡ Status.Noise) (N.faults noise.old) (N.faults noise.new) (N.failed noise.new) }
{
    the_headline_holds();
    the_pages_hold();
    a_plain_run_is_faithful();
    shared_ports_are_faithful();
    legs_are_muxed_by_their_texts();
    ports_are_shared_as_told();
    told_texts_are_descriptions();
    runs_go_by_their_option();
    lines_say_what_is_told();
    migrations_write_what_is_migrated();
    demonstrations_count_what_is_told();
    the_capture_holds();
    the_bridge_holds();
    scripts_without_joins_are_replayed();
    migrated_scripts_tell_the_same();
    migrated_scripts_are_of_version_two();
    moments_of_datagrams_are_ticks();
    let command = match read_command(alloc, words) {
        Err(CommandFault::Usage) => return Status::Usage,
        Err(CommandFault::NoMemory) => return Status::NoMemory,
        Ok(command) => command,
    };
    match command {
        Command::Replay { workers, mux } => {
            let workers = Workers {
                rt,
                count: workers,
                gate,
            };
            replay(&workers, alloc, mux, source, sink, noise)
        }
        Command::Relay { turns, mux } => {
            let options = RelayOptions { turns, muxes: mux };
            relay(alloc, options, source, sink, link, clock, noise)
        }
        Command::RelayJoined { turns } => {
            relay_joined(alloc, turns, source, sink, link, clock, noise)
        }
        Command::Demo {
            calls,
            start,
            workers,
        } => demo(rt, alloc, calls, start, workers, sink, gate),
        Command::Migrate => migrate(alloc, source, sink),
        Command::Capture => capture(rt, alloc, source, sink, noise, gate),
        Command::Bridge => bridge(alloc, source, sink, noise),
    }
}
