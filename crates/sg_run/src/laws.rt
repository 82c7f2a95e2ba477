//! Runs, by what their words ask, and what they write.

ghost use Rattle.std.specs.Prelude.{ℕ, Bool, List};
ghost use Rattle.sg_demo.specs.Demonstration.{demonstration, events_shown};
ghost use Rattle.sg_gateway.specs.Step.{Event};
ghost use Rattle.sg_migrate.specs.Migration.{IsMigration, MigrationTellings};
ghost use Rattle.sg_mux.specs.Via.{events_in, passages_in};
ghost use Rattle.sg_outcome.specs.declared.outcomes.Outcome.{Outcome};
ghost use Rattle.sg_pairs.specs.declared.outcomes.BridgeOutcome.{BridgeOutcome};
ghost use Rattle.sg_run.specs.ByOption.{GoesByOption};
ghost use Rattle.sg_run.specs.Counted.{CountsWhatIsTold};
ghost use Rattle.sg_run.specs.LineWords.{SaysWhatABridgeTells, SaysWhatIsTold};
ghost use Rattle.sg_run.specs.Migrates.{WritesMigrated};
ghost use Rattle.sg_trace.specs.declared.status.Status.{Status};

/// With `--mux` RTCP that comes to a port of RTP is taken at the next one, and leaves by it, on the legs that share their ports by
/// what the run told so far, and the text of an answer has the line in each medium whose leg shares its port behind it. Without the
/// option all comes as it is, leaves by its own port and is told as the gateway tells it.
pub fn runs_go_by_their_option()
    ensures { (muxes : Bool) (came : List Event) → GoesByOption muxes came (events_in muxes came) (passages_in muxes came) }
{
    sg_mux::ports_are_shared_as_told();
    sg_mux::told_texts_are_descriptions();
}

/// The line of each outcome has the words that stand for what it tells: a text's side, why a call ended, why a datagram was
/// dropped, a signal refused, or a call not joined.
pub fn lines_say_what_is_told()
    ensures says { (told : Outcome) → SaysWhatIsTold told }
    ensures bridge_says { (told : BridgeOutcome) → SaysWhatABridgeTells told }
{}

/// A migration that is done has written the script of version 2 of all that it read, and one that ends before that of its first
/// lines, and of one more a prefix.
pub fn migrations_write_what_is_migrated()
    ensures { (status : Status) (old new : MigrationTellings) (octets out : List ℕ) → IsMigration status old new octets out → WritesMigrated status octets out }
{}

/// A demonstration's numbers count its events at the gateway, and what is told of them.
pub fn demonstrations_count_what_is_told()
    ensures { (calls start : ℕ) → CountsWhatIsTold calls (demonstration calls start) (events_shown calls start) }
{}
