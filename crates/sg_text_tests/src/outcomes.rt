//! Outcome lines, read and printed.

use sg_script::{ReadLineFault, ScriptFault, print_outcome, read_outcome};
use std::alloc::Global;
use std::process::Abort;

/// The fault of an outcome line; none where it is one, which must then be printed as it was.
fn fault_of(rt: &impl Abort, alloc: Global, octets: &[u8]) -> Option<ScriptFault> {
    match read_outcome(alloc, octets) {
        Ok(outcome) => {
            let printed = print_outcome(alloc, &outcome).ok().expect(rt, "memory");
            assert!(rt; printed.as_slice() == octets);
            None
        }
        Err(ReadLineFault::Script(fault)) => Some(fault),
        Err(ReadLineFault::NoMemory) => {
            assert!(rt; false, "memory");
            None
        }
    }
}

/// The first have these faults, and the others are outcomes.
fn have_faults(rt: &impl Abort, alloc: Global, bad: &[(&[u8], ScriptFault)], good: &[&[u8]]) {
    for (row, fault) in bad {
        assert!(rt; fault_of(rt, alloc, row) == Some(*fault));
    }
    for row in good {
        assert!(rt; fault_of(rt, alloc, row) == None);
    }
}

/// Each outcome and each cause.
#[test]
fn outcomes_and_causes(rt: HostRuntime) {
    const ROWS: [&[u8]; 75] = [
        b"made 1 0 1\n",
        b"live 1\n",
        b"out 20002 127.0.0.1:41000 800f1234decafbadcafebabe4e55dc4ce79978d88ca4d215949d2402\n",
        b"made 4294967295 255 4\n",
        b"live 0\n",
        b"sdp 1 secure 763d30\n",
        b"sdp 1 plain -\n",
        b"ended 1 0 1 bye\n",
        b"ended 1 0 1 rejected\n",
        b"ended 1 255 255 idle\n",
        b"out 20001 127.0.0.1:40000 800f1234\n",
        b"out 0 0.0.0.0:0 -\n",
        b"unsent 65535 255.255.255.255:65535\n",
        b"drop 20000 Short\n",
        b"drop 20000 Version\n",
        b"drop 20000 CsrcCut\n",
        b"drop 20000 ExtensionCut\n",
        b"drop 20000 SsrcUnknown\n",
        b"drop 20000 MkiUnknown\n",
        b"drop 20000 KeySpent 4294967295 18446744073709551615\n",
        b"drop 20000 BeforeFirst\n",
        b"drop 20000 IndexSpent\n",
        b"drop 20000 Repeat\n",
        b"drop 20000 TooOld\n",
        b"drop 20000 BadTag\n",
        b"drop 20000 StreamsFull\n",
        b"drop 20000 RtcpIndexSpent\n",
        b"drop 20000 PortUnused\n",
        b"drop 20000 NotLive\n",
        b"drop 20000 TooLong\n",
        b"drop 20000 SourceUnknown\n",
        b"refused 1 Sdp 0 Order\n",
        b"refused 1 Sdp 4294967295 Form\n",
        b"refused 1 Sdp 0 TooLong\n",
        b"refused 1 Sdp 0 TooManyMedia\n",
        b"refused 1 Sdp 0 Address\n",
        b"refused 1 Sdes 0 NoLine\n",
        b"refused 1 Sdes 0 Tag\n",
        b"refused 1 Sdes 0 Suite\n",
        b"refused 1 Sdes 0 Key\n",
        b"refused 1 Sdes 0 Lifetime\n",
        b"refused 1 Sdes 0 MkiValue\n",
        b"refused 1 Sdes 3 Parameter\n",
        b"refused 1 Mikey 255 1 Cut\n",
        b"refused 1 Mikey 0 0 Version\n",
        b"refused 1 Mikey 0 1 DataType\n",
        b"refused 1 Mikey 0 4294967295 Payload\n",
        b"refused 1 Mikey 0 1 Order\n",
        b"refused 1 Mikey 0 1 Value\n",
        b"refused 1 Mikey 0 1 Trailing\n",
        b"refused 1 Psk 255 IdUnknown\n",
        b"refused 1 Psk 0 BadMac\n",
        b"refused 1 Psk 255 Skew -2208988800000 0\n",
        b"refused 1 Psk 255 Skew 9223372036854775807 18446744073709551615\n",
        b"refused 1 Psk 255 Skew -9223372036854775808 1\n",
        b"refused 1 Psk 0 Repeated\n",
        b"refused 1 Psk 0 Algorithm\n",
        b"refused 1 Psk 0 KeyType\n",
        b"refused 1 Psk 0 CacheFull\n",
        b"refused 1 Psk 0 OtherSession\n",
        b"refused 1 Cs 0 CsCount\n",
        b"refused 1 Cs 0 PolicyMissing\n",
        b"refused 1 Cs 0 PolicyValue\n",
        b"refused 1 KeyMgmt 255\n",
        b"refused 1 KeyReused 65535\n",
        b"refused 1 RingFull\n",
        b"refused 1 NoMedia\n",
        b"refused 1 MediaCount\n",
        b"refused 1 TableFull\n",
        b"refused 1 CallKnown\n",
        b"refused 1 CallUnknown\n",
        b"refused - PskKnown\n",
        b"refused - PskFull\n",
        b"refused - TickBack 18446744073709551615\n",
        b"refused 1 State\n",
    ];
    have_faults(&rt, rt.alloc(), &[], &ROWS);
}

#[test]
fn bad_outcomes(rt: HostRuntime) {
    use ScriptFault::{Hex, Number, Unended, Word};
    const ROWS: [(&[u8], ScriptFault); 24] = [
        (b"", Unended),
        (b"live 1", Unended),
        (b"\n", Word),
        (b"live\n", Word),
        (b"live 1 2\n", Word),
        (b"alive 1\n", Word),
        (b"live 01\n", Number),
        (b"live -\n", Number),
        (b"made 1 256 0\n", Number),
        (b"made 1 0\n", Word),
        (b"sdp 1 both -\n", Word),
        (b"sdp 1 plain \n", Hex),
        (b"sdp 1 plain AB\n", Hex),
        (b"ended 1 0 1 gone\n", Word),
        (b"out 1 1.1.1.1:1 0\n", Hex),
        (b"drop 1 KeySpent\n", Word),
        (b"drop 1 KeySpent 1\n", Word),
        (b"drop 1 KeySpent 1 x\n", Number),
        (b"drop 1 BadTag 1\n", Word),
        (b"drop 1\n", Word),
        (b"refused 1 Psk 0 Skew -0 1\n", Number),
        (b"refused 1 Psk 0 Skew +1 1\n", Number),
        (b"refused 1 Psk 0 Skew 9223372036854775808 1\n", Number),
        (b"refused 1 Sdp Order\n", Word),
    ];
    have_faults(&rt, rt.alloc(), &ROWS, &[]);
}
