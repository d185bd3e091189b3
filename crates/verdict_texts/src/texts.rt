// Verdicts as `sheetverdict` prints them.
use judge::verdict::Verdict;
use mollavisce::entry::verdict_of;
use std::io;
use text::verdict::text_of;

#[tactic(auto, using(text::proofs::Said::within))]
fn print(rt: &HostRuntime, verdict: Verdict) -> io::Result<()> {
    let text = text_of(verdict);
    rt.write_all(&text.bytes[..text.length])
}

// The largest number that an answer can be; the other fields are those of no verdict, and are not printed.
const LARGEST: Verdict = Verdict {
    answer: u32::MAX,
    named: u32::MAX,
    count: 7,
    length: 1000,
    ring: [255u8; 32],
};

pub(crate) fn lines(rt: &HostRuntime) -> io::Result<()> {
    let verdicts = [
        // no bytes at all
        verdict_of(b"", 0),
        // the empty table: nobody
        verdict_of(b"\x01\x00\x00", 0),
        verdict_of(crate::entry::P4, 0),
        // everybody named, everybody on the ring
        verdict_of(&crate::longest::sheet(), 0),
        LARGEST,
        // a length over 32, and numbers that are no task's, on answer 0: all 32 places are printed
        Verdict {
            answer: 0,
            ..LARGEST
        },
    ];
    for verdict in verdicts {
        print(rt, verdict)?;
    }
    Ok(())
}
