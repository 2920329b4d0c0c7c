// The records among the bytes that are held.
ghost use Rattle.std.specs.Prelude.{◌≡◌, ◌≤◌, length, Some, MatchResult};
ghost use Rattle.laws.specs.Writing.{front};
ghost use Rattle.jobs.specs.Run.{whole, front_of, held_run, run_of};
ghost use Rattle.jobs.specs.Found.{job_in, why_none};

use super::kinds;
use lines::sizes::LONGEST_LINE;

// Why a call took no further record.
// Stays an enum of three: none of them is "no reason", and none holds a value.
#[derive(Clone, Copy)]
pub enum Ended {
    // What is left is nothing, or the beginning of a record: more bytes are wanted, or the input has ended.
    More,
    // The room that is left might not hold another line.
    Full,
    // A kind that is not known: the run ends here.
    Stopped,
}

// What a call took of the held bytes and wrote, and the numbers of records and of drawn ones behind it.
// Stays a struct with why it ended beside the counts: `run_of`, the promise of `run_held`, holds all five of every call.
#[derive(Clone, Copy)]
pub struct Run {
    pub taken: usize,
    pub written: usize,
    pub records: u64,
    pub drawn: u64,
    pub ended: Ended,
}

// A whole record, and what is held behind it.
#[derive(Clone, Copy)]
struct Record<'a> {
    kind: u8,
    mode: u8,
    count: u8,
    field: &'a [u8],
    rest: &'a [u8],
}

// The record at the front of the held bytes, or why there is none.
fn first_record(held: &[u8]) -> Result<Record<'_>, Ended>
    ensures { MatchResult result (λ r. front_of held.now ≡ whole (job_in r) r.rest.now) (λ why. why_none (front_of held.now) ≡ Some why) }
{
    let [kind, behind @ ..] = held else {
        return Err(Ended::More);
    };
    let body = kinds::body_of(*kind).ok_or(Ended::Stopped)?;
    if behind.len() < body {
        return Err(Ended::More);
    }
    Ok(Record {
        kind: *kind,
        mode: behind[0],
        count: behind[1],
        field: &behind[2..body],
        rest: &behind[body..],
    })
}

// Takes whole records from the front of the held bytes, as long as the room holds another line, and writes their lines. Records are
// numbered on from `records`; the largest number stays, which no run reaches.
pub fn run_held(held: &[u8], records: u64, drawn: u64, out: &mut [u8]) -> Run
    ensures value { result ≡ run_of (held_run (length out.old) records drawn held.now) }
    ensures out_after { out.new ≡ front (held_run (length out.old) records drawn held.now).text out.old }
    ensures taken_in_bounds { result.taken ≤ length held.now }
    ensures written_in_bounds { result.written ≤ length out.old }
{
    let mut run = Run {
        taken: 0,
        written: 0,
        records,
        drawn,
        ended: Ended::More,
    };
    // Stays a `loop`: a record is as long as its kind says, and no iterator of std steps by that.
    loop {
        let record = match first_record(&held[run.taken..]) {
            Ok(record) => record,
            Err(ended) => return Run { ended, ..run },
        };
        if out.len() - run.written < LONGEST_LINE {
            return Run {
                ended: Ended::Full,
                ..run
            };
        }
        run.records = run.records.saturating_add(1);
        let line = lines::put_line(
            run.records,
            kinds::symbology_of(record.kind),
            record.mode,
            record.count,
            record.field,
            out,
            run.written,
        );
        run.drawn = run.drawn.saturating_add(u64::from(line.drawn));
        run.written = line.next;
        run.taken = held.len() - record.rest.len();
    }
}
