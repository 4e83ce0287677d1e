// The numbers of an arc file that is written, judged, and the bytes of its sections, put into lent room.
#![tactic(auto)]

ghost use Rattle.std.specs.Prelude.{◌≡◌, ◌+◌, ◌^◌, ◌<◌, length};
ghost use Rattle.byte_words.specs.Words.{lay};
ghost use Rattle.byte_section.specs.Section.{encoded};
ghost use Rattle.arc_put.specs.Bytes.{allowed, arc_bytes, Writable};

use arc_fields::Put;
use arc_heading::Heading;
use num_limits::RECORDS_MOST;

// Whether the numbers are allowed: the heading's two, and how many records a run has. A forged number of parameters has no size of a record.
#[tactic(auto, using(arc_heading::proofs::Sound::counts_fit_lem), unfolding(crate::specs::Bytes::allowed, crate::specs::Bytes::record_count, arc_heading::specs::Judge::counts_ok, num_whole::specs::Tests::both, num_whole::specs::Tests::up_to))]
pub fn is_allowed(h: Heading, run: &[u8]) -> bool
    ensures { result ≡ allowed h run.now }
{
    arc_limits::numbers_ok(h.parameters, h.stations)
        && arc_fields::records_in(h.parameters, run.len()) <= RECORDS_MOST
}

// Records of one kind, one after the other.
pub fn put_all<R: Put>(records: &[R], out: &mut [u8], start: usize)
    requires { start + length (encoded R.bytes records.now) < 2 ^ 64 }
    ensures { out.new ≡ lay out.old start (encoded R.bytes records.now) }
{
    let mut at = start;
    for r in records {
        r.put(out, at);
        at += R::SIZE;
    }
}

// The four sections, each after its count.
pub fn put_arc(h: Heading, run: &[u8], out: &mut [u8])
    requires { Writable h run.now (length out.old) }
    ensures { out.new ≡ lay out.old 0 (arc_bytes h run.now) }
{
    let stations_at = 20 + 16 * h.parameters;
    let records_at = stations_at + 4 + 8 * h.stations;
    byte_write::write_u32(out, 0, 1);
    h.settings.put(out, 4);
    byte_write::write_u32(out, 16, h.parameters as u32);
    put_all(&h.labels[..h.parameters], out, 20);
    byte_write::write_u32(out, stations_at, h.stations as u32);
    put_all(&h.listed[..h.stations], out, stations_at + 4);
    byte_write::write_u32(
        out,
        records_at,
        arc_fields::records_in(h.parameters, run.len()) as u32,
    );
    arc_fields::put_run(run, out, records_at + 4);
}
