// DSSI in held form.
ghost use Rattle.std.specs.Prelude.{◌+◌, ◌≤◌, ◌≡◌, [], ◌∷◌, ◌++◌, length};
ghost use Rattle.octets.specs.Number.{bytes_of};
ghost use Rattle.octets.specs.Area.{Wrote};
ghost use Rattle.header.specs.Dssi.{dssi_bytes, feature_counts, vector_counts};

use counted::counts::Tally;
use octets::number::{put1, put4};

// DSTR 2, and the levels.
fn put_levels(aall: u8, nall: u8, out: &mut [u8], at: usize) -> usize
    requires { at + 3 ≤ length out.old }
    ensures { Wrote out.old at (2 ∷ aall ∷ nall ∷ []) out.new result × (result ≡ at + 3) }
{
    let a = put1(out, at, 2);
    let b = put1(out, a, aall);
    put1(out, b, nall)
}

// Two counts.
fn put_pair(x: u32, y: u32, out: &mut [u8], at: usize) -> usize
    requires { at + 8 ≤ length out.old }
    ensures { Wrote out.old at (bytes_of 4 x ++ bytes_of 4 y) out.new result × (result ≡ at + 8) }
{
    let a = put4(out, at, x);
    put4(out, a, y)
}

// NOMR, NOCR, NOGR, NOLR.
fn put_features(t: Tally, out: &mut [u8], at: usize) -> usize
    requires { at + 16 ≤ length out.old }
    ensures { Wrote out.old at (feature_counts t) out.new result × (result ≡ at + 16) }
{
    let a = put_pair(t.meta, 0, out, at);
    put_pair(t.geo, t.collection, out, a)
}

// NOIN, NOCN, NOED, NOFA.
fn put_vectors(t: Tally, out: &mut [u8], at: usize) -> usize
    requires { at + 16 ≤ length out.old }
    ensures { Wrote out.old at (vector_counts t) out.new result }
{
    let a = put_pair(t.isolated, t.connected, out, at);
    put_pair(t.edges, 0, out, a)
}

pub fn put_dssi(aall: u8, nall: u8, t: Tally, out: &mut [u8], at: usize) -> usize
    requires { at + 35 ≤ length out.old }
    ensures { Wrote out.old at (dssi_bytes aall nall t) out.new result }
{
    let a = put_levels(aall, nall, out, at);
    let b = put_features(t, out, a);
    put_vectors(t, out, b)
}
