// The normal file, written: the bytes of a system that stands in three lent rooms, or a refusal that changes nothing.
#![tactic(auto)]

ghost use Rattle.std.specs.Prelude.{◌≡◌, length};
ghost use Rattle.refusal.specs.Told.{told};
ghost use Rattle.norm_write.specs.Write.{write_normal, normal_left_in};

use refusal::Refusal;

// The whole file at the start of a lent buffer, which keeps its rest; a refusal changes nothing. The heads have each arc, then for each
// label its kind, index, arc, prior weight and estimate, then accepted and the square sum.
pub fn write(
    arcs: usize,
    parameters: usize,
    heads: &[u64],
    matrix: &[i64],
    rights: &[i64],
    out: &mut [u8],
) -> Result<usize, Refusal>
    ensures answer { told result ≡ write_normal arcs parameters heads.now matrix.now rights.now (length out.old) }
    ensures left { out.new ≡ normal_left_in arcs parameters heads.now matrix.now rights.now out.old }
{
    norm_judge::judge(arcs, parameters, heads, matrix, rights)?;
    let n = norm_room::needed(arcs, parameters);
    if out.len() < n {
        return Err(Refusal::Room);
    }
    norm_put::put(arcs, parameters, heads, matrix, rights, out);
    Ok(n)
}
