// Inner to `take`: one record that fits its heading judged by its station's last time and count: 17, 18, 19, or what it adds to the sums.
#![tactic(auto)]

ghost use Rattle.std.specs.Prelude.{◌≡◌, ◌*◌, ◌≤◌, ◌<◌, ◌^◌, pos, nat_abs, ◌*ℤ◌};
ghost use Rattle.refusal.specs.Told.{told};
ghost use Rattle.take_judge.specs.Judged.{terms_by, judged_late};

use refusal::Refusal;
use take_fit::Fit;

// What an accepted record adds: its weight w, and with its R, typeof.w.R and typeof.w.R².
#[derive(Clone, Copy)]
pub struct Terms {
    pub weight: u32,
    pub side: i64,
    pub square: u64,
}

// w, typeof.w.R and typeof.w.R² of a record that passes the edit.
fn terms_of(sigma: u16, residual: i64, factor: u64) -> Terms
    requires le_sigma { (1 ≤ sigma) × (sigma ≤ 256) × (factor ≤ 4) × (nat_abs residual ≤ 2 ^ 41) }
    requires factor_bound { nat_abs (residual *ℤ pos factor) ≤ 2560 * sigma }
    ensures { result ≡ terms_by sigma residual factor }
{
    let w = take_rules::weight(sigma);
    let scaled = residual * factor as i64;
    let size = num_signs::magnitude(scaled);
    Terms {
        weight: w as u32,
        side: w as i64 * scaled,
        square: w * (size * size),
    }
}

// 17, 18, 19, or what an accepted record adds.
pub fn judge(level: u16, x: Fit, last: u64, count: u32) -> Result<Terms, Refusal>
    requires level_bound { (level ≤ 100) × (1 ≤ x.sigma) × (x.sigma ≤ 256) × (x.step * x.factor ≡ 256) × (nat_abs x.residual ≤ 2 ^ 41) }
    requires step_bound { (x.step ≤ 256) × (x.factor ≤ 4) }
    ensures { told result ≡ judged_late level x last count }
{
    if x.time <= last {
        return Err(Refusal::NotLater);
    }
    if !take_rules::passes_edit(level, x.sigma, x.step, x.residual) {
        return Err(Refusal::Edit);
    }
    if count >= 256 {
        return Err(Refusal::Full);
    }
    Ok(terms_of(x.sigma, x.residual, x.factor))
}
