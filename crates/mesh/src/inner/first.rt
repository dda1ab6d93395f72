// What the searching rows 4 to 7 have in common: the first place that offends decides.
ghost use Rattle.std.specs.Prelude.{◌≡◌, ℕ, ◌<◌, Bool};
ghost use Rattle.refusal.specs.declared.Refusal.{Refusal};
ghost use Rattle.refusal.specs.Rows.{refuse_first};
ghost use Rattle.mesh.specs.inner.Told.{Tells};

use refusal::Refusal;

// Refused at the first of n places that offends, for what `fault` tells of it; let through where none does.
pub(crate) fn refuse_first<O: Fn(usize) -> bool, W: Fn(u32) -> Refusal>(
    n: usize,
    offends: O,
    fault: W,
) -> Result<(), Refusal>
    requires short { n < 4294967296 }
    requires tested { (k : ℕ) → k < n → O.pre offends k }
    requires told { (k : ℕ) → k < n → W.pre fault k }
    ensures { (bad : ℕ → Bool) (why : ℕ → Refusal) → Tells n (O.post offends) bad → Tells n (W.post fault) why → result ≡ refuse_first bad n why }
{
    for k in 0..n {
        if offends(k) {
            return Err(fault(k as u32));
        }
    }
    Ok(())
}
