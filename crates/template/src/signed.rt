// Signed numbers, made of unsigned ones only here and in the ratio: all else is computed on magnitudes, which need no care for the sign.
ghost use Rattle.std.specs.Prelude.{◌≡◌, ◌^◌, ◌<◌};
ghost use Rattle.std.proofs.Math.IntN.{sub_ℕ};

// Every row is a difference of two sums, one of which may be 0.
pub fn signed(up: u64, down: u64) -> i64
    requires { (up < 2 ^ 63) × (down < 2 ^ 63) }
    ensures { result ≡ sub_ℕ up down }
{
    up as i64 - down as i64
}
