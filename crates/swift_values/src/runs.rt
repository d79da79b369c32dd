// Thirty-two bytes at once.
ghost use Rattle.std.specs.Prelude.{◌≡◌, false, ◌+◌, ◌<◌, ◌≤◌, length};
ghost use Rattle.swift_values.specs.Lanes.{Passed};

// Lane i: i where the byte does not pass, at least 32 where it does.
fn key(ok: bool, i: u8) -> u8
    requires { i < 32 }
    ensures { ok ≡ false → result ≡ i }
{
    if ok { 32 + i } else { i }
}

// How many bytes of 32, from the first on, pass, each with the byte behind it.
// (For the time: a `find` of the first that does not pass took a third longer, in the same lines as rustc builds them. No `From` makes a byte of the place.)
pub(crate) fn passing<F: Fn(u8, u8) -> bool>(m: &[u8], at: usize, passes: F) -> usize
    requires room { at + 33 ≤ length m.now }
    requires calls { F.IsAlwaysCallable passes }
    ensures { (result ≤ 32) × Passed (F.post passes) m.now at result }
{
    let mut r: u8 = 32;
    for i in 0..32 {
        r = r.min(key(passes(m[at + i], m[at + i + 1]), i as u8));
    }
    usize::from(r)
}
