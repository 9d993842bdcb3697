// Definitions and laws on lists and finite tests that the other crates share, a yes or no as a number, and two loops over bytes.
#![tactic(auto)]

ghost use Rattle.std.specs.Prelude.{◌≡◌, not, ◌+◌, ◌≤◌, eqb, length};
ghost use Rattle.std.proofs.lemmas.List.Edits.{sets};
ghost use Rattle.lists.specs.Fold.{any, one};

// 1 for yes, 0 for no.
pub fn one_if(b: bool) -> u8
    ensures { (result ≡ one b) × (result ≤ 1) }
{
    if b { 1 } else { 0 }
}

// Is one of the bytes above 0? Each is asked, with no jump between them: `any`, which stops at the first, takes longer where none or few are.
pub fn any_above_zero(l: &[u8]) -> bool
    ensures { result ≡ any (λ n. not (eqb n 0)) l.now }
{
    l.iter().fold(false, |found, n| found | (*n != 0))
}

// Copies bytes into the buffer.
pub fn put_all(out: &mut [u8], at: usize, src: &[u8])
    requires { at + length src.now ≤ length out.old }
    ensures { out.new ≡ sets out.old at src.now }
{
    out[at..at + src.len()].copy_from_slice(src);
}
