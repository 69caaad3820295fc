// How many bytes two slices have in common from their beginning: eight at a time, and then one by one.
ghost use Rattle.std.specs.Prelude.{◌≡◌, ◌*◌, ◌≤◌, length, take};
ghost use Rattle.checker.specs.Judgement.{common};

// How many eights the two have in common from their beginning.
fn eights(a: &[u8], b: &[u8]) -> usize
    ensures { (result * 8 ≤ length a.now) × (result * 8 ≤ length b.now) × (take (result * 8) a.now ≡ take (result * 8) b.now) }
{
    let (x, _) = a.as_chunks::<8>();
    let (y, _) = b.as_chunks::<8>();
    x.iter().zip(y).take_while(|(p, q)| p == q).count()
}

// How many bytes the two have in common from their beginning.
pub(crate) fn alike(a: &[u8], b: &[u8]) -> usize
    ensures { result ≡ common a.now b.now }
{
    let met = eights(a, b) * 8;
    let rest = a[met..].iter().zip(&b[met..]);
    met + rest.take_while(|(p, q)| p == q).count()
}
